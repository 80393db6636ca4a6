//! Ranges that leave a host at once.

ghost use Rattle.std.specs.Prelude.{◌≡◌, ◌++◌, ◌∷◌, ◌<◌, ◌≤◌, [], length};

use cci_codec::dcd_base::{Extent, no_tag};
use std::marker::Model;

/// How many there are at most.
pub(crate) const AT_ONCE: usize = 64;

/// Up to 64 ranges in order. They lie in the value itself and take no memory.
///
/// Contracts see the list of them.
#[derive(Drop)]
pub(crate) struct Ranges {
    extents: [Extent; AT_ONCE],
    count: usize,
}

impl Model for Ranges {
    ghost use Rattle.cci_codec.specs.dcd_base.specs.declared.capacity.Extent.{Extent};
    ghost use Rattle.std.specs.Prelude.{◌≤◌, List, take};

    ghost Value = { List Extent };

    ghost view = { λ r. take r.count r.extents };

    ghost invariant = { λ r. r.count ≤ 64 };
}

impl Ranges {
    /// None.
    pub(crate) fn none() -> Ranges
        ensures { result ≡ [] }
    {
        let blank = Extent {
            start: 0,
            length: 0,
            tag: no_tag(),
            sequence: 0,
        };
        Ranges {
            extents: [blank; AT_ONCE],
            count: 0,
        }
    }

    /// Puts one behind the others.
    pub(crate) fn push(&mut self, range: Extent)
        requires { length self.old < 64 }
        ensures { self.new ≡ self.old ++ range ∷ [] }
    {
        self.extents[self.count] = range;
        self.count += 1;
    }

    /// All of them.
    pub(crate) fn as_slice(&self) -> &[Extent]
        ensures { result.now ≡ self.now }
    {
        let (front, _) = self.extents.split_at(self.count);
        front
    }
}
