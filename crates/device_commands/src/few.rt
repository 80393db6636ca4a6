//! A few things in order, without memory.

ghost use Rattle.std.specs.Prelude.{◌≡◌, ◌++◌, ◌∷◌, ◌<◌, ◌≤◌, [], length};

use std::marker::Model;

/// How many there are at most, as many as a device has regions.
const MOST: usize = 8;

/// Up to eight things in order, one for each region of a device. They lie in the value itself and take no memory.
///
/// Contracts see the list of them.
#[derive(Drop)]
pub struct Few<T: Copy> {
    items: [T; MOST],
    len: usize,
}

impl<T: Copy> Model for Few<T> {
    ghost use Rattle.std.specs.Prelude.{◌≤◌, List, take};

    ghost Value = { List T };

    ghost view = { λ f. take f.len f.items };

    ghost invariant = { λ f. f.len ≤ 8 };
}

impl<T: Copy> Few<T> {
    /// None. The blank stands in the places that hold nothing yet.
    pub fn new(blank: T) -> Few<T>
        ensures { result ≡ [] }
    {
        Few {
            items: [blank; MOST],
            len: 0,
        }
    }

    /// Puts one behind the others.
    #[inline(always)]
    pub fn push(&mut self, item: T)
        requires { length self.old < 8 }
        ensures { self.new ≡ self.old ++ item ∷ [] }
    {
        self.items[self.len] = item;
        self.len += 1;
    }

    /// All of them.
    #[inline(always)]
    pub fn as_slice(&self) -> &[T]
        ensures value { result.now ≡ self.now }
        ensures few { length result.now ≤ 8 }
    {
        let (front, _) = self.items.split_at(self.len);
        front
    }
}
