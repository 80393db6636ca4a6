//! An offer.

ghost use Rattle.std.specs.Prelude.{◌≡◌, IfOk};

use extent_list::dcd_codes::dcd_base::{Extents, NoMemory};

/// Extents of one region that a host may accept, in the order in which they were chosen. Their region is read from their
/// addresses.
#[derive(Debug, Drop)]
pub struct Offer {
    pub extents: Extents,
}

impl Offer {
    /// An equal offer of its own.
    pub fn copy(&self) -> Result<Offer, NoMemory>
        ensures { IfOk result (λ copy. copy ≡ self.now) }
    {
        Ok(Offer {
            extents: self.extents.copy()?,
        })
    }
}
