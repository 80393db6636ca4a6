//! Offers to a host that change its lists at once.

ghost use Rattle.std.specs.Prelude.{◌≡◌, ◌++◌, ◌∷◌, [], OnErr, OnOk};

use crate::lists::HostLists;
use extent_list::dcd_codes::dcd_base::{Extents, NoMemory};
use offer_core::Offer;

impl HostLists {
    /// Offers these extents, behind all other offers. Without memory nothing changes.
    pub fn offer(&mut self, extents: Extents) -> Result<(), NoMemory>
        ensures offered { OnOk result (self.new ≡ record self.old { offers = self.old.offers ++ extents ∷ [] }) }
        ensures kept { OnErr result (self.new ≡ self.old) }
    {
        self.offers.push(Offer { extents })
    }
}
