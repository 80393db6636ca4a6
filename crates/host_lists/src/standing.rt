//! Lists that stand as others do.

ghost use Rattle.std.specs.Prelude.{◌≡◌, OnOk};

use crate::lists::HostLists;
use extent_list::dcd_codes::dcd_base::NoMemory;

impl HostLists {
    /// Makes these lists equal to others. Memory is asked for only where those are more than a host can have by the rules of the
    /// device. Without it, what these lists are is not said: they are made anew before they are read.
    pub fn stand_as(&mut self, others: &HostLists) -> Result<(), NoMemory>
        ensures { OnOk result (self.new ≡ others.now) }
    {
        self.accepted.stand_as(&others.accepted)?;
        self.offers.stand_as(&others.offers)?;
        self.releases.drop_held();
        self.releases.hold(others.releases.held())?;
        self.generation = others.generation;
        Ok(())
    }
}
