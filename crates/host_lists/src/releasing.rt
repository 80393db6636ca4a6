//! Extents that are taken from a host, which changes its lists at once.

ghost use Rattle.extent_list.specs.ExtentLists.{cut_all};
ghost use Rattle.host_lists.specs.Answers.{lists_less};
ghost use Rattle.std.specs.Prelude.{◌≡◌, ◌+◌, ◌^◌, ◌<◌, All, IfOk, OnErr, OnOk};

use crate::accepted::AcceptedList;
use crate::changes::next_generation;
use crate::lists::HostLists;
use extent_list::dcd_codes::dcd_base::{Extent, Extents, NoMemory};

impl HostLists {
    /// Takes those of these extents out of the accepted ones that lie in one when their turn comes, which counts as
    /// one change. Each ends below 2^64. Without memory nothing changes.
    pub fn take_out(&mut self, extents: &Extents) -> Result<(), NoMemory>
        requires ends { All (λ x. x.start + x.length < 2 ^ 64) extents.now }
        ensures taken { OnOk result (self.new ≡ lists_less extents.now self.old) }
        ensures kept { OnErr result (self.new ≡ self.old) }
    {
        self.accepted = self.accepted_less(extents.as_slice())?;
        self.generation = next_generation(self.generation);
        Ok(())
    }

    /// The accepted extents without these, each of which ends below 2^64.
    fn accepted_less(&self, leaving: &[Extent]) -> Result<AcceptedList, NoMemory>
        requires ends { All (λ x. x.start + x.length < 2 ^ 64) leaving.now }
        ensures { IfOk result (λ accepted. accepted ≡ cut_all leaving.now self.now.accepted) }
    {
        let mut accepted = self.accepted().copy_with_room(leaving.len())?;
        accepted.reserve(leaving.len())?;
        accepted.cut_all(leaving);
        AcceptedList::of(accepted)
    }
}
