//! Loads and stores that wait for nobody.

ghost use Rattle.dcd_base.specs.declared.ids.HostId.{HostId};
ghost use Rattle.dcd_base.specs.declared.steps.Actor.TheVariants.{Host};
ghost use Rattle.block_shard.specs.journal_core.specs.declared.acts.Act.TheVariants.{Load, Store};
ghost use Rattle.block_shard.specs.journal_core.specs.Entries.{fits, is_control};
ghost use Rattle.shared_device.specs.Passing.{IsOneOf, IsSamePass, pass_actor, pass_calls, pass_tries};
ghost use Rattle.shared_device.specs.Trying.{AtItsShard, Tried};
ghost use Rattle.std.specs.Prelude.{◌≡◌, ◌+◌, ◌^◌, ◌<◌, IsTrue, false, length};

use crate::faults::TryFault;
use crate::pass::Pass;
use crate::shared::Shared;
use crate::target::target_of;
use block_shard::journal_core::{Act, Reply};

impl Shared {
    /// A load that waits for nobody: `Busy` comes exactly where its one step on the turn of its place's shard found another pass.
    pub fn try_load(&self, pass: &mut Pass, line: u32, dpa: u64) -> Result<Reply, TryFault>
        requires of { IsOneOf self.now pass.old }
        requires host { (h : HostId) × (pass_actor pass.old ≡ Host h) × (h < self.now.config.hosts) }
        requires room { length (pass_calls pass.old) < 2 ^ 32 }
        ensures same { IsSamePass self.now pass.old pass.new }
        ensures once { pass_tries pass.new ≡ pass_tries pass.old + 1 }
        ensures here { AtItsShard self.now (Load dpa) pass.new }
        ensures tried { Tried self.now line (Load dpa) pass.old pass.new result }
    {
        self.try_access(pass, line, &Act::Load(dpa))
    }

    /// A store that waits for nobody, as `try_load`.
    pub fn try_store(
        &self,
        pass: &mut Pass,
        line: u32,
        dpa: u64,
        value: u64,
    ) -> Result<Reply, TryFault>
        requires of { IsOneOf self.now pass.old }
        requires host { (h : HostId) × (pass_actor pass.old ≡ Host h) × (h < self.now.config.hosts) }
        requires room { length (pass_calls pass.old) < 2 ^ 32 }
        ensures same { IsSamePass self.now pass.old pass.new }
        ensures once { pass_tries pass.new ≡ pass_tries pass.old + 1 }
        ensures here { AtItsShard self.now (Store dpa value) pass.new }
        ensures tried { Tried self.now line (Store dpa value) pass.old pass.new result }
    {
        self.try_access(pass, line, &Act::Store(dpa, value))
    }

    /// A load or a store that waits for nobody.
    fn try_access(&self, pass: &mut Pass, line: u32, act: &Act) -> Result<Reply, TryFault>
        requires of { IsOneOf self.now pass.old }
        requires fits { IsTrue (fits self.now.config.hosts (pass_actor pass.old) act.now) }
        requires access { is_control act.now ≡ false }
        requires room { length (pass_calls pass.old) < 2 ^ 32 }
        ensures same { IsSamePass self.now pass.old pass.new }
        ensures once { pass_tries pass.new ≡ pass_tries pass.old + 1 }
        ensures here { AtItsShard self.now act.now pass.new }
        ensures tried { Tried self.now line act.now pass.old pass.new result }
    {
        let target = target_of(&self.config, pass.actor, act);
        match self.cells.try_take(&mut pass.seat, target.index) {
            Ok(cell) => match self.enter(&mut pass.seat, pass.seen, line, act, &target, cell) {
                Ok((reply, stamp)) => {
                    pass.seen = stamp;
                    pass.calls += 1;
                    Ok(reply)
                }
                Err(_) => Err(TryFault::NoMemory),
            },
            Err(busy) => Err(TryFault::Busy {
                seat_seen: busy.seat_seen,
            }),
        }
    }
}
