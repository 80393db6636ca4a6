//! Commands and scrubs.

ghost use Rattle.control_core.specs.Steps.{MayStep};
ghost use Rattle.shared_device.specs.Passing.{Called, IsOneOf, IsSamePass, Uncalled, pass_actor, pass_calls};
ghost use Rattle.std.specs.Prelude.{◌^◌, ◌<◌, IfOk, OnErr, length};

mod entering;
mod planning;

use crate::command::entering::enter;
use crate::pass::Pass;
use crate::shared::Shared;
use block_shard::journal_core::{Act, Reply};
use dcd_base::NoMemory;
use std::sync::Wait;

impl Shared {
    /// Takes a command or a scrub, and answers its reply. It waits for the turn of the control, and then for those of the
    /// shards that it changes, in rising order. Without memory nothing has changed.
    pub fn command<R: Wait>(
        &self,
        rt: &R,
        pass: &mut Pass,
        line: u32,
        act: &Act,
    ) -> Result<Reply, NoMemory>
        requires of { IsOneOf self.now pass.old }
        requires may { MayStep self.now.config (pass_actor pass.old) act.now }
        requires room { length (pass_calls pass.old) < 2 ^ 32 }
        ensures same { IsSamePass self.now pass.old pass.new }
        ensures called { IfOk result (λ reply. Called line act.now reply pass.old pass.new) }
        ensures kept { OnErr result (Uncalled pass.old pass.new) }
    {
        let act = act.copy()?;
        let (reply, stamp) = enter(rt, &self.cells, &mut pass.seat, line, pass.actor, act)?;
        pass.seen = stamp;
        pass.calls += 1;
        Ok(reply)
    }
}
