//! Loads and stores that wait for their shard.

ghost use Rattle.block_shard.specs.journal_core.specs.Entries.{fits, is_control};
ghost use Rattle.block_shard.specs.ruled_cells.specs.Calls.{IsOf};
ghost use Rattle.block_shard.specs.ruled_cells.specs.Ruling.{names};
ghost use Rattle.block_shard.specs.ruled_cells.specs.Seats.{HasCell, IsNoTry, IsSameSeat, seat_view, turns_of};
ghost use Rattle.block_shard.specs.ruled_cells.specs.Telling.{ToldCell};
ghost use Rattle.block_shard.specs.shard_laws.specs.Right.{stripe_reads};
ghost use Rattle.shared_device.specs.Commanding.{commanding_reads};
ghost use Rattle.shared_device.specs.Passing.{Called, IsOneOf, IsSamePass, Uncalled, pass_actor, pass_calls};
ghost use Rattle.shared_device.specs.Visiting.{HasVisited, MayVisit};
ghost use Rattle.std.specs.Prelude.{◌≡◌, ◌^◌, ◌<◌, suc, IfOk, IsTrue, None, OnErr, false, length, slice_set};

use crate::cells::{ControlCell, ShardCell};
use crate::moment::Moment;
use crate::pass::Pass;
use crate::shared::Shared;
use crate::target::{Target, target_of};
use block_shard::journal_core::{Act, Reply};
use block_shard::ruled_cells::Seat;
use dcd_base::{NoMemory, Stamp};
use std::sync::Wait;

impl Shared {
    /// Takes a load or a store of a host's pass, and answers its reply. It waits for the turn of the shard of its place, or of
    /// shard 0 where there is none. Without memory nothing has changed.
    pub fn access<R: Wait, M: Moment>(
        &self,
        rt: &R,
        pass: &mut Pass,
        line: u32,
        act: &Act,
        moment: &M,
    ) -> Result<Reply, NoMemory>
        requires of { IsOneOf self.now pass.old }
        requires fits { IsTrue (fits self.now.config.hosts (pass_actor pass.old) act.now) }
        requires access { is_control act.now ≡ false }
        requires room { length (pass_calls pass.old) < 2 ^ 32 }
        ensures same { IsSamePass self.now pass.old pass.new }
        ensures called { IfOk result (λ reply. Called line act.now reply pass.old pass.new) }
        ensures kept { OnErr result (Uncalled pass.old pass.new) }
    {
        let target = target_of(&self.config, pass.actor, act);
        let cell = self.cells.take(rt, &mut pass.seat, target.index);
        moment.inside(pass.actor, line);
        let (reply, stamp) = self.enter(&mut pass.seat, pass.seen, line, act, &target, cell)?;
        pass.seen = stamp;
        pass.calls += 1;
        Ok(reply)
    }

    /// Enters a load or a store at the shard that was taken, and gives the shard back. Without memory it is as it was taken.
    pub(crate) fn enter(
        &self,
        seat: &mut Seat<ControlCell, ShardCell>,
        seen: Stamp,
        line: u32,
        act: &Act,
        target: &Target,
        mut cell: ShardCell,
    ) -> Result<(Reply, Stamp), NoMemory>
        requires of { IsOf self.now.cells seat.old }
        requires may { MayVisit self.now.config act.now target.now seat.old }
        requires turn { HasCell seat.old target.now.index cell }
        requires told { ToldCell (names commanding_reads stripe_reads) (seat_view seat.old) cell }
        requires seen { (seat_view seat.old).seen ≡ seen }
        ensures seat { IsSameSeat seat.old seat.new }
        ensures no_try { IsNoTry seat.old seat.new }
        ensures turns { turns_of seat.new ≡ slice_set (turns_of seat.old) (suc target.now.index) None }
        ensures visited { IfOk result (λ done. HasVisited line target.now.host act.now done seat.old seat.new) }
        ensures kept { OnErr result (seat_view seat.new ≡ seat_view seat.old) }
    {
        let done = cell.access(seen, seat.number(), line, target.host, act, target.at);
        self.cells.give(seat, target.index, cell);
        done
    }
}
