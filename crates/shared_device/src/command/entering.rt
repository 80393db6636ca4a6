//! A command or a scrub at the cells.

ghost use Rattle.control_core.specs.Steps.{MayStep};
ghost use Rattle.block_shard.specs.ruled_cells.specs.Calls.{IsOf, row_of};
ghost use Rattle.block_shard.specs.ruled_cells.specs.Seats.{IsSameSeat, NoTurns, seat_number, seat_view, turns_of};
ghost use Rattle.block_shard.specs.ruled_cells.specs.Stamps.{Below};
ghost use Rattle.block_shard.specs.ruled_cells.specs.Telling.{begun, noted_view};
ghost use Rattle.block_shard.specs.shard_laws.specs.Belonging.{touches_shard};
ghost use Rattle.shared_device.specs.Entering.{AreApart, HasCommanded, HasNoted, HasOneMore, HasOnlyFirst, HasTouched, MayEnterStep};
ghost use Rattle.std.specs.Prelude.{◌≡◌, ◌^◌, ◌<◌, ◌≤◌, IfOk, None, OnErr, length, true};
ghost use mathlib.Core.Option.{some};
ghost use lib.ListN.{get_elem?};

use crate::cells::{ControlCell, ShardCell};
use crate::command::planning::{change, entered, prepared};
use block_shard::journal_core::{Act, Reply};
use block_shard::ruled_cells::{Cells, Seat};
use block_shard::touches;
use control_core::Plan;
use dcd_base::{Actor, NoMemory, Stamp};
use std::sync::Wait;

/// Enters the step of the plan and notes its entry. It takes no memory.
fn note(
    cells: &Cells<ControlCell, ShardCell>,
    seat: &mut Seat<ControlCell, ShardCell>,
    control: &mut ControlCell,
    plan: Plan,
)
    requires of { IsOf cells.now seat.old × (row_of cells.now ≡ 16) }
    requires may { MayEnterStep seat.old control.old plan }
    requires touched { HasTouched seat.old 16 plan.entry }
    ensures seat { IsSameSeat seat.old seat.new }
    ensures turns { turns_of seat.new ≡ turns_of seat.old }
    ensures view { HasNoted 16 plan.entry (seat_view seat.old) (seat_view seat.new) }
    ensures control { HasOneMore control.old control.new plan.entry }
{
    entered(control, plan);
    cells.note(seat, control);
}

/// The first shard from an index on that the plan's entry touches, or 16 where it touches none of them.
fn first_touched(plan: &Plan, index: u32) -> u32
    requires { index ≤ 16 }
    ensures from { index ≤ result }
    ensures until { result ≤ 16 }
    ensures apart { AreApart index result plan.now.entry }
    ensures touched { result < 16 → touches_shard result plan.now.entry ≡ true }
{
    let mut at = index;
    while at < 16 {
        if touches(plan.entry(), at) {
            return at;
        }
        at += 1;
    }
    16
}

/// Takes and changes each shard from an index on that the plan's entry touches, enters and notes the entry, and gives
/// the shards back, the last one first. It takes no memory.
fn enter_from<R: Wait>(
    rt: &R,
    cells: &Cells<ControlCell, ShardCell>,
    seat: &mut Seat<ControlCell, ShardCell>,
    control: &mut ControlCell,
    plan: Plan,
    index: u32,
)
    requires of { IsOf cells.now seat.old × (row_of cells.now ≡ 16) }
    requires index { index ≤ 16 }
    requires may { MayEnterStep seat.old control.old plan }
    requires touched { HasTouched seat.old index plan.entry }
    ensures seat { IsSameSeat seat.old seat.new }
    ensures turns { turns_of seat.new ≡ turns_of seat.old }
    ensures view { HasNoted index plan.entry (seat_view seat.old) (seat_view seat.new) }
    ensures control { HasOneMore control.old control.new plan.entry }
{
    let at = first_touched(&plan, index);
    if at == 16 {
        note(cells, seat, control, plan);
        return;
    }
    let mut shard = cells.take(rt, seat, at);
    change(&mut shard, &plan);
    enter_from(rt, cells, seat, control, plan, at + 1);
    cells.give(seat, at, shard);
}

/// Makes a prepared step the seat's call, and gives the control back. It takes no memory.
fn finish<R: Wait>(
    rt: &R,
    cells: &Cells<ControlCell, ShardCell>,
    seat: &mut Seat<ControlCell, ShardCell>,
    mut control: ControlCell,
    plan: Plan,
)
    requires of { IsOf cells.now seat.old × (row_of cells.now ≡ 16) }
    requires may { MayEnterStep seat.old control plan }
    requires touched { HasTouched seat.old 0 plan.entry }
    ensures seat { IsSameSeat seat.old seat.new × NoTurns seat.new }
    ensures view { seat_view seat.new ≡ begun (noted_view plan.entry (seat_view seat.old)) }
    ensures above { Below (seat_view seat.old).seen plan.entry.stamp }
{
    enter_from(rt, cells, seat, &mut control, plan, 0);
    cells.give_first(seat, control);
}

/// Gives the control back with the entries that it had.
fn give_up(
    cells: &Cells<ControlCell, ShardCell>,
    seat: &mut Seat<ControlCell, ShardCell>,
    control: ControlCell,
)
    requires of { IsOf cells.now seat.old × (row_of cells.now ≡ 16) }
    requires idle { (seat_view seat.old).entry ≡ None }
    requires turns { HasOnlyFirst seat.old control }
    ensures seat { IsSameSeat seat.old seat.new × NoTurns seat.new }
    ensures view { seat_view seat.new ≡ begun (seat_view seat.old) }
{
    cells.give_first(seat, control);
}

/// Takes a command or a scrub of the seat, and answers its reply and its stamp. Without memory nothing has changed.
pub(crate) fn enter<R: Wait>(
    rt: &R,
    cells: &Cells<ControlCell, ShardCell>,
    seat: &mut Seat<ControlCell, ShardCell>,
    line: u32,
    actor: Actor,
    act: Act,
) -> Result<(Reply, Stamp), NoMemory>
    requires of { IsOf cells.now seat.old × (row_of cells.now ≡ 16) }
    requires idle { NoTurns seat.old × ((seat_view seat.old).entry ≡ None) }
    requires actor { get_elem? (seat_view seat.old).about.actors (seat_number seat.old) ≡ some actor }
    requires may { MayStep (seat_view seat.old).about.config actor act }
    requires room { length (seat_view seat.old).calls < 2 ^ 32 }
    ensures seat { IsSameSeat seat.old seat.new × NoTurns seat.new }
    ensures called { IfOk result (λ done. HasCommanded line act done.0 done.1 (seat_view seat.old) (seat_view seat.new)) }
    ensures kept { OnErr result (seat_view seat.new ≡ begun (seat_view seat.old)) }
{
    let mut control = cells.take_first(rt, seat);
    match prepared(&mut control, seat.number(), line, actor, act) {
        Ok((plan, reply)) => {
            let stamp = plan.entry().stamp;
            finish(rt, cells, seat, control, plan);
            Ok((reply, stamp))
        }
        Err(NoMemory) => {
            give_up(cells, seat, control);
            Err(NoMemory)
        }
    }
}
