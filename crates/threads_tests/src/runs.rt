//! The calls, by one thread and by two.
ghost use Rattle.std.specs.Prelude.{◌≡◌, ◌+◌, ◌^◌, ◌<◌, ◌≤◌, suc, [], ◌∷◌, false, length, slice_set, IfOk, None};
ghost use Rattle.dcd_base.specs.declared.steps.Actor.TheVariants.{Sanitizer};
ghost use Rattle.journal_core.specs.Entries.{is_control};
ghost use Rattle.script_runner.specs.shared_device.specs.ruled_cells.specs.Calls.{IsNew, IsOf, row_of, seats_of};
ghost use Rattle.script_runner.specs.shared_device.specs.ruled_cells.specs.Seats.{HasCell, IsSameSeat, NoTurns, seat_number, turns_of, seat_view};
ghost use Rattle.script_runner.specs.shared_device.specs.ruled_cells.specs.Stamps.{stamp};
ghost use Rattle.threads_tests.specs.Tally.{IsIdle, IsUnused, MayHaveAdded, no_config};

use crate::counter::Counter;
use crate::ledger::Ledger;
use crate::seeing::see;
use dcd_base::{Actor, NoMemory, Stamp};
use journal_core::{Act, Effects, Entry, Journal, Reply};
use script_runner::shared_device::ruled_cells::{Busy, Cells, Seat};
use std::alloc::Global;
use std::process::Abort;
use std::sync::Wait;
use std::test::*;
use std::thread::{Threads, join};

pub type Tallies = Cells<Ledger, Counter>;

pub type Worker = Seat<Ledger, Counter>;

fn counter(alloc: Global, index: u32) -> Counter
    ensures { result ≡ record { index = index; value = 0; entries = []; clock = stamp 0 0 } }
{
    Counter {
        index,
        value: 0,
        entries: Journal::new(alloc),
        clock: Stamp {
            number: 0,
            count: 0,
        },
    }
}

/// An access of the seat, above both stamps.
fn access(alloc: Global, pass: u32, line: u32, stamp: Stamp) -> Entry
    ensures { (result.pass ≡ pass) × (result.actor ≡ Sanitizer) × (is_control result.act ≡ false) × (result.stamp ≡ stamp) }
{
    Entry {
        pass,
        line,
        actor: Actor::Sanitizer,
        act: Act::Load(0),
        reply: Reply::Word(0),
        effects: Effects::new(alloc),
        stamp,
    }
}

/// Counts an access of the seat, or does nothing: without memory, or at the greatest value.
fn add(mut counter: Counter, pass: u32, line: u32, seen: Stamp) -> (Counter, Stamp)
    requires seen { seen.count + 1 < 2 ^ 64 }
    requires clock { counter.clock.count + 1 < 2 ^ 64 }
    ensures { MayHaveAdded pass seen counter result.0 result.1 }
{
    let stamp = Stamp {
        number: seen.number.max(counter.clock.number),
        count: seen.count.max(counter.clock.count) + 1,
    };
    if counter.value == u64::MAX {
        return (counter, seen);
    }
    let entry = access(counter.entries.allocator(), pass, line, stamp);
    if counter.entries.push(entry).is_err() {
        return (counter, seen);
    }
    counter.value += 1;
    counter.clock = stamp;
    (counter, stamp)
}

/// Takes the cell of index 0, counts an access and gives the cell back.
fn step<R: Wait>(rt: &R, cells: &Tallies, seat: &mut Worker, seen: Stamp, line: u32) -> Stamp
    requires of { IsOf cells.now seat.old × (0 < row_of cells.now) }
    requires idle { NoTurns seat.old × IsIdle (seat_number seat.old) seen (seat_view seat.old) }
    requires room { length (seat_view seat.old).calls < 2 ^ 32 }
    ensures seat { IsSameSeat seat.old seat.new }
    ensures idle { NoTurns seat.new × IsIdle (seat_number seat.new) result (seat_view seat.new) }
    ensures calls { length (seat_view seat.new).calls ≤ length (seat_view seat.old).calls + 1 }
{
    let counter = cells.take(rt, seat, 0);
    let (counter, seen) = add(counter, seat.number(), line, seen);
    cells.give(seat, 0, counter);
    seen
}

/// Counts so many accesses of the seat.
fn work<R: Wait>(rt: &R, cells: &Tallies, mut seat: Worker, rounds: u32) -> Worker
    requires of { IsOf cells.now seat × (0 < row_of cells.now) }
    requires idle { NoTurns seat × IsIdle (seat_number seat) (seat_view seat).seen (seat_view seat) }
    requires new { IsUnused (seat_view seat) }
    ensures seat { IsSameSeat seat result × NoTurns result }
{
    let mut seen = Stamp {
        number: 0,
        count: 0,
    };
    for i in 0..rounds {
        seen = step(rt, cells, &mut seat, seen, i);
    }
    seat
}

/// A first cell, two counters and two seats.
pub fn made(alloc: Global) -> Result<(Tallies, Worker, Worker), NoMemory>
    ensures cells { IfOk result (λ made. (row_of made.0 ≡ 2) × (seats_of made.0 ≡ 2)) }
    ensures one { IfOk result (λ made. IsNew made.0 (record { config = no_config; actors = Sanitizer ∷ Sanitizer ∷ [] }) 0 made.1) }
    ensures two { IfOk result (λ made. IsNew made.0 (record { config = no_config; actors = Sanitizer ∷ Sanitizer ∷ [] }) 1 made.2) }
{
    let mut rest = Vec::new(alloc);
    rest.push(counter(alloc, 0))?;
    rest.push(counter(alloc, 1))?;
    let ledger = Ledger {
        entries: Journal::new(alloc),
    };
    let Ok((cells, mut seats)) = Cells::make(alloc, ledger, rest, 2) else {
        return Err(NoMemory);
    };
    let Some(two) = seats.pop() else {
        unreachable!()
    };
    let Some(one) = seats.pop() else {
        unreachable!()
    };
    Ok((cells, one, two))
}

/// Takes the cells apart again.
pub fn closed(
    alloc: Global,
    cells: Tallies,
    one: Worker,
    two: Worker,
) -> Result<(Ledger, Vec<Counter>), NoMemory>
    requires of { IsOf cells one × IsOf cells two × (seats_of cells ≡ 2) }
    requires numbers { (seat_number one ≡ 0) × (seat_number two ≡ 1) }
    requires no_turns { NoTurns one × NoTurns two }
    ensures { IfOk result (λ values. length values.1.items ≡ row_of cells) }
{
    let mut seats = Vec::new(alloc);
    seats.push(one)?;
    seats.push(two)?;
    let Ok(values) = cells.close(alloc, seats) else {
        return Err(NoMemory);
    };
    Ok(values)
}

/// Each seat in a thread of its own.
fn work_both<R: Threads + Wait + Sync>(
    rt: &R,
    cells: &Tallies,
    one: Worker,
    two: Worker,
) -> (Worker, Worker)
    requires of { IsOf cells.now one × IsOf cells.now two × (0 < row_of cells.now) }
    requires first { NoTurns one × IsIdle (seat_number one) (seat_view one).seen (seat_view one) × IsUnused (seat_view one) }
    requires second { NoTurns two × IsIdle (seat_number two) (seat_view two).seen (seat_view two) × IsUnused (seat_view two) }
    ensures first { IsSameSeat one result.0 × NoTurns result.0 }
    ensures second { IsSameSeat two result.1 × NoTurns result.1 }
{
    join(
        rt,
        || -> Worker
            requires of { IsOf cells.now one × (0 < row_of cells.now) }
            requires idle { NoTurns one × IsIdle (seat_number one) (seat_view one).seen (seat_view one) }
            requires new { IsUnused (seat_view one) }
            ensures { IsSameSeat one result × NoTurns result }
        { work(rt, cells, one, 1000) },
        || -> Worker
            requires of { IsOf cells.now two × (0 < row_of cells.now) }
            requires idle { NoTurns two × IsIdle (seat_number two) (seat_view two).seen (seat_view two) }
            requires new { IsUnused (seat_view two) }
            ensures { IsSameSeat two result × NoTurns result }
        { work(rt, cells, two, 1000) },
    )
}

/// Gives a counter back as it was taken.
pub fn put_back(cells: &Tallies, seat: &mut Worker, index: u32, counter: Counter)
    requires of { IsOf cells.now seat.old × (index < row_of cells.now) }
    requires turn { HasCell seat.old index counter }
    requires idle { (seat_view seat.old).entry ≡ None }
    ensures seat { IsSameSeat seat.old seat.new }
    ensures turn { turns_of seat.new ≡ slice_set (turns_of seat.old) (suc index) None }
    ensures view { seat_view seat.new ≡ seat_view seat.old }
{
    cells.give(seat, index, counter);
}

/// The value of a counter, if its turn is free.
fn try_once(cells: &Tallies, seat: &mut Worker, index: u32) -> Result<u64, Busy>
    requires of { IsOf cells.now seat.old × (index < row_of cells.now) }
    requires idle { NoTurns seat.old × ((seat_view seat.old).entry ≡ None) }
    ensures seat { IsSameSeat seat.old seat.new × NoTurns seat.new × (seat_view seat.new ≡ seat_view seat.old) }
{
    match cells.try_take(seat, index) {
        Ok(counter) => {
            let value = counter.value;
            put_back(cells, seat, index, counter);
            Ok(value)
        }
        Err(busy) => Err(busy),
    }
}

/// What seat 1 finds at the counter of index 1 while seat 0 has it, and after that.
fn row<R: Wait>(
    rt: &R,
    cells: &Tallies,
    one: &mut Worker,
    two: &mut Worker,
) -> (Result<u64, Busy>, Result<u64, Busy>)
    requires of { IsOf cells.now one.old × IsOf cells.now two.old × (row_of cells.now ≡ 2) }
    requires first { NoTurns one.old × ((seat_view one.old).entry ≡ None) }
    requires second { NoTurns two.old × ((seat_view two.old).entry ≡ None) }
    ensures first { IsSameSeat one.old one.new × NoTurns one.new }
    ensures second { IsSameSeat two.old two.new × NoTurns two.new }
{
    let counter = cells.take(rt, one, 1);
    let during = try_once(cells, two, 1);
    put_back(cells, one, 1, counter);
    (during, try_once(cells, two, 1))
}

/// What seat 1 finds, and how many counters there are then.
fn found<R: Wait>(rt: &R, alloc: Global) -> Result<([Result<u64, Busy>; 2], usize), NoMemory> {
    let (cells, mut one, mut two) = made(alloc)?;
    let (during, after) = row(rt, &cells, &mut one, &mut two);
    let (_, values) = closed(alloc, cells, one, two)?;
    Ok(([during, after], values.len()))
}

#[test]
fn a_taken_cell_is_busy_until_it_is_given_back(rt: HostRuntime) -> Result<(), Fail> {
    let answers = [Err(Busy { seat_seen: 0 }), Ok(0)];
    see(&rt, &found(&rt, rt.alloc())?, &(answers, 2));
    Ok(())
}

#[test]
fn two_threads_count_a_thousand_times_each(rt: HostRuntime) -> Result<(), Fail> {
    let alloc = rt.alloc();
    let (cells, one, two) = made(alloc)?;
    let (one, two) = work_both(&rt, &cells, one, two);
    let (ledger, row) = closed(alloc, cells, one, two)?;
    see(&rt, &ledger.entries.as_slice().len(), &0);
    see_counters(&rt, row.as_slice());
    Ok(())
}

/// Sees that the first of two counters has counted two thousand times, and the second not once.
fn see_counters(rt: &impl Abort, row: &[Counter]) {
    let clock = Stamp {
        number: 0,
        count: 2000,
    };
    let counted = [
        (2000, 2000, clock),
        (
            0,
            0,
            Stamp {
                number: 0,
                count: 0,
            },
        ),
    ];
    see(rt, &row.len(), &2);
    for (counter, expected) in row.iter().zip(&counted) {
        let entries = counter.entries.as_slice().len();
        see(rt, &(counter.value, entries, counter.clock), expected);
    }
}
