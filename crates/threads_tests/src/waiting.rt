//! A wait sleeps: a thread that waits for a cell takes no time on the processor.
ghost use Rattle.std.specs.Prelude.{◌≡◌, None};
ghost use Rattle.script_runner.specs.shared_device.specs.ruled_cells.specs.Calls.{IsOf, row_of};
ghost use Rattle.script_runner.specs.shared_device.specs.ruled_cells.specs.Seats.{IsSameSeat, NoTurns, seat_view};

use crate::runs::{Tallies, Worker, closed, made, put_back};
use crate::seeing::see;
use dcd_base::NoMemory;
use std::alloc::Global;
use std::fs;
use std::sync::Wait;
use std::test::*;
use std::thread::{Threads, join, sleep};
use std::time::{Clock, Duration, Instant};

/// Sleeps, takes the counter of index 1, sleeps again and gives it back.
fn keep<R: Wait + Clock>(
    rt: &R,
    cells: &Tallies,
    mut seat: Worker,
    before: Duration,
    during: Duration,
) -> Worker
    requires of { IsOf cells.now seat × (row_of cells.now ≡ 2) }
    requires idle { NoTurns seat × ((seat_view seat).entry ≡ None) }
    ensures { IsSameSeat seat result × NoTurns result }
{
    sleep(rt, before);
    let counter = cells.take(rt, &mut seat, 1);
    sleep(rt, during);
    put_back(cells, &mut seat, 1, counter);
    seat
}

/// Seat 0 keeps the counter for half a second, and seat 1 wants it meanwhile.
fn keep_both<R: Threads + Wait + Clock + Sync>(
    rt: &R,
    cells: &Tallies,
    one: Worker,
    two: Worker,
) -> (Worker, Worker)
    requires of { IsOf cells.now one × IsOf cells.now two × (row_of cells.now ≡ 2) }
    requires first { NoTurns one × ((seat_view one).entry ≡ None) }
    requires second { NoTurns two × ((seat_view two).entry ≡ None) }
    ensures first { IsSameSeat one result.0 × NoTurns result.0 }
    ensures second { IsSameSeat two result.1 × NoTurns result.1 }
{
    let none = Duration::from_millis(0);
    let half = Duration::from_millis(500);
    let soon = Duration::from_millis(50);
    join(
        rt,
        || -> Worker
            requires of { IsOf cells.now one × (row_of cells.now ≡ 2) }
            requires idle { NoTurns one × ((seat_view one).entry ≡ None) }
            ensures { IsSameSeat one result × NoTurns result }
        { keep(rt, cells, one, none, half) },
        || -> Worker
            requires of { IsOf cells.now two × (row_of cells.now ≡ 2) }
            requires idle { NoTurns two × ((seat_view two).entry ≡ None) }
            ensures { IsSameSeat two result × NoTurns result }
        { keep(rt, cells, two, soon, none) },
    )
}

/// The time on the processors so far, in hundredths of a second, that the text of a process's `stat` tells.
fn time_in(stat: &str) -> Option<u64> {
    let (_, words) = stat.rsplit_once(')')?;
    let mut times = words.split_whitespace().skip(11);
    let user: u64 = times.next()?.parse().ok()?;
    let system: u64 = times.next()?.parse().ok()?;
    Some(user.saturating_add(system))
}

/// The time of the process on the processors so far, in hundredths of a second.
fn processor_time(rt: &HostRuntime) -> Result<u64, Fail> {
    let stat = fs::read_to_string(rt, "/proc/self/stat")?;
    Ok(time_in(stat.as_str()).ok_or("no time")?)
}

/// How many counters are left once both seats wanted the one of index 1.
fn kept_by_both<R: Threads + Wait + Clock + Sync>(
    rt: &R,
    alloc: Global,
) -> Result<usize, NoMemory> {
    let (cells, one, two) = made(alloc)?;
    let (one, two) = keep_both(rt, &cells, one, two);
    let (_, row) = closed(alloc, cells, one, two)?;
    Ok(row.len())
}

#[test]
fn a_wait_for_a_cell_sleeps(rt: HostRuntime) -> Result<(), Fail> {
    let (start, before) = (Instant::now(&rt)?, processor_time(&rt)?);
    let counters = kept_by_both(&rt, rt.alloc())?;
    let (took, after) = (start.elapsed(&rt)?, processor_time(&rt)?);
    see(&rt, &counters, &2);
    see(&rt, &(took >= Duration::from_millis(500)), &true);
    see(&rt, &(after.saturating_sub(before) < 10), &true);
    Ok(())
}
