//! Two hosts beside each other, each on a thread of its own.

ghost use Rattle.script_runner.specs.shared_device.specs.Passing.{IsOneOf, IsSamePass};
ghost use Rattle.threads_tests.specs.Hosting.{AreByNumber, hosts_at};
ghost use Rattle.std.specs.Prelude.{◌≡◌};

use crate::asking::ask;
use crate::ending::{Ending, Row, end};
use crate::flags::Flags;
use crate::lines::Ask;
use crate::told::Told;
use crate::trouble::Trouble;
use crate::two_hosts::{BASE, FM, H0, H1, Line, M, TwoHosts};
use dcd_base::{AccessFault, NoGate};
use journal_core::Act;
use script_runner::shared_device::{Pass, Shared};
use std::alloc::Global;
use std::process::Abort;
use std::sync::Wait;
use std::sync::atomic::Ordering;
use std::test::Fail;
use std::thread::{Threads, for_each_mut};

/// What the hosts do beside each other.
#[derive(Clone, Copy)]
enum Work {
    /// Each stores numbers at its word and loads them.
    Apart,
    /// Host 1 tries while host 0 has the turn of shard 0.
    Busy,
}

/// How many numbers each host stores.
const NUMBERS: u64 = 1000;

/// Stores a number and loads it again: whether it was stored and that number was loaded.
#[tactic(auto, using(crate::proofs::Passes::same_again))]
fn store_and_load<R: Wait>(rt: &R, shared: &Shared, pass: &mut Pass, dpa: u64, number: u64) -> bool
    requires of { IsOneOf shared.now pass.old }
    requires hosts { hosts_at shared.now ≡ 2 }
    ensures same { IsSamePass shared.now pass.old pass.new }
{
    let stored = ask(rt, shared, pass, 5, &Act::Store(dpa, number), Some(&NoGate));
    let loaded = ask(rt, shared, pass, 6, &Act::Load(dpa), Some(&NoGate));
    stored == Ok(Told::Stored) && loaded == Ok(Told::Word(number))
}

/// Stores and loads each number from 1 on.
#[tactic(auto, using(crate::proofs::Passes::same_again, crate::proofs::Passes::same_itself))]
fn use_word<R: Wait>(rt: &R, shared: &Shared, pass: &mut Pass, dpa: u64, flags: &Flags)
    requires of { IsOneOf shared.now pass.old }
    requires hosts { hosts_at shared.now ≡ 2 }
    ensures same { IsSamePass shared.now pass.old pass.new }
{
    for k in 0..NUMBERS {
        flags.count(store_and_load(rt, shared, pass, dpa, k + 1));
    }
}

/// A load of shard 0 that keeps its turn until the tries beside it are done.
fn load_slowly<R: Wait>(rt: &R, shared: &Shared, pass: &mut Pass, flags: &Flags)
    requires of { IsOneOf shared.now pass.old }
    requires hosts { hosts_at shared.now ≡ 2 }
    ensures same { IsSamePass shared.now pass.old pass.new }
{
    let told = ask(rt, shared, pass, 1, &Act::Load(0), Some(flags));
    flags.count(told == Ok(NOT_GRANTED));
}

/// A load, or a store of a value, at an address; and what it is told.
type Try = (u64, Option<u64>, Told);

/// What host 1 tries while the turn of shard 0 is that of pass 0: a load and a store there, two at addresses that have no place
/// and so are of shard 0, and a load of shard 1.
const TRIES: [Try; 5] = [
    (BASE, None, Told::Busy(0)),
    (BASE, Some(7), Told::Busy(0)),
    (BASE + 1, None, Told::Busy(0)),
    (0, Some(7), Told::Busy(0)),
    (BASE + M, None, NOT_GRANTED),
];

fn is_told<R: Wait>(rt: &R, shared: &Shared, pass: &mut Pass, what: &Try) -> bool
    requires of { IsOneOf shared.now pass.old }
    requires hosts { hosts_at shared.now ≡ 2 }
    ensures same { IsSamePass shared.now pass.old pass.new }
{
    let (dpa, value, expected) = *what;
    let act = match value {
        None => Act::Load(dpa),
        Some(value) => Act::Store(dpa, value),
    };
    let nobody: Option<&NoGate> = None;
    ask(rt, shared, pass, 2, &act, nobody) == Ok(expected)
}

/// Tries once that load has its turn.
#[tactic(auto, using(crate::proofs::Passes::same_again, crate::proofs::Passes::same_itself))]
fn try_beside<R: Wait>(rt: &R, shared: &Shared, pass: &mut Pass, flags: &Flags)
    requires of { IsOneOf shared.now pass.old }
    requires hosts { hosts_at shared.now ≡ 2 }
    ensures same { IsSamePass shared.now pass.old pass.new }
{
    flags.await_one(&flags.begun);
    for what in TRIES.iter() {
        flags.count(is_told(rt, shared, pass, what));
    }
    flags.tried.store(true, Ordering::SeqCst);
}

/// The part of the pass with this number.
#[tactic(auto, using(crate::proofs::Passes::same_itself))]
fn part<R: Wait>(rt: &R, shared: &Shared, pass: &mut Pass, number: usize, work: Work, flags: &Flags)
    requires of { IsOneOf shared.now pass.old }
    requires hosts { hosts_at shared.now ≡ 2 }
    ensures same { IsSamePass shared.now pass.old pass.new }
{
    match (work, number) {
        (Work::Apart, H0) => use_word(rt, shared, pass, 0, flags),
        (Work::Apart, H1) => use_word(rt, shared, pass, BASE + M, flags),
        (Work::Busy, H0) => load_slowly(rt, shared, pass, flags),
        (Work::Busy, H1) => try_beside(rt, shared, pass, flags),
        _ => {}
    }
}

/// Each pass does its part on a thread of its own.
fn each_part<R: Threads + Wait + Sync>(
    rt: &R,
    shared: &Shared,
    passes: &mut [Pass],
    work: Work,
    flags: &Flags,
)
    requires all { AreByNumber shared.now passes.old }
    requires hosts { hosts_at shared.now ≡ 2 }
    ensures all { AreByNumber shared.now passes.new }
{
    for_each_mut(
        rt,
        passes,
        4,
        &|number: usize, pass: &mut Pass|
            requires { IsOneOf shared.now pass.now × (hosts_at shared.now ≡ 2) }
            ensures { IsSamePass shared.entry.now pass.entry.now pass.exit.now }
        { part(rt, shared, pass, number, work, flags) },
    );
}

impl TwoHosts {
    /// Each host does its part beside the other.
    fn beside<R: Threads + Wait + Sync>(&mut self, rt: &R, work: Work, flags: &Flags) {
        each_part(rt, &self.shared, self.passes.as_mut_slice(), work, flags);
    }
}

/// The first line before and after that is told something else, and what; how many answers beside each other were right, and
/// whether a thread waited too long; and what is left.
type Outcome = ([Option<(u32, Told)>; 2], (u32, bool), Ending);

/// What a conversation, the parts beside each other and a second conversation come to.
fn worked_once<R: Threads + Wait + Abort + Sync>(
    rt: &R,
    alloc: Global,
    work: Work,
    lines: [&[Line]; 2],
    rows: &[Row],
) -> Result<Outcome, Trouble> {
    let flags = Flags::new();
    let mut device = TwoHosts::start(alloc)?;
    let before = device.play(rt, alloc, lines[0]);
    device.beside(rt, work, &flags);
    let after = device.play(rt, alloc, lines[1]);
    let ending = end(rt, alloc, device, rows);
    Ok(([before?, after?], flags.found(), ending))
}

/// The same, and anew where memory was wanted for anything but a call of the device.
fn worked<R: Threads + Wait + Abort + Sync>(
    rt: &R,
    alloc: Global,
    work: Work,
    lines: [&[Line]; 2],
    rows: &[Row],
) -> Result<Outcome, Trouble> {
    match worked_once(rt, alloc, work, lines, rows) {
        Err(Trouble::NoMemory) => worked_once(rt, alloc, work, lines, rows),
        outcome => outcome,
    }
}

/// Each host gets a block: host 0 that of shard 0, and host 1 that of shard 1.
const GIVEN: [Line; 4] = [
    (FM, Ask::Offer(0, 0, 1), Told::Success),
    (FM, Ask::Offer(1, 257, 1), Told::Success),
    (H0, Ask::Accept(0, 1), Told::Success),
    (H1, Ask::Accept(257, 1), Told::Success),
];

/// The first entries that are left: those of the commands that host 0 has seen, and its first store.
const GIVEN_LEFT: [Row; 4] = [
    (2, 1, Told::Success, (1, 0)),
    (2, 2, Told::Success, (2, 0)),
    (0, 3, Told::Success, (3, 0)),
    (0, 5, Told::Stored, (3, 1)),
];

#[test]
fn two_hosts_beside_each_other_load_what_they_stored(rt: HostRuntime) -> Result<(), Fail> {
    let outcome = worked(&rt, rt.alloc(), Work::Apart, [&GIVEN, &[]], &GIVEN_LEFT);
    let left = (None, [4004, 4, 0, 1]);
    assert_eq!(rt; outcome, Ok(([None, None], (2000, false), left)));
    Ok(())
}

const NOT_GRANTED: Told = Told::Refused(AccessFault::NotGranted);

const MISALIGNED: Told = Told::Refused(AccessFault::Misaligned);

const OUTSIDE: Told = Told::Refused(AccessFault::OutsideRegions);

/// The same tries, once no pass has the turn.
const AFTER: [Line; 5] = [
    (H1, Ask::TryLoad(BASE), NOT_GRANTED),
    (H1, Ask::TryStore(BASE, 7), NOT_GRANTED),
    (H1, Ask::TryLoad(BASE + 1), MISALIGNED),
    (H1, Ask::TryStore(0, 7), OUTSIDE),
    (H1, Ask::TryLoad(BASE + M), NOT_GRANTED),
];

/// The load of host 0, the try of host 1 that was not busy, and the five after it.
const AFTER_LEFT: [Row; 7] = [
    (0, 1, NOT_GRANTED, (0, 1)),
    (1, 2, NOT_GRANTED, (0, 1)),
    (1, 1, NOT_GRANTED, (0, 2)),
    (1, 2, NOT_GRANTED, (0, 3)),
    (1, 3, MISALIGNED, (0, 4)),
    (1, 4, OUTSIDE, (0, 5)),
    (1, 5, NOT_GRANTED, (0, 6)),
];

#[test]
fn a_try_beside_a_load_is_busy_at_its_shard_alone(rt: HostRuntime) -> Result<(), Fail> {
    let outcome = worked(&rt, rt.alloc(), Work::Busy, [&[], &AFTER], &AFTER_LEFT);
    let left = (None, [7, 0, 0, 0]);
    assert_eq!(rt; outcome, Ok(([None, None], (6, false), left)));
    Ok(())
}
