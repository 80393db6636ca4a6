//! Conversations that one caller has with all passes of a device: what is told, and the journal that is left.

use crate::ending::{Ending, Row, end};
use crate::lines::Ask;
use crate::told::Told;
use crate::trouble::Trouble;
use crate::two_hosts::{BASE, FM, H0, H1, Line, M, SZ, TwoHosts};
use dcd_base::AccessFault;
use std::alloc::Global;
use std::process::Abort;
use std::sync::Wait;
use std::test::Fail;

/// The first line that is told something else, and what; and what is left.
type Outcome = (Option<(u32, Told)>, Ending);

/// Has a conversation with a fresh device, and takes it apart.
fn played_once<R: Abort + Wait>(
    rt: &R,
    alloc: Global,
    lines: &[Line],
    rows: &[Row],
) -> Result<Outcome, Trouble> {
    let mut device = TwoHosts::start(alloc)?;
    let wrong = device.play(rt, alloc, lines);
    let ending = end(rt, alloc, device, rows);
    Ok((wrong?, ending))
}

/// Sees that each line is told what it says, and that the journal has these entries and no others. Where memory is wanted for
/// anything but a call of the device, all is done anew.
fn see<R: Abort + Wait>(
    rt: &R,
    alloc: Global,
    lines: &[Line],
    rows: &[Row],
    counts: [u64; 4],
) -> Result<(), Fail> {
    let outcome = match played_once(rt, alloc, lines, rows) {
        Err(Trouble::NoMemory) => played_once(rt, alloc, lines, rows),
        outcome => outcome,
    };
    assert_eq!(rt; outcome, Ok((None, (None, counts))));
    Ok(())
}

const NOT_GRANTED: Told = Told::Refused(AccessFault::NotGranted);

/// A host gets a block, and stores and loads there, also by calls that wait for nobody. Then the other host loads from a shard
/// that no command has touched.
const USED: [Line; 8] = [
    (FM, Ask::Offer(0, 2, 1), Told::Success),
    (H0, Ask::Accept(2, 1), Told::Success),
    (H0, Ask::Load(2 * M), Told::Word(0)),
    (H0, Ask::Store(2 * M, 7), Told::Stored),
    (H0, Ask::Load(2 * M), Told::Word(7)),
    (H0, Ask::TryStore(2 * M, 8), Told::Stored),
    (H0, Ask::TryLoad(2 * M), Told::Word(8)),
    (H1, Ask::Load(BASE + M), NOT_GRANTED),
];

/// The load of the host that has seen no command stands before all.
const USED_LEFT: [Row; 8] = [
    (1, 8, NOT_GRANTED, (0, 1)),
    (2, 1, Told::Success, (1, 0)),
    (0, 2, Told::Success, (2, 0)),
    (0, 3, Told::Word(0), (2, 1)),
    (0, 4, Told::Stored, (2, 2)),
    (0, 5, Told::Word(7), (2, 3)),
    (0, 6, Told::Stored, (2, 4)),
    (0, 7, Told::Word(8), (2, 5)),
];

/// A host loses two blocks by force, which are of two shards.
const TAKEN: [Line; 7] = [
    (FM, Ask::Offer(0, 0, 2), Told::Success),
    (H0, Ask::Accept(0, 2), Told::Success),
    (H0, Ask::Load(0), Told::Word(0)),
    (H0, Ask::Load(M), Told::Word(0)),
    (FM, Ask::Take(0, 0, 2), Told::Success),
    (H0, Ask::Load(0), NOT_GRANTED),
    (H0, Ask::Load(M), NOT_GRANTED),
];

const TAKEN_LEFT: [Row; 7] = [
    (2, 1, Told::Success, (1, 0)),
    (0, 2, Told::Success, (2, 0)),
    (0, 3, Told::Word(0), (2, 1)),
    (0, 4, Told::Word(0), (2, 2)),
    (2, 5, Told::Success, (3, 0)),
    (0, 6, NOT_GRANTED, (3, 1)),
    (0, 7, NOT_GRANTED, (3, 2)),
];

/// Two hosts use one block, and a reference keeps it while no host has it. Then it is zeroed.
const TAGGED: [Line; 16] = [
    (FM, Ask::OfferTag, Told::Success),
    (H0, Ask::Accept(256, 1), Told::Success),
    (FM, Ask::ShareTag, Told::Success),
    (H1, Ask::Accept(512, 1), Told::Success),
    (H0, Ask::Store(BASE, 9), Told::Stored),
    (H1, Ask::Load(2 * BASE), Told::Word(9)),
    (FM, Ask::AddReference, Told::Success),
    (H0, Ask::Release(256, 1), Told::Success),
    (H1, Ask::Release(512, 1), Told::Success),
    (FM, Ask::ShareTag, Told::Success),
    (H1, Ask::Accept(512, 1), Told::Success),
    (H1, Ask::Load(2 * BASE), Told::Word(9)),
    (H1, Ask::Release(512, 1), Told::Success),
    (SZ, Ask::Scrub(16), Told::Scrubbed(0)),
    (FM, Ask::RemoveReference, Told::Success),
    (SZ, Ask::Scrub(16), Told::Scrubbed(1)),
];

const TAGGED_LEFT: [Row; 16] = [
    (2, 1, Told::Success, (1, 0)),
    (0, 2, Told::Success, (2, 0)),
    (2, 3, Told::Success, (3, 0)),
    (1, 4, Told::Success, (4, 0)),
    (0, 5, Told::Stored, (4, 1)),
    (1, 6, Told::Word(9), (4, 2)),
    (2, 7, Told::Success, (5, 0)),
    (0, 8, Told::Success, (6, 0)),
    (1, 9, Told::Success, (7, 0)),
    (2, 10, Told::Success, (8, 0)),
    (1, 11, Told::Success, (9, 0)),
    (1, 12, Told::Word(9), (9, 1)),
    (1, 13, Told::Success, (10, 0)),
    (3, 14, Told::Scrubbed(0), (11, 0)),
    (2, 15, Told::Success, (12, 0)),
    (3, 16, Told::Scrubbed(1), (13, 0)),
];

#[test]
fn one_caller_is_told_what_a_serial_device_tells(rt: HostRuntime) -> Result<(), Fail> {
    see(&rt, rt.alloc(), &USED, &USED_LEFT, [8, 2, 0, 1])?;
    see(&rt, rt.alloc(), &TAKEN, &TAKEN_LEFT, [7, 3, 2, 2])?;
    see(&rt, rt.alloc(), &TAGGED, &TAGGED_LEFT, [16, 13, 0, 1])
}
