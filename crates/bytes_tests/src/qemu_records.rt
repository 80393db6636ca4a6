//! Event records that QEMU wrote.

use crate::qemu::{Difference, bytes_of, extent, see_beside};
use crate::seeing::see;
use dcd_base::{Bytes, NoMemory};
use event_records::{Event, EventKind, decode, encode};
use host_payloads::write_events;
use std::alloc::Global;
use std::process::Abort;
use std::test::Fail;

/// A record of QEMU: its handle and kind, whether it has More, its extent, and how many extents it tells as available.
#[derive(Clone, Copy)]
struct QemuRecord {
    lines: [&'static str; 4],
    handle: u16,
    kind: EventKind,
    more: bool,
    extent: (u64, u64),
    available: u32,
}

impl QemuRecord {
    /// The event, with these numbers of extents and tags available.
    fn event(&self, extents: u32, tags: u32) -> Event {
        Event {
            handle: self.handle,
            kind: self.kind,
            host: 0,
            region: 0,
            more: self.more,
            extent: extent(self.extent.0, self.extent.1),
            extents_available: extents,
            tags_available: tags,
        }
    }

    /// The bytes.
    fn record(&self) -> Result<[u8; 128], Fail> {
        let mut record = [0u8; 128];
        for i in 0..4 {
            hex::decode_to_slice(self.lines[i], &mut record[32 * i..32 * i + 32])?;
        }
        Ok(record)
    }
}

/// The record of one extent that is offered, of version 10.0.13.
const ADDED_10: QemuRecord = QemuRecord {
    lines: [
        "ca95afa7f18340188c2f95268e101a2a80010000010000000000000000000000",
        "0000000000000000000000000000000000000000000000000000001000000000",
        "0000800000000000000000000000000000000000000000000000000000000000",
        "0000000000000000000000000000000000000000000000000000000000000000",
    ],
    handle: 1,
    kind: EventKind::Add,
    more: false,
    extent: (0x1000_0000, 0x80_0000),
    available: 0,
};

/// The same of version 11.1.3.
const ADDED_11: QemuRecord = QemuRecord {
    lines: [
        "ca95afa7f18340188c2f95268e101a2a80010000010000000000000000000000",
        "0000000000000000000000000000000000010000000000000000001000000000",
        "0000800000000000000000000000000000000000000000000000000000000000",
        "000000000000000000000000000000000000000000000000ff01000000000000",
    ],
    handle: 1,
    kind: EventKind::Add,
    more: false,
    extent: (0x1000_0000, 0x80_0000),
    available: 511,
};

/// The record of a request to release that extent once it is accepted, of version 11.1.3.
const RELEASE_11: QemuRecord = QemuRecord {
    lines: [
        "ca95afa7f18340188c2f95268e101a2a80010000020000000000000000000000",
        "0000000000000000000000000000000001010000000000000000001000000000",
        "0000800000000000000000000000000000000000000000000000000000000000",
        "000000000000000000000000000000000000000000000000ff01000000000000",
    ],
    handle: 2,
    kind: EventKind::Release,
    more: false,
    extent: (0x1000_0000, 0x80_0000),
    available: 511,
};

/// The first record of two more extents that are offered then, of version 11.1.3.
const FIRST_OF_TWO_11: QemuRecord = QemuRecord {
    lines: [
        "ca95afa7f18340188c2f95268e101a2a80010000030000000000000000000000",
        "0000000000000000000000000000000000010000000100000000001100000000",
        "0000400000000000000000000000000000000000000000000000000000000000",
        "000000000000000000000000000000000000000000000000fd01000000000000",
    ],
    handle: 3,
    kind: EventKind::Add,
    more: true,
    extent: (0x1100_0000, 0x40_0000),
    available: 509,
};

/// Records with the number of extents that are available here after the same steps, and how they differ: in a severity
/// among the flags (17), in which counts are valid (49), and in the counts (120 to 127).
static RECORDS: [(QemuRecord, u32, &[Difference]); 4] = [
    (
        ADDED_10,
        63,
        &[(17, 0, 1), (49, 3, 0), (120, 63, 0), (124, 32, 0)],
    ),
    (
        ADDED_11,
        63,
        &[
            (17, 0, 1),
            (49, 3, 1),
            (120, 63, 255),
            (121, 0, 1),
            (124, 32, 0),
        ],
    ),
    (
        RELEASE_11,
        63,
        &[
            (17, 0, 1),
            (49, 3, 1),
            (120, 63, 255),
            (121, 0, 1),
            (124, 32, 0),
        ],
    ),
    (
        FIRST_OF_TWO_11,
        61,
        &[
            (17, 0, 1),
            (49, 3, 1),
            (120, 61, 253),
            (121, 0, 1),
            (124, 32, 0),
        ],
    ),
];

/// Sees what is read of a record, and how it stands beside the one that is written here.
fn see_record(
    rt: &impl Abort,
    alloc: Global,
    told: &QemuRecord,
    here: u32,
    differ: &[Difference],
) -> Result<(), Fail> {
    let there = told.record()?;
    see(rt, &decode(&there), &Ok(told.event(told.available, 0)));
    let ours = encode(&told.event(here, 32));
    see_beside(rt, alloc, &ours, &there, differ)
}

#[test]
fn records_are_read_and_stand_beside_ours(rt: HostRuntime) -> Result<(), Fail> {
    for (told, here, differ) in &RECORDS {
        see_record(&rt, rt.alloc(), told, *here, *differ)?;
    }
    Ok(())
}

/// The first 32 bytes of a reply of one record.
const REPLY_HEAD: &str = "0200000000000000000000000000000000000000010000000000000000000000";

/// Replies to 0100h: the one record, and how the reply differs: in flags bit 1, which is set here where the log has more
/// records than follow, and in its record.
static REPLIES: [(QemuRecord, &[Difference]); 2] = [
    (
        ADDED_10,
        &[
            (0, 0, 2),
            (49, 0, 1),
            (81, 3, 0),
            (152, 63, 0),
            (156, 32, 0),
        ],
    ),
    (
        ADDED_11,
        &[
            (0, 0, 2),
            (49, 0, 1),
            (81, 3, 1),
            (152, 63, 255),
            (153, 0, 1),
            (156, 32, 0),
        ],
    ),
];

/// The reply of QEMU of one record.
fn reply_there(alloc: Global, told: &QemuRecord) -> Result<Bytes, Fail> {
    let mut there = bytes_of(alloc, &[REPLY_HEAD])?;
    there.extend_from_slice(&told.record()?)?;
    Ok(there)
}

/// The reply that is written here.
fn reply_here(alloc: Global, told: &QemuRecord) -> Result<Bytes, NoMemory> {
    let mut here = Bytes::new(alloc);
    write_events(0, false, &[told.event(63, 32)], &mut here)?;
    Ok(here)
}

/// Sees how both replies differ.
fn see_reply(
    rt: &impl Abort,
    alloc: Global,
    told: &QemuRecord,
    differ: &[Difference],
) -> Result<(), Fail> {
    let there = reply_there(alloc, told)?;
    let here = reply_here(alloc, told)?;
    see_beside(rt, alloc, here.as_slice(), there.as_slice(), differ)
}

#[test]
fn replies_of_records_stand_beside_ours(rt: HostRuntime) -> Result<(), Fail> {
    for (told, differ) in &REPLIES {
        see_reply(&rt, rt.alloc(), told, *differ)?;
    }
    Ok(())
}
