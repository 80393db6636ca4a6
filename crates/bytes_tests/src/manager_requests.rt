//! Requests of the Fabric Manager, both ways.

ghost use Rattle.fm_payloads.specs.ManagerPayloads.{ManagerCountsFit};
ghost use Rattle.std.specs.Prelude.{◌↔◌, IsTrue};

use crate::seeing::{see, see_list, see_text};
use dcd_base::{Bytes, Extent, Tag};
use fm_payloads::{FmRequest, decode, encode};
use std::alloc::Global;
use std::process::Abort;
use std::test::Fail;

const TAG_BYTES: [u8; 16] = [1, 2, 3, 4, 5, 6, 7, 8, 9, 10, 11, 12, 13, 14, 15, 16];

const TAG: Tag = Tag(TAG_BYTES);

fn counts_fit(request: &FmRequest) -> bool
    ensures { IsTrue result ↔ ManagerCountsFit request.now }
{
    match request {
        FmRequest::ClearEvents { handles, .. } => handles.len() <= 255,
        FmRequest::Add { extents, .. } | FmRequest::Remove { extents, .. } => extents.len()
            <= 65535,
        _ => true,
    }
}

/// The tag and the extents of an add of one KiB by policy 2, or of a forced prescriptive release, in region 1 of
/// host 258.
fn placed(request: &FmRequest) -> Option<(Tag, &[Extent])> {
    match request {
        FmRequest::Add {
            host: 258,
            policy: 2,
            region: 1,
            length: 1024,
            tag,
            extents,
        } => Some((*tag, extents.as_slice())),
        FmRequest::Remove {
            host: 258,
            flags: 0x11,
            region: 1,
            length: 1024,
            tag,
            extents,
        } => Some((*tag, extents.as_slice())),
        _other => None,
    }
}

/// The payload of a request.
fn payload_of(alloc: Global, request: &FmRequest) -> Result<Bytes, Fail> {
    if !counts_fit(request) {
        return Err("a count that fits no payload".into());
    }
    let mut out = Bytes::new(alloc);
    encode(request, &mut out)?;
    Ok(out)
}

/// Reads a payload as a request and sees that the request is written as this payload.
fn again(rt: &impl Abort, alloc: Global, opcode: u16, payload: &[u8]) -> Result<FmRequest, Fail> {
    let request = decode(alloc, opcode, payload)?;
    see_list(rt, payload_of(alloc, &request)?.as_slice(), payload);
    Ok(request)
}

/// The opcode and the payload of a short request, and the request.
static SHORT: [(u16, &[u8], &str); 8] = [
    (0x0100, &[4], "GetEvents { log: 4 }"),
    (0x5600, &[], "GetInfo"),
    (
        0x5601,
        &[2, 1, 8, 3],
        "GetRegions { host: 258, count: 8, first: 3 }",
    ),
    (
        0x5602,
        &[1, 0, 0, 0, 0, 0, 32, 0, 0, 0, 0, 0, 1, 0, 0, 0],
        "SetRegion { region: 1, sanitize: true, block: 2097152 }",
    ),
    (
        0x5603,
        &[2, 1, 0, 0, 5, 0, 0, 0, 6, 0, 0, 0],
        "GetExtentLists { host: 258, count: 5, first: 6 }",
    ),
    (
        0x5606,
        &TAG_BYTES,
        "AddReference { tag: Tag([1, 2, 3, 4, 5, 6, 7, 8, 9, 10, 11, 12, 13, 14, 15, 16]) }",
    ),
    (
        0x5607,
        &TAG_BYTES,
        "RemoveReference { tag: Tag([1, 2, 3, 4, 5, 6, 7, 8, 9, 10, 11, 12, 13, 14, 15, 16]) }",
    ),
    (
        0x5608,
        &[1, 0, 0, 0, 5, 0, 0, 0],
        "ListTags { first: 1, count: 5 }",
    ),
];

/// Sees that a payload is read as this request, and that this is written as the payload.
fn see_short(
    rt: &impl Abort,
    alloc: Global,
    opcode: u16,
    payload: &[u8],
    expected: &str,
) -> Result<(), Fail> {
    let asked = again(rt, alloc, opcode, payload)?;
    let text = format!(in alloc; "{asked:?}")?;
    see_text(rt, text.as_str(), expected);
    Ok(())
}

#[test]
fn each_short_request_goes_both_ways(rt: HostRuntime) -> Result<(), Fail> {
    for (opcode, payload, expected) in &SHORT {
        see_short(&rt, rt.alloc(), *opcode, *payload, *expected)?;
    }
    Ok(())
}

/// 1 KiB in region 1 of host 258: one extent of 258 bytes at 16 TiB.
const PLACING: [u8; 72] = [
    2, 1, 2, 1, 0, 4, 0, 0, 0, 0, 0, 0, // host, policy, region and length
    1, 2, 3, 4, 5, 6, 7, 8, 9, 10, 11, 12, 13, 14, 15, 16, // tag
    1, 0, 0, 0, // one extent
    0, 0, 0, 0, 0, 16, 0, 0, 2, 1, 0, 0, 0, 0, 0, 0, // its start and its length
    1, 2, 3, 4, 5, 6, 7, 8, 9, 10, 11, 12, 13, 14, 15, 16, // its tag
    3, 1, 0, 0, 0, 0, 0, 0, // its sequence
];

/// The extent of this payload.
const EXTENT: Extent = Extent {
    start: 0x1000_0000_0000,
    length: 258,
    tag: TAG,
    sequence: 259,
};

/// Sees what is placed by the opcode, where this is the policy or these are the flags.
fn see_placed(rt: &impl Abort, alloc: Global, opcode: u16, choice: u8) -> Result<(), Fail> {
    let mut payload = PLACING;
    payload[2] = choice;
    let asked = again(rt, alloc, opcode, &payload)?;
    see(rt, &placed(&asked), &Some((TAG, &[EXTENT])));
    Ok(())
}

#[test]
fn extents_are_placed_with_their_tags(rt: HostRuntime) -> Result<(), Fail> {
    see_placed(&rt, rt.alloc(), 0x5604, 2)?;
    see_placed(&rt, rt.alloc(), 0x5605, 0x11)
}
