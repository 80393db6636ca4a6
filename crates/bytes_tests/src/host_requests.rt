//! Requests of hosts, both ways.

ghost use Rattle.host_payloads.specs.HostPayloads.{HostCountsFit, lists_untagged};
ghost use Rattle.std.specs.Prelude.{◌↔◌, IsTrue};

use crate::seeing::{see, see_list, see_text};
use dcd_base::{Bytes, Extent, no_tag};
use host_payloads::{HostRequest, PayloadFault, decode, encode};
use std::alloc::Global;
use std::process::Abort;
use std::test::Fail;

fn counts_fit(request: &HostRequest) -> bool
    ensures { IsTrue result ↔ HostCountsFit request.now }
{
    match request {
        HostRequest::ClearEvents { handles, .. } => handles.len() <= 255,
        HostRequest::AddResponse { extents, .. } | HostRequest::GiveBack { extents, .. } =>
            extents.len() <= 65535,
        _ => true,
    }
}

/// The log, the flag and the handles of records to clear.
fn cleared(request: &HostRequest) -> Option<(u8, bool, &[u16])> {
    match request {
        HostRequest::ClearEvents { log, all, handles } => Some((*log, *all, handles.as_slice())),
        _other => None,
    }
}

/// The flag and the extents of a list.
fn listed(request: &HostRequest) -> Option<(bool, &[Extent])> {
    match request {
        HostRequest::AddResponse { more, extents } => Some((*more, extents.as_slice())),
        HostRequest::GiveBack { more, extents } => Some((*more, extents.as_slice())),
        _other => None,
    }
}

/// The payload of a request.
fn payload_of(alloc: Global, request: &HostRequest) -> Result<Bytes, Fail>
    requires { IsTrue (lists_untagged request.now) }
{
    if !counts_fit(request) {
        return Err("a count that fits no payload".into());
    }
    let mut out = Bytes::new(alloc);
    encode(request, &mut out)?;
    Ok(out)
}

/// Reads a payload as a request and sees that the request is written as this payload.
fn again(rt: &impl Abort, alloc: Global, opcode: u16, payload: &[u8]) -> Result<HostRequest, Fail> {
    let request = decode(alloc, opcode, payload)?;
    see_list(rt, payload_of(alloc, &request)?.as_slice(), payload);
    Ok(request)
}

/// Payloads of another length: the opcode, the bytes, and the lengths that are needed and there. The greatest count needs
/// a length that does not wrap.
static REFUSED: [(u16, &[u8], u64, u64); 3] = [
    (0x4801, &[0; 7], 8, 7),
    (0x4801, &[0; 9], 8, 9),
    (
        0x4802,
        &[255, 255, 255, 255, 0, 0, 0, 0],
        103_079_215_088,
        8,
    ),
];

/// The fault of a payload, if it is no request.
fn fault_of(alloc: Global, opcode: u16, payload: &[u8]) -> Option<PayloadFault> {
    decode(alloc, opcode, payload).err()
}

#[test]
fn each_payload_has_its_own_length(rt: HostRuntime) {
    for (opcode, payload, need, have) in &REFUSED {
        let fault = PayloadFault::WrongLength {
            need: *need,
            have: *have,
        };
        see(&rt, &fault_of(rt.alloc(), *opcode, *payload), &Some(fault));
    }
}

/// The opcode and the payload of a short request, and the request.
static SHORT: [(u16, &[u8], &str); 3] = [
    (0x0100, &[4], "GetEvents { log: 4 }"),
    (0x4800, &[8, 1], "GetConfiguration { count: 8, first: 1 }"),
    (
        0x4801,
        &[10, 0, 0, 0, 1, 2, 0, 0],
        "GetExtents { count: 10, first: 513 }",
    ),
];

/// Sees that a payload is read as this request, and that this is written as the payload.
fn see_short(
    rt: &impl Abort,
    alloc: Global,
    opcode: u16,
    payload: &[u8],
    expected: &str,
) -> Result<(), Fail> {
    let asked = again(rt, alloc, opcode, payload)?;
    let text = format!(in alloc; "{asked:?}")?;
    see_text(rt, text.as_str(), expected);
    Ok(())
}

#[test]
fn each_short_request_goes_both_ways(rt: HostRuntime) -> Result<(), Fail> {
    for (opcode, payload, expected) in &SHORT {
        see_short(&rt, rt.alloc(), *opcode, *payload, *expected)?;
    }
    Ok(())
}

#[test]
fn records_are_cleared_by_their_handles(rt: HostRuntime) -> Result<(), Fail> {
    let asked = again(&rt, rt.alloc(), 0x0101, &[4, 1, 2, 0, 0, 0, 7, 0, 8, 1])?;
    see(&rt, &cleared(&asked), &Some((4, true, &[7, 264])));
    Ok(())
}

/// A list of 1 MiB at 2 MiB, and no more.
const ONE_EXTENT: [u8; 32] = [
    1, 0, 0, 0, 0, 0, 0, 0, 0, 0, 32, 0, 0, 0, 0, 0, 0, 0, 16, 0, 0, 0, 0, 0, 0, 0, 0, 0, 0, 0, 0,
    0,
];

/// Sees that the request lists the extent without a tag.
fn see_listed(rt: &impl Abort, alloc: Global, opcode: u16) -> Result<(), Fail> {
    let asked = again(rt, alloc, opcode, &ONE_EXTENT)?;
    let extent = Extent {
        start: 0x20_0000,
        length: 0x10_0000,
        tag: no_tag(),
        sequence: 0,
    };
    see(rt, &listed(&asked), &Some((false, &[extent])));
    Ok(())
}

#[test]
fn a_listed_extent_has_no_tag(rt: HostRuntime) -> Result<(), Fail> {
    see_listed(&rt, rt.alloc(), 0x4802)?;
    see_listed(&rt, rt.alloc(), 0x4803)
}
