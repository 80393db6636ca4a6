//! From a request of a host to its payload.

ghost use Rattle.event_records.specs.dcd_base.specs.Layouts.{FitsField, spelling};
ghost use Rattle.host_payloads.specs.HostPayloads.{HostCountsFit, host_fields, host_opcode, host_request, list_fields, list_head, lists_untagged};
ghost use Rattle.std.specs.List.{AllByRecursion};
ghost use Rattle.std.specs.Prelude.{◌≡◌, ◌+◌, ◌*◌, ◌++◌, ◌<◌, ◌≤◌, ◌^◌, IfOk, IsTrue, Ok, OnErr, OnOk, length, take};

use crate::list_writing::put_all_listed;
use crate::requests::HostRequest;
use event_records::dcd_base::{
    Bytes, Extent, NoMemory, clear_payload, page_request, put_flag, put_u32, put_zeros, zeros,
};
use std::alloc::Global;

/// Puts what stands before the extents of a list at the start: how many they are, and More.
#[tactic(auto, unfolding(crate::specs::HostPayloads::list_head))]
fn put_list_head(out: &mut [u8], count: u32, more: bool)
    requires { 8 ≤ length out.old }
    ensures { take 8 out.new ≡ list_head count more }
{
    put_u32(out, 0, count);
    put_flag(out, 4, more);
    put_zeros::<3>(out, 5);
}

/// Fills the payload of a list of extents without tags.
fn fill_list(out: &mut [u8], more: bool, extents: &[Extent])
    requires few { length extents.now < 2 ^ 32 }
    requires whole { length out.old ≡ 8 + 24 * length extents.now }
    ensures spelled { out.new ≡ spelling (list_fields more extents.now) }
    ensures fits { AllByRecursion FitsField (list_fields more extents.now) }
{
    put_list_head(out, extents.len() as u32, more);
    put_all_listed(out, 8, extents);
}

/// The payload of a list of extents without tags.
fn list_payload(alloc: Global, more: bool, extents: &[Extent]) -> Result<Bytes, NoMemory>
    requires { length extents.now < 2 ^ 32 }
    ensures spelled { IfOk result (λ bytes. bytes ≡ spelling (list_fields more extents.now)) }
    ensures fits { OnOk result (AllByRecursion FitsField (list_fields more extents.now)) }
{
    let mut payload = zeros(alloc, 8 + 24 * extents.len())?;
    fill_list(&mut payload, more, extents);
    Ok(Bytes::from_vec(alloc, payload))
}

fn payload_of(alloc: Global, request: &HostRequest) -> Result<Bytes, NoMemory>
    requires { HostCountsFit request.now }
    ensures spelled { IfOk result (λ bytes. bytes ≡ spelling (host_fields request.now)) }
    ensures fits { OnOk result (AllByRecursion FitsField (host_fields request.now)) }
{
    match request {
        HostRequest::GetEvents { log } => Bytes::from_slice(alloc, &[*log]),
        HostRequest::ClearEvents { log, all, handles } => {
            clear_payload(alloc, *log, *all, handles.as_slice())
        }
        HostRequest::GetConfiguration { count, first } => Bytes::from_slice(
            alloc,
            &[*count, *first],
        ),
        HostRequest::GetExtents { count, first } => page_request(alloc, *count, *first),
        HostRequest::AddResponse { more, extents } => list_payload(
            alloc,
            *more,
            extents.as_slice(),
        ),
        HostRequest::GiveBack { more, extents } => list_payload(alloc, *more, extents.as_slice()),
    }
}

/// Appends the payload that decodes to the request.
///
/// The request has at most 255 handles and at most 65,535 extents, and its extents have neither a tag nor a
/// sequence number. Reserved bytes and bits are written as 0. Without memory `out` is as it was.
pub fn encode(request: &HostRequest, out: &mut Bytes) -> Result<(), NoMemory>
    requires counts { HostCountsFit request.now }
    requires untagged { IsTrue (lists_untagged request.now) }
    ensures appended { OnOk result (out.new ≡ out.old ++ spelling (host_fields request.now)) }
    ensures kept { OnErr result (out.new ≡ out.old) }
    // What was appended is read as the request.
    ensures again { OnOk result
        (host_request (host_opcode request.now) (spelling (host_fields request.now)) ≡ Ok request.now) }
{
    let payload = payload_of(out.allocator(), request)?;
    out.append(payload)
}
