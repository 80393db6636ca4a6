//! Which messages have a named line.

ghost use Rattle.fm_payloads.specs.ManagerPayloads.{manager_request};
ghost use Rattle.host_payloads.specs.HostPayloads.{host_request, is_untagged};
ghost use Rattle.std.specs.List.{list_all};
ghost use Rattle.std.specs.Prelude.{◌≡◌, IfOk, IfSome, IsTrue};
ghost use Rattle.text_lines.specs.Layouts.{has_host_form, has_manager_form, has_room_for as room_said, host_fits_line, host_named, manager_fits_line, manager_named};
ghost use Rattle.text_lines.specs.Lines.{host_message, manager_message};

use cci_codec::Request;
use dcd_base::{Bytes, Extent, NoMemory, is_no_tag};
use fm_payloads::FmRequest;
use host_payloads::{HostRequest, PayloadFault};
use std::alloc::Global;

/// Whether extents have no tag and no place in a shared allocation.
fn are_untagged(extents: &[Extent]) -> bool
    ensures { result ≡ list_all is_untagged extents.now }
{
    extents
        .iter()
        .all(|extent| is_no_tag(&extent.tag) && extent.sequence == 0)
}

/// Whether a line says all of these extents, at most so many.
fn has_room_for(most: usize, extents: &[Extent]) -> bool
    ensures { result ≡ room_said most extents.now }
{
    extents.len() <= most && are_untagged(extents)
}

/// Whether a line says the lists of the request.
fn host_fits(request: &HostRequest) -> bool
    ensures { result ≡ host_fits_line request.now }
{
    match request {
        HostRequest::ClearEvents { handles, .. } => handles.len() <= 255,
        HostRequest::AddResponse { extents, .. } => has_room_for(2729, extents.as_slice()),
        HostRequest::GiveBack { extents, .. } => has_room_for(2729, extents.as_slice()),
        _ => true,
    }
}

/// Whether a line says the lists of the request.
fn manager_fits(request: &FmRequest) -> bool
    ensures { result ≡ manager_fits_line request.now }
{
    match request {
        FmRequest::ClearEvents { handles, .. } => handles.len() <= 255,
        FmRequest::Add { extents, .. } => has_room_for(1637, extents.as_slice()),
        FmRequest::Remove { extents, .. } => has_room_for(1637, extents.as_slice()),
        _ => true,
    }
}

/// Whether the payload is the spelling of what a line says.
fn is_host_form(alloc: Global, request: &HostRequest, payload: &[u8]) -> Result<bool, NoMemory>
    ensures { IfOk result (λ same. same ≡ has_host_form request.now payload.now) }
{
    if !host_fits(request) {
        return Ok(false);
    }
    let mut spelled = Bytes::new(alloc);
    host_payloads::encode(request, &mut spelled)?;
    Ok(spelled.as_slice() == payload)
}

/// Whether the payload is the spelling of what a line says.
fn is_manager_form(alloc: Global, request: &FmRequest, payload: &[u8]) -> Result<bool, NoMemory>
    ensures { IfOk result (λ same. same ≡ has_manager_form request.now payload.now) }
{
    if !manager_fits(request) {
        return Ok(false);
    }
    let mut spelling = Bytes::new(alloc);
    fm_payloads::encode(request, &mut spelling)?;
    Ok(spelling.as_slice() == payload)
}

/// The request of a host that the named line of a message says, where it has one.
pub fn named_by_host(alloc: Global, message: &Request) -> Result<Option<HostRequest>, NoMemory>
    ensures value { IfOk result (λ named. named ≡ host_named message.now.payload (host_request message.now.opcode message.now.payload)) }
    ensures fits { IfOk result (λ named. IfSome named (λ request. IsTrue (host_fits_line request))) }
    ensures message { IfOk result (λ named. IfSome named (λ request. message.now ≡ host_message message.now.tag request)) }
{
    let payload = message.payload.as_slice();
    match host_payloads::decode(alloc, message.opcode, payload) {
        Ok(request) => {
            let named = is_host_form(alloc, &request, payload)?;
            Ok(if named { Some(request) } else { None })
        }
        Err(PayloadFault::NoMemory) => Err(NoMemory),
        Err(_) => Ok(None),
    }
}

/// The request of the manager that the named line of a message says, where it has one.
pub fn named_by_manager(alloc: Global, message: &Request) -> Result<Option<FmRequest>, NoMemory>
    ensures value { IfOk result (λ named. named ≡ manager_named message.now.payload (manager_request message.now.opcode message.now.payload)) }
    ensures fits { IfOk result (λ named. IfSome named (λ request. IsTrue (manager_fits_line request))) }
    ensures message { IfOk result (λ named. IfSome named (λ request. message.now ≡ manager_message message.now.tag request)) }
{
    let payload = message.payload.as_slice();
    match fm_payloads::decode(alloc, message.opcode, payload) {
        Ok(request) => {
            let named = is_manager_form(alloc, &request, payload)?;
            Ok(if named { Some(request) } else { None })
        }
        Err(PayloadFault::NoMemory) => Err(NoMemory),
        Err(_) => Ok(None),
    }
}
