//! From a payload to the request of a host.

ghost use Rattle.host_payloads.specs.HostPayloads.{IsHostRequest, clear_asked, configuration_asked, events_asked, extents_asked, host_request, listed_in};
ghost use Rattle.event_records.specs.dcd_base.specs.Payloads.{Gives};
ghost use Rattle.host_payloads.specs.declared.requests.HostRequest.{HostRequest};
ghost use Rattle.std.specs.Prelude.{IfOk};

use crate::counted::list_length;
use crate::list_reading::listed_of;
use crate::requests::HostRequest;
use event_records::dcd_base::{
    Extents, PayloadFault, clear_length, expect_length, flag_at, handles_of, u32_at,
};
use std::alloc::Global;

#[tactic(auto, unfolding(crate::specs::HostPayloads::events_asked))]
fn get_events(payload: &[u8]) -> Result<HostRequest, PayloadFault>
    ensures { Gives result (events_asked payload.now) }
{
    expect_length(payload, 1)?;
    Ok(HostRequest::GetEvents { log: payload[0] })
}

#[tactic(auto, unfolding(crate::specs::HostPayloads::clear_asked))]
fn clear_events(alloc: Global, payload: &[u8]) -> Result<HostRequest, PayloadFault>
    ensures { Gives result (clear_asked payload.now) }
{
    expect_length(payload, clear_length(payload))?;
    let (_, rest) = payload.split_at(6);
    let handles = handles_of(alloc, payload[2] as usize, rest)?;
    Ok(HostRequest::ClearEvents {
        log: payload[0],
        all: flag_at(payload, 1),
        handles,
    })
}

#[tactic(auto, unfolding(crate::specs::HostPayloads::configuration_asked))]
fn get_configuration(payload: &[u8]) -> Result<HostRequest, PayloadFault>
    ensures { Gives result (configuration_asked payload.now) }
{
    expect_length(payload, 2)?;
    Ok(HostRequest::GetConfiguration {
        count: payload[0],
        first: payload[1],
    })
}

#[tactic(auto, unfolding(crate::specs::HostPayloads::extents_asked))]
fn get_extents(payload: &[u8]) -> Result<HostRequest, PayloadFault>
    ensures { Gives result (extents_asked payload.now) }
{
    expect_length(payload, 8)?;
    Ok(HostRequest::GetExtents {
        count: u32_at(payload, 0),
        first: u32_at(payload, 4),
    })
}

/// Whether More stands, and the extents of a payload that lists them without tags.
#[tactic(auto, unfolding(crate::specs::HostPayloads::listed_in))]
fn listed(alloc: Global, payload: &[u8]) -> Result<(bool, Extents), PayloadFault>
    ensures { Gives result (listed_in payload.now) }
{
    expect_length(payload, list_length(payload))?;
    let (_, rest) = payload.split_at(8);
    let extents = listed_of(alloc, rest.len() / 24, rest)?;
    Ok((flag_at(payload, 4), extents))
}

#[tactic(auto, unfolding(crate::specs::HostPayloads::host_request))]
fn request_of(alloc: Global, opcode: u16, payload: &[u8]) -> Result<HostRequest, PayloadFault>
    ensures { Gives result (host_request opcode payload.now) }
{
    match opcode {
        0x0100 => get_events(payload),
        0x0101 => clear_events(alloc, payload),
        0x4800 => get_configuration(payload),
        0x4801 => get_extents(payload),
        0x4802 => {
            let (more, extents) = listed(alloc, payload)?;
            Ok(HostRequest::AddResponse { more, extents })
        }
        0x4803 => {
            let (more, extents) = listed(alloc, payload)?;
            Ok(HostRequest::GiveBack { more, extents })
        }
        _ => Err(PayloadFault::UnknownOpcode(opcode)),
    }
}

/// The request that a payload is under an opcode.
///
/// `UnknownOpcode` exactly where the opcode is none of 0100h, 0101h, 4800h, 4801h, 4802h and 4803h. Then
/// `WrongLength` exactly where the payload's length is not the one of its command: 1; 6 and 2 for each handle; 2;
/// 8; 8 and 24 for each extent. Where fewer bytes stand than 6 or 8, 6 or 8 is what is needed.
/// Reserved bytes and bits are not read. Time grows with the payload's length.
pub fn decode(alloc: Global, opcode: u16, payload: &[u8]) -> Result<HostRequest, PayloadFault>
    // Which request or fault it is.
    ensures exact { Gives result (host_request opcode payload.now) }
    // What is read is a request of this opcode, as which the payload reads.
    ensures found { IfOk result (λ q. IsHostRequest opcode payload.now q) }
    // A payload that reads as a request of this opcode is read as that one, unless memory runs out.
    ensures only { (q : HostRequest) → IsHostRequest opcode payload.now q → Gives result (Ok q) }
{
    request_of(alloc, opcode, payload)
}
