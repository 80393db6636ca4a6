//! From a payload to the request of the manager.

ghost use Rattle.fm_payloads.specs.ManagerPayloads.{IsManagerRequest, manager_clear_asked, manager_events_asked, info_asked, lists_asked, manager_request, regions_asked, setting_asked, tag_in, tags_asked};
ghost use Rattle.dcd_base.specs.Payloads.{Gives};
ghost use Rattle.fm_payloads.specs.declared.requests.FmRequest.{FmRequest};
ghost use Rattle.std.specs.Prelude.{IfOk, Ok};

use crate::placing::placed_of;
use crate::requests::FmRequest;
use dcd_base::{
    PayloadFault, Tag, clear_length, expect_length, flag_at, handles_of, tag_at, u16_at, u32_at,
    u64_at,
};
use std::alloc::Global;

#[tactic(auto, unfolding(crate::specs::ManagerPayloads::manager_events_asked))]
fn get_events(payload: &[u8]) -> Result<FmRequest, PayloadFault>
    ensures { Gives result (manager_events_asked payload.now) }
{
    expect_length(payload, 1)?;
    Ok(FmRequest::GetEvents { log: payload[0] })
}

#[tactic(auto, unfolding(crate::specs::ManagerPayloads::manager_clear_asked))]
fn clear_events(alloc: Global, payload: &[u8]) -> Result<FmRequest, PayloadFault>
    ensures { Gives result (manager_clear_asked payload.now) }
{
    expect_length(payload, clear_length(payload))?;
    let (_, rest) = payload.split_at(6);
    let handles = handles_of(alloc, payload[2] as usize, rest)?;
    Ok(FmRequest::ClearEvents {
        log: payload[0],
        all: flag_at(payload, 1),
        handles,
    })
}

#[tactic(auto, unfolding(crate::specs::ManagerPayloads::info_asked))]
fn get_info(payload: &[u8]) -> Result<FmRequest, PayloadFault>
    ensures { Gives result (info_asked payload.now) }
{
    expect_length(payload, 0)?;
    Ok(FmRequest::GetInfo)
}

#[tactic(auto, unfolding(crate::specs::ManagerPayloads::regions_asked))]
fn get_regions(payload: &[u8]) -> Result<FmRequest, PayloadFault>
    ensures { Gives result (regions_asked payload.now) }
{
    expect_length(payload, 4)?;
    Ok(FmRequest::GetRegions {
        host: u16_at(payload, 0),
        count: payload[2],
        first: payload[3],
    })
}

#[tactic(auto, unfolding(crate::specs::ManagerPayloads::setting_asked))]
fn set_region(payload: &[u8]) -> Result<FmRequest, PayloadFault>
    ensures { Gives result (setting_asked payload.now) }
{
    expect_length(payload, 16)?;
    Ok(FmRequest::SetRegion {
        region: payload[0],
        sanitize: flag_at(payload, 12),
        block: u64_at(payload, 4),
    })
}

#[tactic(auto, unfolding(crate::specs::ManagerPayloads::lists_asked))]
fn get_extent_lists(payload: &[u8]) -> Result<FmRequest, PayloadFault>
    ensures { Gives result (lists_asked payload.now) }
{
    expect_length(payload, 12)?;
    Ok(FmRequest::GetExtentLists {
        host: u16_at(payload, 0),
        count: u32_at(payload, 4),
        first: u32_at(payload, 8),
    })
}

/// The tag that a payload is.
#[tactic(auto, unfolding(crate::specs::ManagerPayloads::tag_in))]
fn tag_of(payload: &[u8]) -> Result<Tag, PayloadFault>
    ensures { Gives result (tag_in payload.now) }
{
    expect_length(payload, 16)?;
    Ok(tag_at(payload, 0))
}

#[tactic(auto, unfolding(crate::specs::ManagerPayloads::tags_asked))]
fn list_tags(payload: &[u8]) -> Result<FmRequest, PayloadFault>
    ensures { Gives result (tags_asked payload.now) }
{
    expect_length(payload, 8)?;
    Ok(FmRequest::ListTags {
        first: u32_at(payload, 0),
        count: u32_at(payload, 4),
    })
}

#[tactic(auto, unfolding(crate::specs::ManagerPayloads::manager_request))]
fn request_of(alloc: Global, opcode: u16, payload: &[u8]) -> Result<FmRequest, PayloadFault>
    ensures { Gives result (manager_request opcode payload.now) }
{
    match opcode {
        0x0100 => get_events(payload),
        0x0101 => clear_events(alloc, payload),
        0x5600 => get_info(payload),
        0x5601 => get_regions(payload),
        0x5602 => set_region(payload),
        0x5603 => get_extent_lists(payload),
        0x5604 => {
            let p = placed_of(alloc, payload)?;
            Ok(FmRequest::Add {
                host: p.host,
                policy: p.choice,
                region: p.region,
                length: p.length,
                tag: p.tag,
                extents: p.extents,
            })
        }
        0x5605 => {
            let p = placed_of(alloc, payload)?;
            Ok(FmRequest::Remove {
                host: p.host,
                flags: p.choice,
                region: p.region,
                length: p.length,
                tag: p.tag,
                extents: p.extents,
            })
        }
        0x5606 => Ok(FmRequest::AddReference {
            tag: tag_of(payload)?,
        }),
        0x5607 => Ok(FmRequest::RemoveReference {
            tag: tag_of(payload)?,
        }),
        0x5608 => list_tags(payload),
        _ => Err(PayloadFault::UnknownOpcode(opcode)),
    }
}

/// The request that a payload is under an opcode.
///
/// `UnknownOpcode` exactly where the opcode is none of 0100h, 0101h and 5600h to 5608h. Then `WrongLength` exactly
/// where the payload's length is not the one of its command: 1; 6 and 2 for each handle; 0; 4; 16; 12; 32 and 40
/// for each extent, twice; 16; 16; 8. Where fewer bytes stand than 6 or 32, 6 or 32 is what is needed.
/// Reserved bytes and bits are not read; fields that a policy or a flag ignores are. Time grows with the payload's
/// length.
pub fn decode(alloc: Global, opcode: u16, payload: &[u8]) -> Result<FmRequest, PayloadFault>
    // Which request or fault it is.
    ensures exact { Gives result (manager_request opcode payload.now) }
    // What is read is a request of this opcode, as which the payload reads.
    ensures found { IfOk result (λ q. IsManagerRequest opcode payload.now q) }
    // A payload that reads as a request of this opcode is read as that one, unless memory runs out.
    ensures only { (q : FmRequest) → IsManagerRequest opcode payload.now q → Gives result (Ok q) }
{
    request_of(alloc, opcode, payload)
}
