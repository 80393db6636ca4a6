//! How a dead host lets all go.

ghost use Rattle.plan_rules.specs.Listing.{clear_step as clearing, refusal_step as refusal, removal_step as removal};
ghost use Rattle.std.specs.Prelude.{◌≡◌, ◌≤◌, IfOk, length};

use crate::messages::{PlanStep, by_host, by_manager};
use dcd_base::{Extents, Handles, HostId, NoMemory, RegionId, ShortList, no_tag};
use fm_payloads::FmRequest;
use host_payloads::HostRequest;
use std::alloc::Global;

/// The log of Dynamic Capacity events.
const LOG: u8 = 4;

/// Flags of 5605h: Prescriptive, and forced.
const FORCED: u8 = 0x11;

/// Clear Event Records, 0101h, with these handles of the host's log.
pub fn clear_step(alloc: Global, host: HostId, handles: Handles) -> Result<PlanStep, NoMemory>
    requires { length handles ≤ 255 }
    ensures { IfOk result (λ step. step ≡ clearing host handles) }
{
    let request = HostRequest::ClearEvents {
        log: LOG,
        all: false,
        handles: ShortList::of_list(handles),
    };
    by_host(alloc, host, 0x0101, &request)
}

/// Add Dynamic Capacity Response, 4802h, that takes nothing of the host's oldest offer.
pub fn refusal_step(alloc: Global, host: HostId) -> Result<PlanStep, NoMemory>
    ensures { IfOk result (λ step. step ≡ refusal host) }
{
    let request = HostRequest::AddResponse {
        more: false,
        extents: Extents::new(alloc),
    };
    by_host(alloc, host, 0x4802, &request)
}

/// Initiate Dynamic Capacity Release, 5605h, that takes these extents of a region from the host by force.
pub fn removal_step(
    alloc: Global,
    host: HostId,
    region: RegionId,
    extents: Extents,
) -> Result<PlanStep, NoMemory>
    requires { length extents ≤ 65535 }
    ensures { IfOk result (λ step. step ≡ removal host region extents) }
{
    let request = FmRequest::Remove {
        host: u16::from(host.0),
        flags: FORCED,
        region: region.0,
        length: 0,
        tag: no_tag(),
        extents,
    };
    by_manager(alloc, 0x5605, &request)
}
