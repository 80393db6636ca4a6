//! How a host gets more.

ghost use Rattle.plan_rules.specs.Listing.{accept_step as acceptance, add_step as addition, listed};
ghost use Rattle.std.specs.List.{list_all};
ghost use Rattle.std.specs.Prelude.{◌≡◌, ◌≤◌, IfOk, IsTrue, length, map};

use crate::messages::{PlanStep, by_host, by_manager};
use dcd_base::{Extent, Extents, HostId, NoMemory, RegionId, no_tag};
use fm_payloads::FmRequest;
use host_payloads::HostRequest;
use std::alloc::Global;

/// Initiate Dynamic Capacity Add, 5604h, of so many bytes of the region by the policy Free, with no tag.
pub fn add_step(
    alloc: Global,
    host: HostId,
    region: RegionId,
    bytes: u64,
) -> Result<PlanStep, NoMemory>
    ensures { IfOk result (λ step. step ≡ addition host region bytes) }
{
    let request = FmRequest::Add {
        host: u16::from(host.0),
        policy: 0,
        region: region.0,
        length: bytes,
        tag: no_tag(),
        extents: Extents::new(alloc),
    };
    by_manager(alloc, 0x5604, &request)
}

/// The extent as a host's message lists it: without tag and sequence.
fn listed(extent: &Extent) -> Extent
    ensures { result ≡ listed extent.now }
{
    Extent {
        tag: no_tag(),
        sequence: 0,
        ..*extent
    }
}

/// The extents as a host's message lists them.
fn all_listed(alloc: Global, extents: &[Extent]) -> Result<Extents, NoMemory>
    ensures listed { IfOk result (λ list. list ≡ map listed extents.now) }
    ensures few { IfOk result (λ list. length list ≡ length extents.now) }
{
    let mut list = Extents::new(alloc);
    for extent in extents {
        list.push(listed(extent))?;
    }
    Ok(list)
}

/// Add Dynamic Capacity Response, 4802h, that takes all extents of the host's oldest offer, which these are.
pub fn accept_step(alloc: Global, host: HostId, offer: &[Extent]) -> Result<PlanStep, NoMemory>
    requires { length offer.now ≤ 65535 }
    ensures { IfOk result (λ step. step ≡ acceptance host offer.now) }
{
    let request = HostRequest::AddResponse {
        more: false,
        extents: all_listed(alloc, offer)?,
    };
    by_host(alloc, host, 0x4802, &request)
}
