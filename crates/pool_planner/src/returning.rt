//! How a host gives back what it has above its demand.

ghost use Rattle.plan_rules.specs.Listing.{last_bytes, last_part, return_step as returning};
ghost use Rattle.std.specs.Prelude.{◌≡◌, ◌+◌, ◌^◌, ◌<◌, ◌≤◌, All, IfOk, IsTrue, length, reverse};

use crate::messages::{PlanStep, by_host};
use dcd_base::{Extent, Extents, HostId, NoMemory, no_tag};
use host_payloads::HostRequest;
use std::alloc::Global;

/// So many of the last bytes of the extent, or all where it has no more, as a host's message lists it.
fn last_part(extent: &Extent, bytes: u128) -> Extent
    requires { extent.now.start + extent.now.length < 2 ^ 64 }
    ensures { result ≡ last_part bytes extent.now }
{
    let part = bytes.min(u128::from(extent.length)) as u64;
    Extent {
        start: extent.start + (extent.length - part),
        length: part,
        tag: no_tag(),
        sequence: 0,
    }
}

/// So many of the last bytes of the extents, from the last one backwards: each whole but the last, of which the end.
fn last_bytes(alloc: Global, bytes: u128, extents: &[Extent]) -> Result<Extents, NoMemory>
    requires { All (λ x. x.start + x.length < 2 ^ 64) extents.now }
    ensures those { IfOk result (λ list. list ≡ last_bytes bytes (reverse extents.now)) }
    ensures few { IfOk result (λ list. length list ≤ length extents.now) }
{
    let mut list = Extents::new(alloc);
    let mut left = bytes;
    for i in 0..extents.len() {
        if left == 0 {
            return Ok(list);
        }
        let extent = &extents[extents.len() - 1 - i];
        list.push(last_part(extent, left))?;
        left = left.saturating_sub(u128::from(extent.length));
    }
    Ok(list)
}

/// Release Dynamic Capacity, 4803h, of so many of the last bytes of these extents of the host.
pub fn return_step(
    alloc: Global,
    host: HostId,
    bytes: u128,
    extents: &[Extent],
) -> Result<PlanStep, NoMemory>
    requires few { length extents.now ≤ 65535 }
    requires ends { All (λ x. x.start + x.length < 2 ^ 64) extents.now }
    ensures { IfOk result (λ step. step ≡ returning host bytes extents.now) }
{
    let request = HostRequest::GiveBack {
        more: false,
        extents: last_bytes(alloc, bytes, extents)?,
    };
    by_host(alloc, host, 0x4803, &request)
}
