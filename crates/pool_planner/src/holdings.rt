//! What a host holds in a region.

ghost use Rattle.media_map.specs.Places.{region_at as region_with};
ghost use Rattle.std.specs.List.{filter};
ghost use Rattle.std.specs.Prelude.{◌≡◌, ◌*◌, ◌^◌, ◌<◌, ◌≤◌, ◌/◌, ◌==◌, IfOk, length, sum_by};

use dcd_base::{Extent, Extents, HostId, NoMemory, RegionId};
use media_map::region_at;
use region_config::Config;
use std::alloc::Global;

fn lies_in(config: &Config, host: HostId, region: RegionId, extent: &Extent) -> bool
    requires { host < config.now.hosts }
    ensures { result ≡ (region_with config.now host extent.now.start == region) }
{
    let found = region_at(config, host, extent.start).unwrap_or(RegionId(0));
    found == region
}

/// Those of the host's extents that lie in the region, in their order.
pub fn extents_in_region(
    alloc: Global,
    config: &Config,
    host: HostId,
    region: RegionId,
    extents: &[Extent],
) -> Result<Extents, NoMemory>
    requires { host < config.now.hosts }
    ensures those { IfOk result (λ list. list ≡ filter (λ x. region_with config.now host x.start == region) extents.now) }
    ensures few { IfOk result (λ list. length list ≤ length extents.now) }
{
    let mut list = Extents::new(alloc);
    for extent in extents {
        if lies_in(config, host, region, extent) {
            list.push(*extent)?;
        }
    }
    Ok(list)
}

/// How many bytes the extents have.
fn bytes_of(extents: &[Extent]) -> u128
    ensures { result ≡ sum_by (λ x. x.length) extents.now }
{
    let mut bytes = 0;
    for extent in extents {
        bytes += u128::from(extent.length);
    }
    bytes
}

/// How many whole blocks of this size in bytes the extents have.
pub fn blocks_in(extents: &[Extent], block: u64) -> u128
    requires { 0 < block }
    ensures value { result ≡ sum_by (λ x. x.length) extents.now / block }
    ensures fits { result * block < 2 ^ 128 }
{
    bytes_of(extents) / u128::from(block)
}
