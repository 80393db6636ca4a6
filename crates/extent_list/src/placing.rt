//! Where an extent lies, and whether blocks begin and end there.

ghost use Rattle.extent_list.specs.Fitting.{area_of, fits_area};
ghost use Rattle.extent_list.specs.Listing.{misplaced};
ghost use Rattle.media_map.specs.Places.{region_at};
ghost use Rattle.std.specs.Prelude.{◌≡◌, ◌<◌, length};

use dcd_base::{Extent, HostId, RegionId};
use dcd_codes::Rule;
use media_map::region_config::Config;
use media_map::{Bounds, bounds_of};

/// The first of these that the extent breaks, with its index in the list: `ZeroLength`; `OutsideRegion`, where it
/// does not lie within that region, also where there is no such region; `Unaligned`, where its offset in the
/// region or its length is no multiple of the region's block.
pub fn misplaced(
    config: &Config,
    host: HostId,
    region: RegionId,
    index: u32,
    extent: &Extent,
) -> Option<Rule>
    requires { host < config.now.hosts }
    ensures { result ≡ misplaced config.now host region index extent.now }
{
    if extent.length == 0 {
        return Some(Rule::ZeroLength(index));
    }
    if region.0 >= config.regions() {
        return Some(Rule::OutsideRegion(index));
    }
    let area = Area::of(config, host, region);
    if !area.bounds.has_range(extent.start, extent.length) {
        return Some(Rule::OutsideRegion(index));
    }
    if !area
        .bounds
        .is_made_of(extent.start, extent.length, area.block)
    {
        return Some(Rule::Unaligned(index));
    }
    None
}

/// What a region says of the extents in it: its bounds for the host, its block in bytes, and whether it is shareable.
#[derive(Clone, Copy, Debug)]
pub(crate) struct Area {
    pub(crate) bounds: Bounds,
    pub(crate) block: u64,
    pub(crate) shareable: bool,
}

impl Area {
    /// The region's. Its block is never 0.
    #[inline(always)]
    pub(crate) fn of(config: &Config, host: HostId, region: RegionId) -> Area
        requires host { host < config.now.hosts }
        requires region { region < length config.now.regions }
        ensures value { result ≡ area_of config.now host region }
        ensures some { 0 < result.block }
    {
        let _size = config.granule_size(region);
        let found = config.region(region);
        Area {
            bounds: bounds_of(config, host, region),
            block: found.block,
            shareable: found.shareable,
        }
    }

    /// Whether the extent has some bytes, which the region has, and is made of its blocks.
    #[inline(always)]
    pub(crate) fn has(&self, extent: &Extent) -> bool
        requires { 0 < self.now.block }
        ensures { result ≡ fits_area self.now extent.now }
    {
        self.bounds
            .has_units(extent.start, extent.length, self.block)
    }
}

/// The region of the host's address, or region 0 where none has it.
pub fn region_at(config: &Config, host: HostId, dpa: u64) -> RegionId
    requires { host < config.now.hosts }
    ensures value { result ≡ region_at config.now host dpa }
    ensures known { result < length config.now.regions }
{
    match media_map::region_at(config, host, dpa) {
        Some(region) => region,
        None => first_region(config),
    }
}

/// Region 0, which every device has.
fn first_region(config: &Config) -> RegionId
    ensures value { result ≡ 0 }
    ensures known { result < length config.now.regions }
{
    let _regions = config.regions();
    RegionId(0)
}
