//! What pages of replies show: regions, extents, and what a host may have.

ghost use Rattle.device_commands.specs.ShownFlags.{AreSeen, flags_of as flags_shown};
ghost use Rattle.device_rules.specs.Settings.{host_counts, page, region_seen};
ghost use Rattle.device_rules.specs.Views.{View, lists_in};
ghost use Rattle.extent_list.specs.HostLists.{extent_total};
ghost use Rattle.host_payloads.specs.declared.views.RegionView.{RegionView};
ghost use Rattle.extent_list.specs.media_map.specs.region_config.specs.Granules.{with_blocks};
ghost use Rattle.extent_list.specs.media_map.specs.region_config.specs.Configurations.{Configuration};
ghost use Rattle.std.specs.Prelude.{◌≡◌, ◌<◌, ◌≤◌, length, min};

use crate::few::Few;
use cci_codec::dcd_base::limits::{EXTENTS, PAGE_EXTENTS, TAGS};
use cci_codec::dcd_base::{Extent, HostId, RegionId};
use extent_list::media_map::region_config::{Config, RegionSpec};
use host_lists::HostLists;
use host_payloads::{Counts, RegionView};

/// What stands in the place of a region that is not shown.
const NO_REGION: RegionView = RegionView {
    base: 0,
    decode_units: 0,
    length: 0,
    block: 0,
    handle: 0,
    flags: 0,
};

/// Which flags of a region are shown.
#[derive(Clone, Copy, Debug, PartialEq, Eq)]
pub enum Flags {
    /// Bit 0 where the region sanitizes: to a host.
    OfHost,
    /// Bit 1 where it is shareable too: to the Fabric Manager.
    OfManager,
}

/// The flags of a region.
fn flags_of(flags: Flags, spec: &RegionSpec) -> u8
    ensures { result ≡ flags_shown flags spec.now }
{
    let sanitizes = u8::from(spec.sanitize);
    match flags {
        Flags::OfHost => sanitizes,
        Flags::OfManager => sanitizes + 2 * u8::from(spec.shareable),
    }
}

/// A region as it is shown. The configuration is the one with the present blocks.
fn region_seen(present: &Config, host: HostId, flags: Flags, region: RegionId) -> RegionView
    requires host { host < present.now.hosts }
    requires region { region < length present.now.regions }
    ensures { (c : Configuration) (v : View) → present.now ≡ with_blocks c v.block → result ≡ region_seen c host v (flags_shown flags) region }
{
    let spec = present.region(region);
    RegionView {
        base: present.base(host, region),
        decode_units: spec.decode_units,
        length: spec.length,
        block: spec.block,
        handle: spec.handle,
        flags: flags_of(flags, &spec),
    }
}

/// Up to `count` regions from the first on, as they are shown. The configuration is the one with the present blocks.
pub fn regions_seen(
    present: &Config,
    host: HostId,
    flags: Flags,
    count: u8,
    first: u8,
) -> Few<RegionView>
    requires { host < present.now.hosts }
    ensures { AreSeen present.now host flags count first result }
{
    let regions = present.regions();
    let end = first.saturating_add(count).min(regions).max(first);
    let mut views = Few::new(NO_REGION);
    for region in first..end {
        views.push(region_seen(present, host, flags, RegionId(region)));
    }
    views
}

/// What a host with these lists may have, and what is left of it.
pub fn host_counts(lists: &HostLists) -> Counts
    requires { extent_total lists.now ≤ 64 }
    ensures { (v : View) → lists.now ≡ lists_in v → result ≡ host_counts v }
{
    Counts {
        extents: EXTENTS as u32,
        extents_available: lists.extents_available(),
        tags: TAGS,
        tags_available: lists.tags_available(),
    }
}

/// So many accepted extents from an index on, 50 at most.
pub fn extents_page(lists: &HostLists, count: u32, first: u32) -> &[Extent]
    ensures page { result.now ≡ page first (min count 50) lists.now.accepted }
    ensures few { length result.now ≤ 50 }
{
    lists
        .accepted()
        .part(first as usize, count.min(PAGE_EXTENTS) as usize)
}
