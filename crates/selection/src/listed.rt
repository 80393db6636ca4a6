//! The policy Prescriptive: the extents that the manager lists.

ghost use Rattle.granule_map.specs.StateLists.{is_free_at};
ghost use Rattle.extent_list.specs.Listing.{overlapping};
ghost use Rattle.extent_list.specs.media_map.specs.Places.{IsRun, is_granular, run_of};
ghost use Rattle.extent_list.specs.media_map.specs.region_config.specs.Granules.{granule_total};
ghost use Rattle.selection.specs.Selections.{AreApart, are_free, free_extent_rule, listed_runs, prescribed_rule};
ghost use Rattle.std.specs.Prelude.{◌≡◌, ◌+◌, ◌^◌, ◌<◌, ◌≤◌, All, IfNone, IsTrue, None, length, true};

use crate::blocks::are_free;
use extent_list::dcd_codes::Rule;
use extent_list::dcd_codes::dcd_base::{Extent, Extents, HostId, RegionId, Run};
use extent_list::media_map::region_config::Config;
use extent_list::{Before, are_apart, misplaced, sharing, too_many_listed};
use granule_map::GranuleMap;

/// The first rule that the listed extents of the host break. Where there is none, their runs of granules in the order
/// of the list are some, are of the device, share no granule and are free. It makes no list of them and takes no memory.
///
/// The rules in their order: `EmptyList`; `TooManyListed`, above 64; and for each extent in turn `ZeroLength`,
/// `OutsideRegion` (also where there is no such region), `Unaligned` to the region's block, `NotFree` where one of its
/// granules is not free, and `Overlap` with the first earlier extent with which it shares an address. An index counts
/// the list from 0.
pub fn prescriptive_rule(
    map: &GranuleMap,
    config: &Config,
    host: HostId,
    region: RegionId,
    list: &Extents,
) -> Option<Rule>
    requires host { host < config.now.hosts }
    requires granules { length map.now.states ≡ granule_total config.now }
    ensures rule { result ≡ prescribed_rule config.now host (is_free_at map.now.states) region list.now }
    ensures some { IfNone result (0 < length (listed_runs config.now host list.now)) }
    ensures runs { IfNone result (All (IsRun config.now) (listed_runs config.now host list.now)) }
    ensures apart { IfNone result (AreApart (listed_runs config.now host list.now)) }
    ensures are_free { IfNone result (IsTrue (are_free (is_free_at map.now.states) (listed_runs config.now host list.now))) }
{
    if list.is_empty() {
        return Some(Rule::EmptyList);
    }
    if let Some(rule) = too_many_listed(list.as_slice()) {
        return Some(rule);
    }
    // That runs are of one region and apart rests on what every configuration keeps.
    let _regions = config.regions();
    let listed = list.as_slice();
    let apart = are_apart(listed);
    for i in 0..listed.len() {
        let before = Before {
            extents: &listed[..i],
            apart,
        };
        if let Some(rule) = extent_rule(map, config, host, region, &before, &listed[i]) {
            return Some(rule);
        }
    }
    None
}

/// The first rule that an extent breaks behind those before it.
fn extent_rule(
    map: &GranuleMap,
    config: &Config,
    host: HostId,
    region: RegionId,
    before: &Before,
    extent: &Extent,
) -> Option<Rule>
    requires host { host < config.now.hosts }
    requires granules { length map.now.states ≡ granule_total config.now }
    requires few { length before.now.extents.now < 2 ^ 32 }
    requires apart { before.now.apart ≡ true → overlapping before.now.extents.now extent.now ≡ None }
    ensures { result ≡ free_extent_rule config.now host (is_free_at map.now.states) region before.now.extents.now extent.now }
{
    let index = before.extents.len() as u32;
    if let Some(rule) = misplaced(config, host, region, index, extent) {
        return Some(rule);
    }
    // What is made of blocks is made of granules, in every configuration.
    let _regions = config.regions();
    let run = run_of(config, host, extent);
    if !are_free(map, run.first.0, run.count) {
        return Some(Rule::NotFree(index));
    }
    sharing(before, extent)
}

/// The run of an extent that is made of granules of one region.
fn run_of(config: &Config, host: HostId, extent: &Extent) -> Run
    requires host { host < config.now.hosts }
    requires granular { IsTrue (is_granular config.now host extent.now.start extent.now.length) }
    ensures value { result ≡ run_of config.now host extent.now }
    ensures below { result.first + result.count ≤ granule_total config.now }
{
    match extent_list::media_map::run_of(config, host, extent.start, extent.length) {
        Some(run) => run,
        None => unreachable!(),
    }
}
