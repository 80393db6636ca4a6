//! The runs of dirty granules, from the lowest on.

ghost use Rattle.granule_map.specs.StateLists.{dirty_from, is_dirty_at};
ghost use Rattle.region_config.specs.Granules.{first_granule, granule_total, region_of};
ghost use Rattle.sanitizer.specs.Turns.{NextDirtyRun};
ghost use Rattle.std.specs.List.{prefix_len, range_with_len};
ghost use Rattle.std.specs.Prelude.{◌≡◌, ◌+◌, ◌<◌, ◌≤◌, length, suc};

use granule_map::GranuleMap;
use region_config::Config;
use region_config::dcd_base::{Granule, Run};

/// The lowest run of dirty granules of one region from a granule on, at most so many of them.
pub(crate) fn next_run(map: &GranuleMap, config: &Config, from: u32, most: u32) -> Option<Run>
    requires { length map.now.states ≡ granule_total config.now }
    ensures { NextDirtyRun config.now (is_dirty_at map.now.states) from most result }
{
    if most == 0 {
        return None;
    }
    match next_dirty(map, from) {
        None => None,
        Some(first) => {
            let behind = region_end(config, first) - first;
            Some(Run {
                first: Granule(first),
                count: dirty_from(map, first, most.min(behind)),
            })
        }
    }
}

/// The number of the lowest dirty granule from one on.
fn next_dirty(map: &GranuleMap, from: u32) -> Option<u32>
    ensures { result ≡ dirty_from map.now.states from }
{
    match map.next_dirty(from) {
        Some(granule) => Some(granule.0),
        None => None,
    }
}

/// The number of the first granule behind the region that has this one.
fn region_end(config: &Config, granule: u32) -> u32
    requires { granule < granule_total config.now }
    ensures value { result ≡ first_granule config.now (suc (region_of config.now granule)) }
    ensures above { granule < result }
    ensures within { result ≤ granule_total config.now }
{
    let _granules = config.granules();
    let region = config.granules_of(config.region_of(Granule(granule)));
    region.first.0 + region.count
}

/// How many granules are dirty from one on up to the first that is not, at most so many.
fn dirty_from(map: &GranuleMap, first: u32, most: u32) -> u32
    requires { first + most ≤ length map.now.states }
    ensures count { result ≡ prefix_len (is_dirty_at map.now.states) (range_with_len first most) }
    ensures few { result ≤ most }
{
    map.dirty_run(first, most)
}
