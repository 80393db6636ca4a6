//! A range of addresses as a run of granules, and back.

ghost use Rattle.media_map.specs.Places.{IsRun, IsRunOf, bytes_of_run, extent_of, has_address, is_granular, region_at, run_in, start_of};
ghost use Rattle.region_config.specs.Soundness.{IsSound};
ghost use Rattle.std.specs.Prelude.{◌≡◌, ◌+◌, ◌^◌, ◌<◌, ◌≤◌, IfSome, IsTrue, length};

use crate::places::region_at;
use region_config::Config;
use region_config::dcd_base::{Extent, Granule, HostId, RegionId, Run, Tag};

/// The granules of the range of the host's addresses, in bytes.
///
/// None exactly where the length is 0, the range is not within one region, or its offset in the region or its
/// length is no multiple of the granule. The range may reach past 2^64; then it is within no region.
#[inline(always)]
pub fn run_of(config: &Config, host: HostId, start: u64, length: u64) -> Option<Run>
    requires { host < config.now.hosts }
    ensures value { result ≡ run_in config.now host start length }
    ensures back { IfSome result (λ run. IsRunOf config.now host start length run) }
{
    granular_run(config, host, start, length)
}

/// The granules of the range by their definition.
#[inline(always)]
fn granular_run(config: &Config, host: HostId, start: u64, bytes: u64) -> Option<Run>
    requires { host < config.now.hosts }
    ensures value { result ≡ run_in config.now host start bytes }
    ensures sound { IsSound config.now }
{
    let region = region_at(config, host, start)?;
    if !is_granular(config, host, region, start, bytes) {
        return None;
    }
    let offset = start - config.base(host, region);
    let size = config.granule_size(region);
    let first = config.granules_of(region).first;
    Some(Run {
        first: Granule(first.0 + (offset / size) as u32),
        count: (bytes / size) as u32,
    })
}

/// Whether the range is made of granules of the region that has its start.
#[inline(always)]
fn is_granular(config: &Config, host: HostId, region: RegionId, start: u64, bytes: u64) -> bool
    requires host { host < config.now.hosts }
    requires known { region < length config.now.regions }
    requires at { region_at config.now host start ≡ region }
    requires within { IsTrue (has_address config.now host start region) }
    ensures { result ≡ is_granular config.now host start bytes }
{
    // The remainder is of the division that finds the granule.
    let offset = start - config.base(host, region);
    let size = config.granule_size(region);
    bytes != 0
        && bytes <= config.region(region).length - offset
        && offset % size == 0
        && bytes % size == 0
}

/// The host's extent of a run, with this tag and this place in the order of a shared allocation.
pub fn extent_of(config: &Config, host: HostId, run: &Run, tag: Tag, sequence: u16) -> Extent
    requires host { host < config.now.hosts }
    requires run { IsRun config.now run.now }
    ensures value { result ≡ extent_of config.now host run.now tag sequence }
    ensures ends { result.start + result.length ≤ 2 ^ 52 }
    ensures back { run_in config.now host result.start result.length ≡ Some run.now }
{
    let range = range_of(config, host, run);
    Extent {
        start: range.0,
        length: range.1,
        tag,
        sequence,
    }
}

/// Where the run begins for the host, and how many bytes it has.
fn range_of(config: &Config, host: HostId, run: &Run) -> (u64, u64)
    requires host { host < config.now.hosts }
    requires run { IsRun config.now run.now }
    ensures start { result.0 ≡ start_of config.now host run.now }
    ensures bytes { result.1 ≡ bytes_of_run config.now run.now }
    ensures sound { IsSound config.now }
{
    let region = config.region_of(run.first);
    let size = config.granule_size(region);
    let behind = run.first.0 - config.granules_of(region).first.0;
    let start = config.base(host, region) + u64::from(behind) * size;
    (start, u64::from(run.count) * size)
}
