//! The granules of extents that commands list.

ghost use Rattle.extent_list.specs.media_map.specs.Places.{is_granular, run_of};
ghost use Rattle.std.specs.Prelude.{◌≡◌, ◌<◌, IsTrue};

use cci_codec::dcd_base::{Extent, HostId, Run};
use extent_list::media_map::region_config::Config;

/// The run of an extent that is made of granules of one region.
pub fn run_of(config: &Config, host: HostId, extent: &Extent) -> Run
    requires host { host < config.now.hosts }
    requires granular { IsTrue (is_granular config.now host extent.now.start extent.now.length) }
    ensures { result ≡ run_of config.now host extent.now }
{
    match extent_list::media_map::run_of(config, host, extent.start, extent.length) {
        Some(run) => run,
        None => unreachable!(),
    }
}
