//! The region of a granule, which most often is that of the granule before.

ghost use Rattle.device_state.specs.Granules.{IsLastRegion, flags_found};
ghost use Rattle.extent_list.specs.media_map.specs.region_config.specs.Configurations.{Configuration};
ghost use Rattle.std.specs.Prelude.{◌≡◌, None, Some, if◌then◌else◌};

use cci_codec::dcd_base::{Granule, RegionId};
use extent_list::media_map::region_config::Config;

/// What becomes of the granules of a region.
#[derive(Clone, Copy)]
pub(crate) struct RegionFlags {
    /// Whether granules that a host gave back are dirty until they are zeroed.
    pub(crate) sanitize: bool,
    /// Whether several hosts may hold one granule.
    pub(crate) shareable: bool,
}

/// The region of the granule that was asked for last: its first granule and the one behind its last, and what becomes of
/// them.
#[derive(Drop)]
pub(crate) struct LastRegion {
    first: u64,
    end: u64,
    pub(crate) flags: RegionFlags,
}

impl LastRegion {
    /// No granule was asked for.
    pub(crate) fn none() -> LastRegion
        ensures { (c : Configuration) → IsLastRegion c result }
    {
        LastRegion {
            first: 0,
            end: 0,
            flags: RegionFlags {
                sanitize: false,
                shareable: false,
            },
        }
    }

    /// Makes this the region of the granule, and whether it has one: each granule of the device has. Most often it is already.
    #[inline(always)]
    pub(crate) fn goes_to(&mut self, config: &Config, granule: Granule) -> bool
        requires { IsLastRegion config.now self.old }
        ensures last { IsLastRegion config.now self.new }
        ensures found { (if result then Some self.new.flags else None) ≡ flags_found config.now granule }
    {
        let number = u64::from(granule.0);
        if self.first <= number && number < self.end {
            return true;
        }
        self.look_for(config, granule)
    }

    /// The same, from the first region on.
    #[inline(never)]
    fn look_for(&mut self, config: &Config, granule: Granule) -> bool
        requires { IsLastRegion config.now self.old }
        ensures last { IsLastRegion config.now self.new }
        ensures found { (if result then Some self.new.flags else None) ≡ flags_found config.now granule }
    {
        let mut end = 0;
        for number in 0..config.regions() {
            let first = end;
            let region = config.region(RegionId(number));
            end += region.length / config.granule_size(RegionId(number));
            if u64::from(granule.0) < end {
                *self = LastRegion {
                    first,
                    end,
                    flags: RegionFlags {
                        sanitize: region.sanitize,
                        shareable: region.shareable,
                    },
                };
                return true;
            }
        }
        false
    }
}
