//! Where a region lies among a host's addresses, and the ranges in it that are made of units.

ghost use Rattle.media_map.specs.Places.{bounds_of, has_range, has_units, is_made_of, is_within};
ghost use Rattle.std.specs.Prelude.{◌≡◌, ◌==◌, ◌%◌, ◌<◌, ◌≤◌, length};

use region_config::Config;
use region_config::dcd_base::{HostId, RegionId};

/// The first of a host's addresses that a region has, and how many it has, one behind the other.
#[derive(Clone, Copy, Debug)]
pub struct Bounds {
    pub base: u64,
    pub length: u64,
}

/// The bounds of the region for the host.
#[inline(always)]
pub fn bounds_of(config: &Config, host: HostId, region: RegionId) -> Bounds
    requires host { host < config.now.hosts }
    requires region { region < length config.now.regions }
    ensures { result ≡ bounds_of config.now host region }
{
    Bounds {
        base: config.base(host, region),
        length: config.region(region).length,
    }
}

impl Bounds {
    /// Whether the address is within the bounds.
    #[inline(always)]
    pub fn has_address(&self, dpa: u64) -> bool
        ensures { result ≡ is_within self.now dpa }
    {
        self.base <= dpa && dpa - self.base < self.length
    }

    /// Whether the whole range of `bytes` bytes from `start` on is. It may reach past 2^64, and has no bytes where it is at an
    /// end.
    #[inline(always)]
    pub fn has_range(&self, start: u64, bytes: u64) -> bool
        ensures { result ≡ has_range self.now start bytes }
    {
        if start < self.base || self.length < start - self.base {
            return false;
        }
        bytes <= self.length - (start - self.base)
    }

    /// Whether units of so many bytes, counted from the base on, begin and end where the range does.
    #[inline(always)]
    pub fn is_made_of(&self, start: u64, bytes: u64, unit: u64) -> bool
        requires unit { 0 < unit }
        requires from { self.now.base ≤ start }
        ensures { result ≡ is_made_of self.now start bytes unit }
    {
        is_multiple(start - self.base, unit) && is_multiple(bytes, unit)
    }

    /// Whether the range has some bytes, all within the bounds, and is made of such units.
    #[inline(always)]
    pub fn has_units(&self, start: u64, bytes: u64, unit: u64) -> bool
        requires { 0 < unit }
        ensures { result ≡ has_units self.now start bytes unit }
    {
        bytes != 0 && self.has_range(start, bytes) && self.is_made_of(start, bytes, unit)
    }
}

/// Whether a number is a multiple of a unit, which is mostly a power of two and then needs no division.
#[inline(always)]
fn is_multiple(number: u64, unit: u64) -> bool
    requires { 0 < unit }
    ensures { result ≡ (number % unit == 0) }
{
    let zeros = unit.trailing_zeros();
    if unit == 1 << zeros {
        return number >> zeros << zeros == number;
    }
    number % unit == 0
}
