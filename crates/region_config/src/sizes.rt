//! The block sizes of a region.

ghost use Rattle.region_config.specs.Granules.{is_supported};
ghost use Rattle.region_config.specs.Setups.{bad_length, bad_sizes, largest_size};
ghost use Rattle.std.specs.Int.{trailing_zeros, w64};
ghost use Rattle.std.specs.Prelude.{◌≡◌, ◌^◌, ◌<◌};

use crate::region_spec::RegionSpec;

/// The unit of decode lengths and bases, in bytes: 256 MiB.
pub(crate) const UNIT: u64 = 0x1000_0000;

/// The lowest address that no decode range may pass: 2^52.
pub(crate) const ADDRESS_END: u64 = 0x10_0000_0000_0000;

impl RegionSpec {
    /// Whether blocks of this many bytes are supported.
    pub(crate) fn supports(&self, size: u64) -> bool
        ensures { result ≡ is_supported self.now size }
    {
        size.is_power_of_two() && self.sizes & size != 0
    }

    /// The smallest supported size in bytes, which is the granule.
    pub(crate) fn smallest_size(&self) -> u64
        requires { 0 < self.now.sizes }
        ensures value { result ≡ 2 ^ trailing_zeros w64 self.now.sizes }
        ensures some { 0 < result }
    {
        1 << self.sizes.trailing_zeros()
    }

    /// The largest supported size in bytes.
    pub(crate) fn largest_size(&self) -> u64
        requires { 0 < self.now.sizes }
        ensures value { result ≡ largest_size self.now }
        ensures some { 0 < result }
    {
        1 << self.sizes.ilog2()
    }

    /// Whether its sizes or its block break their rule.
    pub(crate) fn has_bad_sizes(&self) -> bool
        ensures { result ≡ bad_sizes self.now }
    {
        self.sizes == 0
            || self.sizes % 64 != 0
            || self.sizes >= 1 << 41
            || !self.supports(self.block)
    }

    /// Whether its length breaks its rule.
    pub(crate) fn has_bad_length(&self) -> bool
        requires { 0 < self.now.sizes }
        ensures { result ≡ bad_length self.now }
    {
        self.length == 0
            || self.length % self.largest_size() != 0
            || u128::from(self.length) > u128::from(self.decode_units) * u128::from(UNIT)
    }
}
