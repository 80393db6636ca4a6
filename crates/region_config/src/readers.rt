//! What a configuration says.

ghost use Rattle.region_config.specs.Granules.{base_of, first_granule, granule_size, granule_total, region_granules, region_of, region_spec};
ghost use Rattle.region_config.specs.Soundness.{IsSound, IsSoundRegion, IsSoundSeat};
ghost use Rattle.std.specs.Prelude.{◌≡◌, ◌+◌, ◌/◌, ◌%◌, ◌^◌, ◌<◌, ◌≤◌, length, suc};

use crate::configuration::Config;
use crate::region_spec::RegionSpec;
use dcd_base::{Granule, HostId, RegionId, Run};

impl Config {
    /// How many hosts there are, 1 to 16.
    pub fn hosts(&self) -> u8
        ensures value { result ≡ self.now.hosts }
        ensures some { 0 < result }
        ensures few { result ≤ 16 }
        ensures sound { IsSound self.now }
    {
        self.layout().hosts()
    }

    /// How many regions there are, 1 to 8.
    pub fn regions(&self) -> u8
        ensures value { result ≡ length self.now.regions }
        ensures some { 0 < result }
        ensures few { result ≤ 8 }
        ensures sound { IsSound self.now }
    {
        self.layout().region_count()
    }

    /// The region of this number.
    pub fn region(&self, region: RegionId) -> RegionSpec
        requires { region < length self.now.regions }
        ensures value { result ≡ region_spec self.now region }
        ensures sound { IsSoundRegion self.now region }
    {
        self.layout().region(region.0)
    }

    /// Where the region begins for the host: a DPA, in bytes, and a multiple of 256 MiB.
    pub fn base(&self, host: HostId, region: RegionId) -> u64
        requires host { host < self.now.hosts }
        requires region { region < length self.now.regions }
        ensures value { result ≡ base_of self.now host region }
        ensures sound { IsSoundSeat self.now host region }
        ensures ends { result + (region_spec self.now region).length ≤ 2 ^ 52 }
    {
        self.layout().base(host.0, region.0)
    }

    /// The size of the region's granules in bytes: a power of two from 64 bytes to 1 TiB.
    pub fn granule_size(&self, region: RegionId) -> u64
        requires { region < length self.now.regions }
        ensures value { result ≡ granule_size self.now region }
        ensures from { 64 ≤ result }
        ensures to { result ≤ 2 ^ 40 }
        ensures sound { IsSound self.now }
    {
        self.layout().region(region.0).smallest_size()
    }

    /// The granules of the region, at least one.
    pub fn granules_of(&self, region: RegionId) -> Run
        requires { region < length self.now.regions }
        ensures first { result.first ≡ first_granule self.now region }
        ensures count { result.count ≡ region_granules self.now region }
        ensures some { 0 < result.count }
        ensures within { result.first + result.count ≤ granule_total self.now }
    {
        Run {
            first: Granule(self.granules_before(region.0)),
            count: self.granule_count(region.0),
        }
    }

    /// How many granules a block of the region has, 1 to 4,096. The region is made of whole blocks.
    pub fn per_block(&self, region: RegionId) -> u32
        requires { region < length self.now.regions }
        ensures value { result ≡ (region_spec self.now region).block / granule_size self.now region }
        ensures some { 0 < result }
        ensures whole { region_granules self.now region % result ≡ 0 }
    {
        let spec = self.layout().region(region.0);
        (spec.block / self.granule_size(region)) as u32
    }

    /// How many granules the device has, 1 to 4,096.
    pub fn granules(&self) -> u32
        ensures value { result ≡ granule_total self.now }
        ensures some { 0 < result }
        ensures few { result ≤ 4096 }
    {
        self.granules_before(self.regions())
    }

    /// How many granules the regions before this one have.
    fn granules_before(&self, region: u8) -> u32
        requires { region ≤ length self.now.regions }
        ensures value { result ≡ first_granule self.now region }
        ensures few { result ≤ 4096 }
    {
        self.layout().granules_before(region) as u32
    }

    /// How many granules the region has.
    fn granule_count(&self, region: u8) -> u32
        requires { region < length self.now.regions }
        ensures value { result ≡ region_granules self.now region }
        ensures some { 0 < result }
        ensures within { first_granule self.now region + result ≤ granule_total self.now }
        ensures few { granule_total self.now ≤ 4096 }
    {
        let spec = self.layout().region(region);
        (spec.length / self.granule_size(RegionId(region))) as u32
    }

    /// The region that has the granule.
    pub fn region_of(&self, granule: Granule) -> RegionId
        requires { granule < granule_total self.now }
        ensures value { result ≡ region_of self.now granule }
        ensures known { result < length self.now.regions }
        ensures from { first_granule self.now result ≤ granule }
        ensures to { granule < first_granule self.now (suc result) }
    {
        let mut end = 0;
        for region in 0..self.regions() {
            end += self.granule_count(region);
            if granule.0 < end {
                return RegionId(region);
            }
        }
        unreachable!()
    }
}
