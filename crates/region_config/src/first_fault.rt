//! The search for a layout's first fault.

ghost use Rattle.dcd_base.specs.Words.{◌or◌};
ghost use Rattle.region_config.specs.Granules.{first_granule, region_spec};
ghost use Rattle.region_config.specs.Setups.{bad_base, bad_order, base_fault, decode_end, each_region, faults, length_fault, order_fault, sizes_fault, total_fault};
ghost use Rattle.std.specs.Prelude.{◌≡◌, ◌^◌, ◌<◌, ◌≤◌, length, ℕ};

use crate::faults::ConfigFault;
use crate::layout::Layout;
use crate::sizes::{ADDRESS_END, UNIT};

impl Layout {
    /// Where the region's decode range ends for the host, which may be past 2^64.
    fn decode_end(&self, host: u8, region: u8) -> u128
        requires host { host < self.now.hosts }
        requires region { region < length self.now.regions }
        ensures { result ≡ decode_end self.now host region }
    {
        let units = self.region(region).decode_units;
        u128::from(self.base(host, region)) + u128::from(units) * u128::from(UNIT)
    }

    fn has_bad_base(&self, host: u8, region: u8) -> bool
        requires host { host < self.now.hosts }
        requires region { region < length self.now.regions }
        ensures { result ≡ bad_base self.now host region }
    {
        self.base(host, region) % UNIT != 0
            || self.decode_end(host, region) > u128::from(ADDRESS_END)
    }

    fn has_bad_order(&self, host: u8, region: u8) -> bool
        requires host { host < self.now.hosts }
        requires region { region < length self.now.regions }
        ensures { result ≡ bad_order self.now host region }
    {
        region > 0 && u128::from(self.base(host, region)) < self.decode_end(host, region - 1)
    }

    fn base_fault_of(&self, host: u8) -> Option<ConfigFault>
        requires { host < self.now.hosts }
        ensures { result ≡ each_region self.now
            (λ r. faults (bad_base self.now host r) (ConfigFault.Base host r)) }
    {
        for region in 0..self.region_count() {
            if self.has_bad_base(host, region) {
                return Some(ConfigFault::Base { host, region });
            }
        }
        None
    }

    /// The first fault of a base.
    fn base_fault(&self) -> Option<ConfigFault>
        ensures { result ≡ base_fault self.now }
    {
        for host in 0..self.hosts() {
            if let Some(fault) = self.base_fault_of(host) {
                return Some(fault);
            }
        }
        None
    }

    /// The first fault of the supported sizes and the block of a region.
    fn sizes_fault(&self) -> Option<ConfigFault>
        ensures { result ≡ sizes_fault self.now }
    {
        for region in 0..self.region_count() {
            if self.region(region).has_bad_sizes() {
                return Some(ConfigFault::BlockSize(region));
            }
        }
        None
    }

    /// The first fault of a region's length.
    fn length_fault(&self) -> Option<ConfigFault>
        requires { (r : ℕ) → r < length self.now.regions → 0 < (region_spec self.now r).sizes }
        ensures { result ≡ length_fault self.now }
    {
        for region in 0..self.region_count() {
            if self.region(region).has_bad_length() {
                return Some(ConfigFault::Length(region));
            }
        }
        None
    }

    fn order_fault_of(&self, host: u8) -> Option<ConfigFault>
        requires { host < self.now.hosts }
        ensures { result ≡ each_region self.now
            (λ r. faults (bad_order self.now host r) (ConfigFault.Overlap host r)) }
    {
        for region in 0..self.region_count() {
            if self.has_bad_order(host, region) {
                return Some(ConfigFault::Overlap { host, region });
            }
        }
        None
    }

    /// The first region that begins within the decode range of the one before it.
    fn order_fault(&self) -> Option<ConfigFault>
        ensures { result ≡ order_fault self.now }
    {
        for host in 0..self.hosts() {
            if let Some(fault) = self.order_fault_of(host) {
                return Some(fault);
            }
        }
        None
    }

    /// How many granules the regions before this one have.
    pub fn granules_before(&self, region: u8) -> u64
        requires known { region ≤ length self.now.regions }
        requires sizes { (r : ℕ) → r < length self.now.regions → 0 < (region_spec self.now r).sizes }
        requires short { (r : ℕ) → r < length self.now.regions → (region_spec self.now r).length ≤ 2 ^ 52 }
        ensures { result ≡ first_granule self.now region }
    {
        let mut total = 0;
        for before in 0..region {
            let spec = self.region(before);
            total += spec.length / spec.smallest_size();
        }
        total
    }

    /// Where there are more than 4,096 granules.
    fn total_fault(&self) -> Option<ConfigFault>
        requires sizes { (r : ℕ) → r < length self.now.regions → 0 < (region_spec self.now r).sizes }
        requires short { (r : ℕ) → r < length self.now.regions → (region_spec self.now r).length ≤ 2 ^ 52 }
        ensures { result ≡ total_fault self.now }
    {
        let granules = self.granules_before(self.region_count());
        (granules > 4096).then_some(ConfigFault::TooManyGranules(granules))
    }

    /// The first fault after the count of hosts and regions.
    pub fn fault(&self) -> Option<ConfigFault>
        requires { 0 < self.now.hosts }
        ensures { result ≡ base_fault self.now or sizes_fault self.now or length_fault self.now
            or order_fault self.now or total_fault self.now }
    {
        if let Some(fault) = self.base_fault() {
            return Some(fault);
        }
        if let Some(fault) = self.sizes_fault() {
            return Some(fault);
        }
        if let Some(fault) = self.length_fault() {
            return Some(fault);
        }
        if let Some(fault) = self.order_fault() {
            return Some(fault);
        }
        self.total_fault()
    }
}
