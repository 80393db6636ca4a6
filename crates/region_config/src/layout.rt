//! Hosts, regions and bases that are not yet tried.

ghost use Rattle.region_config.specs.Blocks.{with_block};
ghost use Rattle.region_config.specs.Granules.{base_of, region_spec};
ghost use Rattle.std.specs.Prelude.{◌≡◌, ◌*◌, ◌<◌, ◌≤◌, IfOk, length};

use crate::region_spec::RegionSpec;
use dcd_base::NoMemory;
use std::alloc::Global;
use std::marker::Model;

/// A configuration of at most 8 regions, with a base for each host and region. It may have a fault.
#[derive(Debug, Drop)]
pub struct Layout {
    alloc: Global,
    hosts: u8,
    regions: Vec<RegionSpec>,
    bases: Vec<u64>,
}

impl Model for Layout {
    ghost use Rattle.region_config.specs.Configurations.{Configuration};
    ghost use Rattle.std.specs.Prelude.{◌≡◌, ◌*◌, ◌≤◌, length};

    ghost Value = { Configuration };

    ghost view = { λ l. record { hosts = l.hosts; regions = l.regions.items; bases = l.bases.items } };

    ghost invariant = { λ l. (length l.bases.items ≡ l.hosts * length l.regions.items) × (length l.regions.items ≤ 8) };
}

impl Layout {
    /// The layout of copies of these regions and bases.
    pub fn new(
        alloc: Global,
        hosts: u8,
        regions: &[RegionSpec],
        bases: &[u64],
    ) -> Result<Layout, NoMemory>
        requires numbered { length bases.now ≡ hosts * length regions.now }
        requires few { length regions.now ≤ 8 }
        ensures { IfOk result
            (λ layout. layout ≡ record { hosts = hosts; regions = regions.now; bases = bases.now }) }
    {
        Ok(Layout {
            alloc,
            hosts,
            regions: Vec::from_slice(alloc, regions)?,
            bases: Vec::from_slice(alloc, bases)?,
        })
    }

    /// An equal layout of its own.
    pub fn copy(&self) -> Result<Layout, NoMemory>
        ensures { IfOk result (λ copy. copy ≡ self.now) }
    {
        Layout::new(
            self.alloc,
            self.hosts,
            self.regions.as_slice(),
            self.bases.as_slice(),
        )
    }

    pub fn hosts(&self) -> u8
        ensures { result ≡ self.now.hosts }
    {
        self.hosts
    }

    pub fn region_count(&self) -> u8
        ensures value { result ≡ length self.now.regions }
        ensures few { result ≤ 8 }
    {
        self.regions.len() as u8
    }

    /// The region of this number.
    pub fn region(&self, region: u8) -> RegionSpec
        requires { region < length self.now.regions }
        ensures { result ≡ region_spec self.now region }
    {
        self.regions[usize::from(region)]
    }

    /// Where the region begins for the host.
    pub fn base(&self, host: u8, region: u8) -> u64
        requires host { host < self.now.hosts }
        requires region { region < length self.now.regions }
        ensures { result ≡ base_of self.now host region }
    {
        self.bases[usize::from(host) * self.regions.len() + usize::from(region)]
    }

    /// Gives the region another block.
    pub fn set_block(&mut self, region: u8, block: u64)
        requires { region < length self.old.regions }
        ensures { self.new ≡ with_block self.old region block }
    {
        self.regions[usize::from(region)].block = block;
    }
}
