//! A configuration without fault.

ghost use Rattle.region_config.specs.Blocks.{RefusesFor, block_fault, with_block};
ghost use Rattle.region_config.specs.Granules.{region_spec};
ghost use Rattle.region_config.specs.Setups.{Makes, config_fault, bad_count};
ghost use Rattle.region_config.specs.Soundness.{IsSound};
ghost use Rattle.std.specs.Prelude.{◌≡◌, ◌*◌, ◌<◌, IfOk, OnErr, OnOk, length};

use crate::faults::{BlockFault, ConfigFault};
use crate::layout::Layout;
use crate::region_spec::RegionSpec;
use dcd_base::{NoMemory, RegionId};
use std::alloc::Global;
use std::marker::Model;

/// How many hosts there are, the regions, and where each host's regions begin. It has no fault.
#[derive(Debug, Drop)]
pub struct Config {
    layout: Layout,
}

impl Model for Config {
    ghost use Rattle.region_config.specs.Configurations.{Configuration};
    ghost use Rattle.region_config.specs.Setups.{config_fault};
    ghost use Rattle.std.specs.Prelude.{◌≡◌, None};

    ghost Value = { Configuration };

    ghost view = { λ c. c.layout };

    ghost invariant = { λ c. config_fault c.layout ≡ None };
}

impl Config {
    /// The configuration of so many hosts, these regions, and these bases: for each host one base a region, in bytes.
    ///
    /// It refuses with the first fault in the order of `ConfigFault`. `NoMemory` may come in place of any answer.
    pub fn new(
        alloc: Global,
        hosts: u8,
        regions: &[RegionSpec],
        bases: &[u64],
    ) -> Result<Config, ConfigFault>
        requires { length bases.now ≡ hosts * length regions.now }
        ensures { Makes (record { hosts = hosts; regions = regions.now; bases = bases.now }) result }
    {
        if has_bad_count(hosts, regions.len()) {
            return Err(ConfigFault::Count);
        }
        let Ok(layout) = Layout::new(alloc, hosts, regions, bases) else {
            return Err(ConfigFault::NoMemory);
        };
        match layout.fault() {
            None => Ok(Config { layout }),
            Some(fault) => Err(fault),
        }
    }

    /// Its hosts, regions and bases, which have no fault.
    pub(crate) fn layout(&self) -> &Layout
        ensures same { result.now ≡ self.now }
        ensures sound { IsSound self.now }
        ensures fine { config_fault self.now ≡ None }
    {
        &self.layout
    }

    /// An equal configuration of its own.
    pub fn copy(&self) -> Result<Config, NoMemory>
        ensures { IfOk result (λ copy. copy ≡ self.now) }
    {
        Ok(Config {
            layout: self.layout.copy()?,
        })
    }

    /// Gives the region another block size, in bytes.
    ///
    /// It refuses in the order of `BlockFault`: a size that the region does not support; a request that takes
    /// the region to sanitize where it does not, or the other way round; and a region of which granules are in
    /// use, as many as the caller says. A refusal changes nothing.
    pub fn set_block_size(
        &mut self,
        region: RegionId,
        block: u64,
        sanitize: bool,
        in_use: u32,
    ) -> Result<(), BlockFault>
        requires { region < length self.old.regions }
        ensures answer { RefusesFor (block_fault (region_spec self.old region) block sanitize in_use) result }
        ensures set { OnOk result (self.new ≡ with_block self.old region block) }
        ensures kept { OnErr result (self.new ≡ self.old) }
    {
        let spec = self.layout.region(region.0);
        if !spec.supports(block) {
            return Err(BlockFault::NotSupportedSize(block));
        }
        if spec.sanitize != sanitize {
            return Err(BlockFault::SanitizeDiffers);
        }
        if in_use != 0 {
            return Err(BlockFault::InUse(in_use));
        }
        self.layout.set_block(region.0, block);
        Ok(())
    }
}

/// Whether hosts or regions are too few or too many.
fn has_bad_count(hosts: u8, regions: usize) -> bool
    ensures { result ≡ bad_count hosts regions }
{
    hosts < 1 || hosts > 16 || regions < 1 || regions > 8
}
