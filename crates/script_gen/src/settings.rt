//! The device that the script is for, and how much of it a round uses.

ghost use Rattle.script_gen.specs.Generated.{generated_config, share};
ghost use Rattle.std.specs.Prelude.{◌≡◌, ◌<◌, IfOk};

use dcd_base::{Extent, HostId, NoMemory, no_tag};
use region_config::{Config, ConfigFault, RegionSpec};
use std::alloc::Global;

/// How many hosts there are.
pub const HOSTS: u8 = 4;

/// The block size in bytes: 256 MiB.
const BLOCK: u64 = 0x1000_0000;

/// The region: 64 GiB in 256 blocks.
const REGION: RegionSpec = RegionSpec {
    decode_units: 256,
    length: 256 * BLOCK,
    block: BLOCK,
    sizes: BLOCK,
    handle: 0,
    sanitize: true,
    shareable: false,
};

/// The configuration, which has no fault.
pub fn config(alloc: Global) -> Result<Config, NoMemory>
    ensures { IfOk result (λ config. config ≡ generated_config) }
{
    match Config::new(alloc, HOSTS, &[REGION], &[0; 4]) {
        Ok(config) => Ok(config),
        Err(ConfigFault::NoMemory) => Err(NoMemory),
        Err(_) => unreachable!(),
    }
}

/// The extent of a host in a round: eight blocks that are next to each other.
///
/// Each host has 64 blocks of its own, and goes on by eight in each round.
pub fn share(round: u16, host: HostId) -> Extent
    requires { host < 4 }
    ensures { result ≡ share round host }
{
    Extent {
        start: (64 * u64::from(host.0) + 8 * (u64::from(round) % 8)) * BLOCK,
        length: 8 * BLOCK,
        tag: no_tag(),
        sequence: 0,
    }
}
