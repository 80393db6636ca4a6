//! The devices of a fabric in bytes.

ghost use Rattle.tunnel_fabric.specs.FabricReading.{GivesFabric, bare_config, config_told, device_script_from, devices_from};
ghost use Rattle.tunnel_fabric.specs.FabricFaults.{IsPlainFault};
ghost use Rattle.std.specs.Prelude.{◌≡◌, ◌≤◌, IfErr, IfOk, length};

use crate::fabric_scripts::Configs;
use crate::faults::FabricFault;
use region_config::Config;
use report::script_codec::fields::{part, skip, u32_at};
use report::script_codec::{Script, ScriptFault, read};
use std::alloc::Global;

/// The configuration of a script that begins at the place, if it is of version 1 and has no line.
fn bare(at: usize, script: Script) -> Result<Config, FabricFault>
    ensures value { GivesFabric (λ config. config) result (bare_config at script) }
    ensures plain { IfErr result IsPlainFault }
{
    if script.version != 1 || !script.lines.is_empty() {
        return Err(FabricFault::HasLines(at as u64));
    }
    Ok(script.config)
}

/// The configuration of the device whose script these bytes are, which begin at the place.
fn config_of(alloc: Global, at: usize, bytes: &[u8]) -> Result<Config, FabricFault>
    ensures value { GivesFabric (λ config. config) result (config_told at bytes.now) }
    ensures plain { IfErr result IsPlainFault }
{
    match read(alloc, bytes) {
        Ok(script) => bare(at, script),
        Err(ScriptFault::NoMemory) => Err(FabricFault::NoMemory),
        Err(fault) => Err(FabricFault::BadScript {
            at: at as u64,
            fault,
        }),
    }
}

/// A device: how many bytes its script has, and the script.
#[tactic(auto, unfolding(crate::specs::FabricReading::device_script_from))]
fn device_script_at(alloc: Global, bytes: &[u8], at: usize) -> Result<(Config, usize), FabricFault>
    requires { at ≤ length bytes.now }
    ensures value { GivesFabric (λ x. x) result (device_script_from bytes.now at) }
    ensures within { IfOk result (λ x. x.1 ≤ length bytes.now) }
    ensures plain { IfErr result IsPlainFault }
{
    let (size, begin) = u32_at(bytes, at)?;
    let size = size as usize;
    let next = skip(bytes, begin, size)?;
    let config = config_of(alloc, begin, part(bytes, begin, size))?;
    Ok((config, next))
}

/// So many devices.
pub(crate) fn devices_at(
    alloc: Global,
    count: u8,
    bytes: &[u8],
    at: usize,
) -> Result<(Configs, usize), FabricFault>
    requires { at ≤ length bytes.now }
    ensures value { GivesFabric (λ x. x) result (devices_from count bytes.now at) }
    ensures within { IfOk result (λ x. x.1 ≤ length bytes.now) }
    ensures plain { IfErr result IsPlainFault }
{
    let mut configs = Configs::new(alloc);
    let mut place = at;
    for _ in 0..count {
        let (config, next) = device_script_at(alloc, bytes, place)?;
        configs.push(config)?;
        place = next;
    }
    Ok((configs, place))
}
