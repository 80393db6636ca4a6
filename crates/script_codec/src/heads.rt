//! The head of a script: its version, lanes and configuration.

ghost use Rattle.script_codec.specs.Fields.{GivesField, many_from, number_from};
ghost use Rattle.script_codec.specs.Heads.{config_from, config_of, counts_from, head_from, lanes_and_reserved_from, lanes_from, magic_from, one_lane_from, region_from, told_lanes_from, version_from};
ghost use Rattle.std.specs.Int.{w64};
ghost use Rattle.std.specs.Prelude.{◌≡◌, ◌*◌, ◌≤◌, ◌==◌, IfOk, length};

use crate::faults::ScriptFault;
use crate::fields::{part, skip, u8_at, u16_at, u32_at, u64_at};
use region_config::{Config, ConfigFault, RegionSpec};
use std::alloc::Global;

/// What every script begins with.
const MAGIC: [u8; 4] = *b"DCDS";

/// What stands before the lines.
#[derive(Debug, Drop)]
pub struct Head {
    pub version: u16,
    pub lanes: u8,
    pub config: Config,
}

/// The place behind the first four bytes.
#[tactic(auto, unfolding(crate::specs::Heads::magic_from))]
fn magic_at(bytes: &[u8], at: usize) -> Result<usize, ScriptFault>
    requires { at ≤ length bytes.now }
    ensures value { GivesField (λ next. next) result (magic_from bytes.now at) }
    ensures within { IfOk result (λ next. next ≤ length bytes.now) }
{
    let next = skip(bytes, at, 4)?;
    if part(bytes, at, 4) == MAGIC.as_slice() {
        Ok(next)
    } else {
        Err(ScriptFault::BadMagic)
    }
}

/// The version, 1 or 2.
#[tactic(auto, unfolding(crate::specs::Heads::version_from))]
fn version_at(bytes: &[u8], at: usize) -> Result<(u16, usize), ScriptFault>
    requires { at ≤ length bytes.now }
    ensures value { GivesField (λ x. x) result (version_from bytes.now at) }
    ensures within { IfOk result (λ x. x.1 ≤ length bytes.now) }
{
    let (version, next) = u16_at(bytes, at)?;
    if version != 1 && version != 2 {
        return Err(ScriptFault::BadVersion(version));
    }
    Ok((version, next))
}

/// The numbers of hosts, 1 to 16, and of regions, 1 to 8.
#[tactic(auto, unfolding(crate::specs::Heads::counts_from))]
fn counts_at(bytes: &[u8], at: usize) -> Result<((u8, u8), usize), ScriptFault>
    requires { at ≤ length bytes.now }
    ensures value { GivesField (λ x. x) result (counts_from bytes.now at) }
    ensures within { IfOk result (λ x. x.1 ≤ length bytes.now) }
    ensures few { IfOk result (λ x. x.0.0 ≤ 16) }
    ensures regions { IfOk result (λ x. x.0.1 ≤ 8) }
{
    let (hosts, next) = u8_at(bytes, at)?;
    let (regions, next) = u8_at(bytes, next)?;
    if hosts < 1 || hosts > 16 || regions < 1 || regions > 8 {
        return Err(ScriptFault::BadConfig(ConfigFault::Count));
    }
    Ok(((hosts, regions), next))
}

/// The number of lanes that version 2 tells, 1 to 4.
#[tactic(auto, unfolding(crate::specs::Heads::told_lanes_from))]
fn told_lanes_at(bytes: &[u8], at: usize) -> Result<(u8, usize), ScriptFault>
    requires { at ≤ length bytes.now }
    ensures value { GivesField (λ x. x) result (told_lanes_from bytes.now at) }
    ensures within { IfOk result (λ x. x.1 ≤ length bytes.now) }
{
    let (lanes, next) = u8_at(bytes, at)?;
    if lanes == 0 || lanes > 4 {
        return Err(ScriptFault::BadLanes(lanes));
    }
    Ok((lanes, next))
}

/// The lanes of version 2, with the reserved bytes behind them.
#[tactic(auto, unfolding(crate::specs::Heads::lanes_and_reserved_from))]
fn lanes_and_reserved_at(bytes: &[u8], at: usize) -> Result<(u8, usize), ScriptFault>
    requires { at ≤ length bytes.now }
    ensures value { GivesField (λ x. x) result (lanes_and_reserved_from bytes.now at) }
    ensures within { IfOk result (λ x. x.1 ≤ length bytes.now) }
{
    let (lanes, next) = told_lanes_at(bytes, at)?;
    let next = skip(bytes, next, 5)?;
    Ok((lanes, next))
}

/// The one lane of version 1, whose byte is reserved.
#[tactic(auto, unfolding(crate::specs::Heads::one_lane_from))]
fn one_lane_at(bytes: &[u8], at: usize) -> Result<(u8, usize), ScriptFault>
    requires { at ≤ length bytes.now }
    ensures value { GivesField (λ x. x) result (one_lane_from bytes.now at) }
    ensures within { IfOk result (λ x. x.1 ≤ length bytes.now) }
{
    let next = skip(bytes, at, 6)?;
    Ok((1, next))
}

/// The number of lanes.
fn lanes_at(version: u16, bytes: &[u8], at: usize) -> Result<(u8, usize), ScriptFault>
    requires { at ≤ length bytes.now }
    ensures value { GivesField (λ x. x) result (lanes_from version bytes.now at) }
    ensures within { IfOk result (λ x. x.1 ≤ length bytes.now) }
{
    if version == 2 {
        lanes_and_reserved_at(bytes, at)
    } else {
        one_lane_at(bytes, at)
    }
}

#[tactic(auto, unfolding(crate::specs::Heads::region_from))]
fn region_at(bytes: &[u8], at: usize) -> Result<(RegionSpec, usize), ScriptFault>
    requires { at ≤ length bytes.now }
    ensures value { GivesField (λ x. x) result (region_from bytes.now at) }
    ensures within { IfOk result (λ x. x.1 ≤ length bytes.now) }
{
    let (decode_units, next) = u64_at(bytes, at)?;
    let (length, next) = u64_at(bytes, next)?;
    let (block, next) = u64_at(bytes, next)?;
    let (sizes, next) = u64_at(bytes, next)?;
    let (handle, next) = u32_at(bytes, next)?;
    let (flags, next) = u8_at(bytes, next)?;
    let next = skip(bytes, next, 3)?;
    let region = RegionSpec {
        decode_units,
        length,
        block,
        sizes,
        handle,
        sanitize: flags & 1 == 1,
        shareable: flags & 2 == 2,
    };
    Ok((region, next))
}

/// So many regions.
fn regions_at(
    alloc: Global,
    count: u8,
    bytes: &[u8],
    at: usize,
) -> Result<(Vec<RegionSpec>, usize), ScriptFault>
    requires { at ≤ length bytes.now }
    ensures value { GivesField (λ x. (x.0.items, x.1)) result (many_from region_from count bytes.now at) }
    ensures within { IfOk result (λ x. x.1 ≤ length bytes.now) }
    ensures count { IfOk result (λ x. length x.0.items ≡ count) }
{
    let mut regions = Vec::new(alloc);
    let mut place = at;
    for _ in 0..count {
        let (region, next) = region_at(bytes, place)?;
        regions.push(region)?;
        place = next;
    }
    Ok((regions, place))
}

/// So many bases.
fn bases_at(
    alloc: Global,
    count: u8,
    bytes: &[u8],
    at: usize,
) -> Result<(Vec<u64>, usize), ScriptFault>
    requires { at ≤ length bytes.now }
    ensures value { GivesField (λ x. (x.0.items, x.1)) result (many_from (number_from w64) count bytes.now at) }
    ensures within { IfOk result (λ x. x.1 ≤ length bytes.now) }
    ensures count { IfOk result (λ x. length x.0.items ≡ count) }
{
    let mut bases = Vec::new(alloc);
    let mut place = at;
    for _ in 0..count {
        let (base, next) = u64_at(bytes, place)?;
        bases.push(base)?;
        place = next;
    }
    Ok((bases, place))
}

/// The configuration of these hosts, regions and bases.
fn config_of_parts(
    alloc: Global,
    hosts: u8,
    regions: &[RegionSpec],
    bases: &[u64],
) -> Result<Config, ScriptFault>
    requires { length bases.now ≡ hosts * length regions.now }
    ensures { GivesField (λ config. config) result (config_of hosts regions.now bases.now) }
{
    match Config::new(alloc, hosts, regions, bases) {
        Ok(config) => Ok(config),
        Err(ConfigFault::NoMemory) => Err(ScriptFault::NoMemory),
        Err(fault) => Err(ScriptFault::BadConfig(fault)),
    }
}

/// The configuration: its regions, then its bases.
#[tactic(auto, unfolding(crate::specs::Heads::config_from))]
fn config_at(
    alloc: Global,
    hosts: u8,
    count: u8,
    bytes: &[u8],
    at: usize,
) -> Result<(Config, usize), ScriptFault>
    requires place { at ≤ length bytes.now }
    requires hosts { hosts ≤ 16 }
    requires regions { count ≤ 8 }
    ensures value { GivesField (λ x. x) result (config_from hosts count bytes.now at) }
    ensures within { IfOk result (λ x. x.1 ≤ length bytes.now) }
{
    let (regions, next) = regions_at(alloc, count, bytes, at)?;
    let (bases, next) = bases_at(alloc, hosts * count, bytes, next)?;
    let config = config_of_parts(alloc, hosts, regions.as_slice(), bases.as_slice())?;
    Ok((config, next))
}

/// The head, and the place of the first line.
#[tactic(auto, unfolding(crate::specs::Heads::head_from))]
pub fn head_at(alloc: Global, bytes: &[u8], at: usize) -> Result<(Head, usize), ScriptFault>
    requires { at ≤ length bytes.now }
    ensures value { GivesField (λ x. x) result (head_from bytes.now at) }
    ensures within { IfOk result (λ x. x.1 ≤ length bytes.now) }
{
    let next = magic_at(bytes, at)?;
    let (version, next) = version_at(bytes, next)?;
    let next = skip(bytes, next, 2)?;
    let ((hosts, regions), next) = counts_at(bytes, next)?;
    let (lanes, next) = lanes_at(version, bytes, next)?;
    let (config, next) = config_at(alloc, hosts, regions, bytes, next)?;
    let head = Head {
        version,
        lanes,
        config,
    };
    Ok((head, next))
}
