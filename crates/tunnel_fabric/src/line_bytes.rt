//! One line of a fabric in bytes. Its faults are told as those of a script; the fault of a byte that names no device is that of
//! one that names no actor.

ghost use Rattle.tunnel_fabric.specs.FabricLines.{IsFabricNextAt, as_local, device_from, fabric_end_from, fabric_kind_from, fabric_line_from, hosts_of_device, local_from, local_kind_from, no_manager_from, tunnel_from};
ghost use Rattle.report.specs.script_codec.specs.Fields.{GivesField};
ghost use Rattle.std.specs.Prelude.{◌≡◌, ◌≤◌, [], IfOk, length};

use crate::fabric_lines::FabricLine;
use region_config::Config;
use report::script_codec::fields::{u8_at, u16_at};
use report::script_codec::line_bytes::{line_at, message_at};
use report::script_codec::{Line, ScriptFault};
use std::alloc::Global;

/// How many hosts the device has whose number is the byte at the place.
fn hosts_of(configs: &[Config], at: usize, device: u8) -> Result<u8, ScriptFault>
    ensures { GivesField (λ hosts. hosts) result (hosts_of_device configs.now at device) }
{
    match configs.get(usize::from(device)) {
        Some(config) => Ok(config.hosts()),
        None => Err(ScriptFault::UnknownActor(at as u64)),
    }
}

/// The number of a device and how many hosts it has.
#[tactic(auto, unfolding(crate::specs::FabricLines::device_from))]
fn device_at(configs: &[Config], bytes: &[u8], at: usize) -> Result<((u8, u8), usize), ScriptFault>
    requires { at ≤ length bytes.now }
    ensures value { GivesField (λ x. x) result (device_from configs.now bytes.now at) }
    ensures within { IfOk result (λ x. x.1 ≤ length bytes.now) }
{
    let (device, next) = u8_at(bytes, at)?;
    let hosts = hosts_of(configs, at, device)?;
    Ok(((device, hosts), next))
}

/// The kind of a line of one device, 1 to 4.
#[tactic(auto, unfolding(crate::specs::FabricLines::local_kind_from))]
fn local_kind_at(bytes: &[u8], at: usize) -> Result<(u8, usize), ScriptFault>
    requires { at ≤ length bytes.now }
    ensures value { GivesField (λ x. x) result (local_kind_from bytes.now at) }
    ensures within { IfOk result (λ x. x.1 ≤ length bytes.now) }
{
    let (kind, next) = u8_at(bytes, at)?;
    if kind < 1 || kind > 4 {
        return Err(ScriptFault::UnknownKind(at as u64));
    }
    Ok((kind, next))
}

/// That no command of the Fabric Manager stands here, since its commands come through the tunnel.
#[tactic(auto, unfolding(crate::specs::FabricLines::no_manager_from))]
fn no_manager_at(kind: u8, bytes: &[u8], at: usize) -> Result<(), ScriptFault>
    requires { at ≤ length bytes.now }
    ensures { GivesField (λ _. at) result (no_manager_from kind bytes.now at) }
{
    let (actor, _) = u8_at(bytes, at)?;
    if kind == 1 && actor == 0xFE {
        return Err(ScriptFault::UnknownActor(at as u64));
    }
    Ok(())
}

/// The line of the device of this number that the line of a script is, whose kind stands at the place.
fn local_of(at: usize, device: u8, line: Line) -> Result<FabricLine, ScriptFault>
    ensures { GivesField (λ local. local) result (as_local at device line) }
{
    match line {
        Line::Do {
            actor,
            lane: _,
            act,
        } => Ok(FabricLine::Local { device, actor, act }),
        Line::Mark => Err(ScriptFault::UnknownKind(at as u64)),
    }
}

/// A device, and a line of its as in a script of its own.
#[tactic(auto, unfolding(crate::specs::FabricLines::local_from))]
fn local_at(
    alloc: Global,
    configs: &[Config],
    bytes: &[u8],
    at: usize,
) -> Result<(FabricLine, usize), ScriptFault>
    requires { at ≤ length bytes.now }
    ensures value { GivesField (λ x. x) result (local_from configs.now bytes.now at) }
    ensures within { IfOk result (λ x. x.1 ≤ length bytes.now) }
{
    let ((device, hosts), begin) = device_at(configs, bytes, at)?;
    let (kind, next) = local_kind_at(bytes, begin)?;
    no_manager_at(kind, bytes, next)?;
    let (line, next) = line_at(alloc, kind, hosts, 1, bytes, next)?;
    let local = local_of(begin, device, line)?;
    Ok((local, next))
}

/// A message to the tunnel, its length before it.
#[tactic(auto, unfolding(crate::specs::FabricLines::tunnel_from))]
fn tunnel_at(alloc: Global, bytes: &[u8], at: usize) -> Result<(FabricLine, usize), ScriptFault>
    requires { at ≤ length bytes.now }
    ensures value { GivesField (λ x. x) result (tunnel_from bytes.now at) }
    ensures within { IfOk result (λ x. x.1 ≤ length bytes.now) }
{
    let (size, next) = u16_at(bytes, at)?;
    let (request, next) = message_at(alloc, size, bytes, next)?;
    Ok((FabricLine::Tunnel(request), next))
}

/// The kind of a line, 1 or 2, or 0, the end word.
#[tactic(auto, unfolding(crate::specs::FabricLines::fabric_kind_from))]
fn kind_at(bytes: &[u8], at: usize) -> Result<(u8, usize), ScriptFault>
    requires { at ≤ length bytes.now }
    ensures value { GivesField (λ x. x) result (fabric_kind_from bytes.now at) }
    ensures within { IfOk result (λ x. x.1 ≤ length bytes.now) }
{
    let (kind, next) = u8_at(bytes, at)?;
    if kind > 2 {
        return Err(ScriptFault::UnknownKind(at as u64));
    }
    Ok((kind, next))
}

/// The rest of a line of this kind, 1 or 2.
fn fabric_line_at(
    alloc: Global,
    kind: u8,
    configs: &[Config],
    bytes: &[u8],
    at: usize,
) -> Result<(FabricLine, usize), ScriptFault>
    requires { at ≤ length bytes.now }
    ensures value { GivesField (λ x. x) result (fabric_line_from kind configs.now bytes.now at) }
    ensures within { IfOk result (λ x. x.1 ≤ length bytes.now) }
{
    match kind {
        1 => local_at(alloc, configs, bytes, at),
        _ => tunnel_at(alloc, bytes, at),
    }
}

/// That nothing stands behind the end word.
fn end_at(bytes: &[u8], at: usize) -> Result<(), ScriptFault>
    ensures { GivesField (λ _. []) result (fabric_end_from bytes.now at) }
{
    if at < bytes.len() {
        return Err(ScriptFault::AfterEnd(at as u64));
    }
    Ok(())
}

/// The line that begins at the place and the place behind it, where at most so many may still come, or `None` where the
/// fabric ends there.
pub(crate) fn next_at(
    alloc: Global,
    left: u32,
    configs: &[Config],
    bytes: &[u8],
    at: usize,
) -> Result<Option<(FabricLine, usize)>, ScriptFault>
    requires { at ≤ length bytes.now }
    ensures { IsFabricNextAt left configs.now bytes.now at result }
{
    let (kind, next) = kind_at(bytes, at)?;
    if kind == 0 {
        end_at(bytes, next)?;
        return Ok(None);
    }
    if left == 0 {
        return Err(ScriptFault::TooManyLines(at as u64));
    }
    let (line, next) = fabric_line_at(alloc, kind, configs, bytes, next)?;
    Ok(Some((line, next)))
}
