//! A fabric out of its bytes.

ghost use Rattle.tunnel_fabric.specs.FabricFaults.{IsPlainFault};
ghost use Rattle.tunnel_fabric.specs.FabricLayout.{ReadsFabric};
ghost use Rattle.tunnel_fabric.specs.FabricLines.{fabric_lines_from};
ghost use Rattle.tunnel_fabric.specs.FabricReading.{GivesFabric, IsFabricRead, IsReadAsFabric, device_count_in, fabric_fields_in, fabric_magic_from, fabric_version_from, front_from};
ghost use Rattle.tunnel_fabric.specs.declared.fabric_scripts.FabricScript.{FabricScript};
ghost use Rattle.report.specs.script_codec.specs.Fields.{GivesField};
ghost use Rattle.std.specs.Prelude.{◌≡◌, ◌≤◌, [], IfErr, IfOk, OnOk, length};

use crate::devices::devices_at;
use crate::fabric_lines::FabricLines;
use crate::fabric_scripts::FabricScript;
use crate::faults::FabricFault;
use crate::line_bytes::next_at;
use region_config::Config;
use report::script_codec::ScriptFault;
use report::script_codec::fields::{part, skip, u8_at, u16_at};
use std::alloc::Global;

/// What every fabric begins with.
const MAGIC: [u8; 4] = *b"DCDF";

/// The most bytes of a fabric.
pub(crate) const MOST_BYTES: usize = 16_777_216;

/// The most lines of a fabric.
const MOST_LINES: u32 = 65_536;

/// The place behind the first four bytes.
#[tactic(auto, unfolding(crate::specs::FabricReading::fabric_magic_from))]
fn magic_at(bytes: &[u8], at: usize) -> Result<usize, ScriptFault>
    requires { at ≤ length bytes.now }
    ensures value { GivesField (λ next. next) result (fabric_magic_from bytes.now at) }
    ensures within { IfOk result (λ next. next ≤ length bytes.now) }
{
    let next = skip(bytes, at, 4)?;
    if part(bytes, at, 4) == MAGIC.as_slice() {
        Ok(next)
    } else {
        Err(ScriptFault::BadMagic)
    }
}

/// The place behind the version, which is 1.
#[tactic(auto, unfolding(crate::specs::FabricReading::fabric_version_from))]
fn version_at(bytes: &[u8], at: usize) -> Result<usize, ScriptFault>
    requires { at ≤ length bytes.now }
    ensures value { GivesField (λ next. next) result (fabric_version_from bytes.now at) }
    ensures within { IfOk result (λ next. next ≤ length bytes.now) }
{
    let (version, next) = u16_at(bytes, at)?;
    if version != 1 {
        return Err(ScriptFault::BadVersion(version));
    }
    Ok(next)
}

/// What stands before the number of devices, and that number.
#[tactic(auto, unfolding(crate::specs::FabricReading::front_from))]
fn front_at(bytes: &[u8], at: usize) -> Result<(u8, usize), ScriptFault>
    requires { at ≤ length bytes.now }
    ensures value { GivesField (λ x. x) result (front_from bytes.now at) }
    ensures within { IfOk result (λ x. x.1 ≤ length bytes.now) }
{
    let next = magic_at(bytes, at)?;
    let next = version_at(bytes, next)?;
    let (count, next) = u8_at(bytes, next)?;
    Ok((count, next))
}

/// The number of devices, 1 to 8.
fn count_of(count: u8) -> Result<u8, FabricFault>
    ensures value { GivesFabric (λ count. count) result (device_count_in count) }
    ensures plain { IfErr result IsPlainFault }
{
    if count < 1 || count > 8 {
        return Err(FabricFault::BadCount(count));
    }
    Ok(count)
}

/// Puts the lines from the place on into the empty list.
fn lines_at(
    alloc: Global,
    configs: &[Config],
    bytes: &[u8],
    at: usize,
    lines: &mut FabricLines,
) -> Result<(), ScriptFault>
    requires place { at ≤ length bytes.now }
    requires empty { lines.old ≡ [] }
    ensures { GivesField (λ _. lines.new) result (fabric_lines_from 65536 configs.now bytes.now at) }
{
    let mut place = at;
    let mut left = MOST_LINES;
    while let Some((line, next)) = next_at(alloc, left, configs, bytes, place)? {
        lines.push(line)?;
        place = next;
        left -= 1;
    }
    Ok(())
}

/// The fabric that the bytes are by their fields, or their first fault.
#[tactic(auto, unfolding(crate::specs::FabricReading::fabric_fields_in))]
fn fields_of(alloc: Global, bytes: &[u8]) -> Result<FabricScript, FabricFault>
    ensures value { GivesFabric (λ f. f) result (fabric_fields_in bytes.now) }
    ensures plain { IfErr result IsPlainFault }
{
    let (count, next) = front_at(bytes, 0)?;
    let count = count_of(count)?;
    let next = skip(bytes, next, 1)?;
    let (configs, next) = devices_at(alloc, count, bytes, next)?;
    let mut lines = FabricLines::new(alloc);
    lines_at(alloc, configs.as_slice(), bytes, next, &mut lines)?;
    Ok(FabricScript { configs, lines })
}

/// The fabric that the bytes are, or their first fault.
fn fabric_of(alloc: Global, bytes: &[u8]) -> Result<FabricScript, FabricFault>
    ensures cases { IsFabricRead bytes.now result }
    ensures plain { IfErr result IsPlainFault }
{
    if bytes.len() > MOST_BYTES {
        return Err(FabricFault::TooLong);
    }
    fields_of(alloc, bytes)
}

/// The fabric that the bytes are, or their first fault. Reserved bytes and bits may be anything.
///
/// `TooLong` is tried first; then the fields are read in order, and a field that lacks bytes is `Truncated` whatever
/// bytes it has. `NoMemory` may come in place of any answer, and `BadScript` and `BadMessage` never carry it.
pub fn read_fabric(alloc: Global, bytes: &[u8]) -> Result<FabricScript, FabricFault>
    ensures cases { IsFabricRead bytes.now result }
    ensures reads { IfOk result (λ f. ReadsFabric bytes.now f) }
    ensures only { (f : FabricScript) → ReadsFabric bytes.now f → IsReadAsFabric f result }
    ensures plain { IfErr result IsPlainFault }
{
    fabric_of(alloc, bytes)
}
