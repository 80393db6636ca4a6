//! A script into bytes: its one spelling, field by field.

ghost use Rattle.cci_codec.specs.Messages.{request_fields};
ghost use Rattle.cci_codec.specs.dcd_base.specs.Layouts.{Masked, Number, Raw, Reserved};
ghost use Rattle.cci_codec.specs.dcd_base.specs.Words.{flag_of};
ghost use Rattle.journal_core.specs.declared.acts.Act.{Act};
ghost use Rattle.script_codec.specs.Reading.{script_in};
ghost use Rattle.script_codec.specs.Scripts.{act_fields, actor_byte, script_head, lanes_fields, line_fields, magic, region_fields, script_fields, start_fields};
ghost use Rattle.script_codec.specs.Writing.{AppendsLines, IsWritable, WritesScript, has_spelling, script_bytes};
ghost use Rattle.std.specs.Int.{w8, w16, w32, w64};
ghost use Rattle.std.specs.Prelude.{◌≡◌, ◌+◌, ◌*◌, ◌<◌, ◌≤◌, ◌++◌, [], ◌∷◌, IsTrue, OnErr, OnOk, flat_map, length, map};
ghost use Rattle.std.specs.List.{All};

use crate::script_line::Line;
use crate::scripts::Script;
use cci_codec::dcd_base::{
    Actor, Bytes, HostId, NoMemory, RegionId, add_u8, add_u16, add_u32, add_u64,
};
use cci_codec::{Request, encode_request, law_request_is_spelled};
use journal_core::Act;
use region_config::{Config, RegionSpec};

fn write_u8(number: u8, out: &mut Bytes) -> Result<(), NoMemory>
    ensures { OnOk result (AppendsLines out.old out.new (Number w8 number ∷ [])) }
{
    add_u8(out, number)
}

fn write_u16(number: u16, out: &mut Bytes) -> Result<(), NoMemory>
    ensures { OnOk result (AppendsLines out.old out.new (Number w16 number ∷ [])) }
{
    add_u16(out, number)
}

fn write_u32(number: u32, out: &mut Bytes) -> Result<(), NoMemory>
    ensures { OnOk result (AppendsLines out.old out.new (Number w32 number ∷ [])) }
{
    add_u32(out, number)
}

fn write_u64(number: u64, out: &mut Bytes) -> Result<(), NoMemory>
    ensures { OnOk result (AppendsLines out.old out.new (Number w64 number ∷ [])) }
{
    add_u64(out, number)
}

/// What every script begins with.
fn write_magic(out: &mut Bytes) -> Result<(), NoMemory>
    ensures { OnOk result (AppendsLines out.old out.new (Raw 4 magic ∷ [])) }
{
    out.extend_from_slice(b"DCDS".as_slice())
}

fn write_2_reserved(out: &mut Bytes) -> Result<(), NoMemory>
    ensures { OnOk result (AppendsLines out.old out.new (Reserved 2 ∷ [])) }
{
    out.extend_from_slice([0; 2].as_slice())
}

fn write_3_reserved(out: &mut Bytes) -> Result<(), NoMemory>
    ensures { OnOk result (AppendsLines out.old out.new (Reserved 3 ∷ [])) }
{
    out.extend_from_slice([0; 3].as_slice())
}

fn write_5_reserved(out: &mut Bytes) -> Result<(), NoMemory>
    ensures { OnOk result (AppendsLines out.old out.new (Reserved 5 ∷ [])) }
{
    out.extend_from_slice([0; 5].as_slice())
}

fn write_6_reserved(out: &mut Bytes) -> Result<(), NoMemory>
    ensures { OnOk result (AppendsLines out.old out.new (Reserved 6 ∷ [])) }
{
    out.extend_from_slice([0; 6].as_slice())
}

/// The flags byte of a region: bit 0 sanitizes, bit 1 shareable.
fn flags_of(sanitize: bool, shareable: bool) -> u8
    ensures { result ≡ flag_of sanitize + 2 * flag_of shareable }
{
    match (sanitize, shareable) {
        (false, false) => 0,
        (true, false) => 1,
        (false, true) => 2,
        (true, true) => 3,
    }
}

fn write_flags(sanitize: bool, shareable: bool, out: &mut Bytes) -> Result<(), NoMemory>
    ensures { OnOk result (AppendsLines out.old out.new (Masked 3 (flag_of sanitize + 2 * flag_of shareable) ∷ [])) }
{
    out.push(flags_of(sanitize, shareable))
}

fn write_region(region: &RegionSpec, out: &mut Bytes) -> Result<(), NoMemory>
    ensures { OnOk result (AppendsLines out.old out.new (region_fields region.now)) }
{
    write_u64(region.decode_units, out)?;
    write_u64(region.length, out)?;
    write_u64(region.block, out)?;
    write_u64(region.sizes, out)?;
    write_u32(region.handle, out)?;
    write_flags(region.sanitize, region.shareable, out)?;
    write_3_reserved(out)
}

/// The lanes, which only version 2 tells, and the reserved bytes behind them.
fn write_lanes(version: u16, lanes: u8, out: &mut Bytes) -> Result<(), NoMemory>
    ensures { OnOk result (AppendsLines out.old out.new (lanes_fields version lanes)) }
{
    if version == 2 {
        write_told_lanes(lanes, out)
    } else {
        write_6_reserved(out)
    }
}

fn write_told_lanes(lanes: u8, out: &mut Bytes) -> Result<(), NoMemory>
    ensures { OnOk result (AppendsLines out.old out.new (Number w8 lanes ∷ Reserved 5 ∷ [])) }
{
    write_u8(lanes, out)?;
    write_5_reserved(out)
}

/// The first 16 bytes.
fn write_start(script: &Script, out: &mut Bytes) -> Result<(), NoMemory>
    ensures { OnOk result (AppendsLines out.old out.new (start_fields script.now)) }
{
    write_magic(out)?;
    write_u16(script.version, out)?;
    write_2_reserved(out)?;
    write_u8(script.config.hosts(), out)?;
    write_u8(script.config.regions(), out)?;
    write_lanes(script.version, script.lanes, out)
}

fn write_regions(config: &Config, out: &mut Bytes) -> Result<(), NoMemory>
    ensures { OnOk result (AppendsLines out.old out.new (flat_map region_fields config.now.regions)) }
{
    for region in 0..config.regions() {
        write_region(&config.region(RegionId(region)), out)?;
    }
    Ok(())
}

/// The bases, host by host, within a host region by region.
fn write_bases(config: &Config, out: &mut Bytes) -> Result<(), NoMemory>
    requires { length config.now.bases ≡ config.now.hosts * length config.now.regions }
    ensures { OnOk result (AppendsLines out.old out.new (map (λ base. Number w64 base) config.now.bases)) }
{
    for host in 0..config.hosts() {
        for region in 0..config.regions() {
            write_u64(config.base(HostId(host), RegionId(region)), out)?;
        }
    }
    Ok(())
}

fn write_head(script: &Script, out: &mut Bytes) -> Result<(), NoMemory>
    requires { length script.now.config.bases ≡ script.now.config.hosts * length script.now.config.regions }
    ensures { OnOk result (AppendsLines out.old out.new (script_head script.now)) }
{
    write_start(script, out)?;
    write_regions(&script.config, out)?;
    write_bases(&script.config, out)
}

/// A host's number and sixteen times its lane, or FEh for the Fabric Manager.
fn byte_of(actor: &Actor, lane: u8) -> u8
    requires { actor_byte actor.now lane < 256 }
    ensures { result ≡ actor_byte actor.now lane }
{
    match actor {
        Actor::Host(host) => host.0 + 16 * lane,
        Actor::Manager => 0xFE,
        Actor::Sanitizer => 0xFF,
    }
}

fn write_request(request: &Request, out: &mut Bytes) -> Result<(), NoMemory>
    requires { length request.now.payload ≤ 65523 }
    ensures { OnOk result (AppendsLines out.old out.new (request_fields request.now)) }
{
    law_request_is_spelled(request);
    encode_request(request, out)
}

fn write_command(
    actor: &Actor,
    lane: u8,
    request: &Request,
    out: &mut Bytes,
) -> Result<(), NoMemory>
    requires byte { actor_byte actor.now lane < 256 }
    requires short { length request.now.payload ≤ 65523 }
    ensures { OnOk result (AppendsLines out.old out.new (act_fields actor.now lane (Act.Command request.now))) }
{
    write_u8(1, out)?;
    write_u8(byte_of(actor, lane), out)?;
    write_u16(12 + request.payload.as_slice().len() as u16, out)?;
    write_request(request, out)
}

fn write_load(actor: &Actor, lane: u8, dpa: u64, out: &mut Bytes) -> Result<(), NoMemory>
    requires { actor_byte actor.now lane < 256 }
    ensures { OnOk result (AppendsLines out.old out.new (act_fields actor.now lane (Act.Load dpa))) }
{
    write_u8(2, out)?;
    write_u8(byte_of(actor, lane), out)?;
    write_u64(dpa, out)
}

fn write_store(
    actor: &Actor,
    lane: u8,
    dpa: u64,
    value: u64,
    out: &mut Bytes,
) -> Result<(), NoMemory>
    requires { actor_byte actor.now lane < 256 }
    ensures { OnOk result (AppendsLines out.old out.new (act_fields actor.now lane (Act.Store dpa value))) }
{
    write_u8(3, out)?;
    write_u8(byte_of(actor, lane), out)?;
    write_u64(dpa, out)?;
    write_u64(value, out)
}

fn write_scrub(actor: &Actor, lane: u8, most: u16, out: &mut Bytes) -> Result<(), NoMemory>
    ensures { OnOk result (AppendsLines out.old out.new (act_fields actor.now lane (Act.Scrub most))) }
{
    write_u8(4, out)?;
    write_u16(most, out)
}

fn write_line(line: &Line, out: &mut Bytes) -> Result<(), NoMemory>
    requires { IsTrue (has_spelling line.now) }
    ensures { OnOk result (AppendsLines out.old out.new (line_fields line.now)) }
{
    match line {
        Line::Do { actor, lane, act } => match act {
            Act::Command(request) => write_command(actor, *lane, request, out),
            Act::Load(dpa) => write_load(actor, *lane, *dpa, out),
            Act::Store(dpa, value) => write_store(actor, *lane, *dpa, *value, out),
            Act::Scrub(most) => write_scrub(actor, *lane, *most, out),
        },
        Line::Mark => write_u8(5, out),
    }
}

fn write_lines(lines: &[Line], out: &mut Bytes) -> Result<(), NoMemory>
    requires { All (λ line. IsTrue (has_spelling line)) lines.now }
    ensures { OnOk result (AppendsLines out.old out.new (flat_map line_fields lines.now)) }
{
    for line in lines {
        write_line(line, out)?;
    }
    Ok(())
}

fn write_script(script: &Script, out: &mut Bytes) -> Result<(), NoMemory>
    requires { IsWritable script.now }
    ensures { OnOk result (AppendsLines out.old out.new (script_fields script.now)) }
{
    write_head(script, out)?;
    write_lines(script.lines.as_slice(), out)?;
    write_u8(0, out)
}

/// Appends the bytes of a script, with reserved bytes and bits 0. Without memory `out` is as it was.
pub fn write(script: &Script, out: &mut Bytes) -> Result<(), NoMemory>
    requires { IsWritable script.now }
    ensures appended { OnOk result (out.new ≡ out.old ++ script_bytes script.now) }
    ensures kept { OnErr result (out.new ≡ out.old) }
    ensures spelled { OnOk result (WritesScript script.now (script_bytes script.now)) }
    ensures reads_back { OnOk result (script_in (script_bytes script.now) ≡ Ok script.now) }
{
    let mut bytes = Bytes::new(out.allocator());
    write_script(script, &mut bytes)?;
    out.extend_from_slice(bytes.as_slice())
}
