//! A script, printed as the one text that says it.

ghost use Rattle.region_config.specs.Granules.{base_of};
ghost use Rattle.text_lines.specs.script_codec.specs.Scripts.{are_lanes, is_sound_line};
ghost use Rattle.text_lines.specs.script_codec.specs.Writing.{IsWritable, has_short_message};
ghost use Rattle.script_text.specs.Layouts.{Says, base_parts, bases_of_host, host_parts, hosts_parts, region_parts, regions_parts, start_parts};
ghost use Rattle.script_text.specs.Printing.{AddsLines, AddsScriptLines, script_text};
ghost use Rattle.script_text.specs.Texts.{frame_of};
ghost use Rattle.std.specs.List.{list_all};
ghost use Rattle.std.specs.Prelude.{◌≡◌, ◌++◌, ◌*◌, ◌^◌, ◌<◌, ◌≤◌, [], ◌∷◌, IsTrue, OnOk, codes, length};
ghost use Rattle.text_lines.specs.Parts.{Form, Part, key};
ghost use Rattle.text_lines.specs.declared.keywords.Keyword.{Keyword};
ghost use Rattle.script_text.specs.LinePrinting.{AddsLine, AddsParts};

use crate::words::{
    begin_with, end_line, write_block_sizes, write_count, write_fixed, write_flag, write_key,
    write_may_count, write_named_count, write_named_number, write_number,
};
use crate::write_line;
use dcd_base::{Bytes, HostId, NoMemory, RegionId};
use region_config::{Config, RegionSpec};
use std::alloc::Global;
use text_lines::script_codec::{Line, Script};
use text_lines::{Frame, Keyword};

/// Appends the first line of version 1.
fn write_first_start(out: &mut Bytes) -> Result<(), NoMemory>
    ensures { OnOk result (AddsLine out.old out.new (key Keyword.Script ∷ Part.Fixed (codes "1") ∷ [])) }
{
    begin_with(Keyword::Script, out)?;
    write_fixed(b"1".as_slice(), out)?;
    end_line(out)?;
    Ok(())
}

/// Appends the first line of version 2, which tells the lanes.
fn write_second_start(lanes: u8, out: &mut Bytes) -> Result<(), NoMemory>
    requires { lanes ≤ 4 }
    ensures { OnOk result (AddsLine out.old out.new (key Keyword.Script ∷ Part.Fixed (codes "2") ∷ key Keyword.Lanes ∷ Part.Number Form.Count 4 lanes ∷ [])) }
{
    begin_with(Keyword::Script, out)?;
    write_fixed(b"2".as_slice(), out)?;
    write_named_count(Keyword::Lanes, 4, lanes as u64, out)?;
    end_line(out)?;
    Ok(())
}

/// Appends the first line.
fn write_start(version: u16, lanes: u8, out: &mut Bytes) -> Result<(), NoMemory>
    requires { IsTrue (are_lanes version lanes) }
    ensures { OnOk result (AddsLine out.old out.new (start_parts version lanes)) }
{
    if version == 2 {
        write_second_start(lanes, out)
    } else {
        write_first_start(out)
    }
}

/// Appends the line of a region.
fn write_region(number: u8, region: &RegionSpec, out: &mut Bytes) -> Result<(), NoMemory>
    requires number { number ≤ 254 }
    requires sizes { 0 < region.now.sizes }
    requires decode { region.now.decode_units * 2 ^ 28 < 2 ^ 64 }
    ensures { OnOk result (AddsLine out.old out.new (region_parts number region.now)) }
{
    begin_with(Keyword::Region, out)?;
    write_count(254, number as u64, out)?;
    write_named_number(Keyword::Length, region.length, out)?;
    write_named_number(Keyword::Block, region.block, out)?;
    write_key(Keyword::Sizes, out)?;
    write_block_sizes(region.sizes, out)?;
    write_named_number(Keyword::Decode, region.decode_units * 0x1000_0000, out)?;
    write_may_count(Keyword::Handle, 0xFFFF_FFFF, region.handle as u64, out)?;
    write_flag(Keyword::Sanitize, region.sanitize, out)?;
    write_flag(Keyword::Shareable, region.shareable, out)?;
    end_line(out)?;
    Ok(())
}

/// Appends the lines of the regions.
fn write_regions(config: &Config, out: &mut Bytes) -> Result<(), NoMemory>
    ensures { OnOk result (AddsLines out.old out.new (regions_parts 0 config.now.regions)) }
{
    for region in 0..config.regions() {
        write_region(region, &config.region(RegionId(region)), out)?;
    }
    Ok(())
}

/// Appends the bases of a host, region by region.
fn write_bases(config: &Config, host: HostId, out: &mut Bytes) -> Result<(), NoMemory>
    requires host { host < config.now.hosts }
    requires based { length config.now.bases ≡ config.now.hosts * length config.now.regions }
    ensures { OnOk result (AddsParts out.old out.new (base_parts (bases_of_host config.now host))) }
{
    for region in 0..config.regions() {
        write_number(config.base(host, RegionId(region)), out)?;
    }
    Ok(())
}

/// Appends the line of a host.
fn write_host(config: &Config, host: u8, out: &mut Bytes) -> Result<(), NoMemory>
    requires host { host < config.now.hosts }
    requires few { config.now.hosts ≤ 16 }
    requires based { length config.now.bases ≡ config.now.hosts * length config.now.regions }
    ensures { OnOk result (AddsLine out.old out.new (host_parts host (bases_of_host config.now host))) }
{
    begin_with(Keyword::Host, out)?;
    write_count(254, host as u64, out)?;
    write_key(Keyword::Bases, out)?;
    write_bases(config, HostId(host), out)?;
    end_line(out)?;
    Ok(())
}

/// Appends the lines of the hosts.
fn write_hosts(config: &Config, out: &mut Bytes) -> Result<(), NoMemory>
    requires { length config.now.bases ≡ config.now.hosts * length config.now.regions }
    ensures { OnOk result (AddsLines out.old out.new (hosts_parts config.now.hosts 0 (length config.now.regions) config.now.bases)) }
{
    for host in 0..config.hosts() {
        write_host(config, host, out)?;
    }
    Ok(())
}

/// Appends the lines of a script.
fn write_lines(alloc: Global, frame: Frame, lines: &[Line], out: &mut Bytes) -> Result<(), NoMemory>
    requires lanes { IsTrue (are_lanes frame.version frame.lanes) }
    requires sound { IsTrue (list_all (is_sound_line frame.hosts frame.lanes) lines.now) }
    requires short { IsTrue (list_all has_short_message lines.now) }
    ensures { OnOk result (AddsScriptLines frame out.old out.new lines.now) }
{
    for line in lines {
        write_line(alloc, frame, line, out)?;
    }
    Ok(())
}

/// Appends the one text that says the script: one line for each line of it behind those of its configuration. Where memory
/// was wanting, what was appended is not said.
pub fn print(alloc: Global, script: &Script, out: &mut Bytes) -> Result<(), NoMemory>
    requires { IsWritable script.now }
    ensures text { OnOk result (out.new ≡ out.old ++ script_text script.now) }
    ensures says { OnOk result (Says (script_text script.now) script.now) }
{
    let frame = Frame {
        version: script.version,
        hosts: script.config.hosts(),
        lanes: script.lanes,
    };
    write_start(script.version, script.lanes, out)?;
    write_regions(&script.config, out)?;
    write_hosts(&script.config, out)?;
    write_lines(alloc, frame, script.lines.as_slice(), out)?;
    Ok(())
}
