//! The head of a text: all of its lines before those of the script.

ghost use Rattle.script_text.specs.Heads.{host_lines_at, regions_at};
ghost use Rattle.script_text.specs.Texts.{GivesLines, TakesLineWith, config_ahead, config_checked as config_said, head_ahead, made_config, opening_read, refused_before, some_hosts_ahead, some_read, some_regions_ahead, started};
ghost use Rattle.std.specs.Prelude.{◌≡◌, ◌*◌, ◌≤◌, [], IfOk, OnOk, length};
ghost use Rattle.text_lines.specs.Fields.{GivesLast};

use crate::heads::{host_line, region, start};
use region_config::{Config, ConfigFault, RegionSpec};
use std::alloc::Global;
use text_lines::fields::{begins, refused};
use text_lines::script_codec::Head;
use text_lines::{Cause, Frame, Keyword, TextFault, TextLines, Wanted, Words, opening};

/// What is wrong before the next line, or at the end.
fn fault_at(lines: &TextLines<'_>, cause: Cause) -> TextFault
    ensures { result ≡ refused_before lines.now.end lines.now.lines cause }
{
    match lines.peek() {
        Some(words) => refused(&words, cause),
        None => TextFault::Refused {
            line: lines.end(),
            word: 1,
            cause,
        },
    }
}

/// The next line, where it begins with the keyword.
fn next_if<'a>(lines: &mut TextLines<'a>, keyword: Keyword) -> Option<Words<'a>>
    ensures { TakesLineWith keyword lines.old lines.new result }
{
    match lines.peek() {
        Some(words) if begins(&words, keyword) => lines.next(),
        _ => None,
    }
}

/// Puts the regions into the empty list, at most 255.
fn fill_regions(lines: &mut TextLines<'_>, regions: &mut Vec<RegionSpec>) -> Result<(), TextFault>
    requires { regions.old.items ≡ [] }
    ensures value { GivesLines (λ _. regions.new.items) result lines.new.lines (regions_at 0 lines.old.lines) }
    ensures few { OnOk result (length regions.new.items ≤ 255) }
    ensures end { lines.new.end ≡ lines.old.end }
{
    while let Some(mut words) = next_if(lines, Keyword::Region) {
        let region = region(&mut words, regions.len() as u64)?;
        regions.push(region)?;
    }
    Ok(())
}

/// Puts the bases of the hosts into the empty list, and answers how many hosts there are, at most 255.
fn fill_hosts(lines: &mut TextLines<'_>, regions: u8, bases: &mut Vec<u64>) -> Result<u8, TextFault>
    requires { bases.old.items ≡ [] }
    ensures value { GivesLines (λ hosts. (hosts, bases.new.items)) result lines.new.lines (host_lines_at regions 0 lines.old.lines) }
    ensures count { IfOk result (λ hosts. length bases.new.items ≡ hosts * regions) }
    ensures end { lines.new.end ≡ lines.old.end }
{
    let mut hosts = 0u64;
    while let Some(mut words) = next_if(lines, Keyword::Host) {
        host_line(&mut words, regions, hosts, bases)?;
        hosts += 1;
    }
    Ok(hosts as u8)
}

/// That at least one was read.
fn some(lines: &TextLines<'_>, keyword: Keyword, count: usize) -> Result<(), TextFault>
    ensures { GivesLast (λ x. x) result (some_read lines.now.end lines.now.lines keyword count) }
{
    if count == 0 {
        return Err(fault_at(lines, Cause::Wanted(Wanted::Keyword(keyword))));
    }
    Ok(())
}

/// At least one region.
#[tactic(auto, unfolding(crate::specs::Texts::some_regions_ahead))]
fn some_regions(alloc: Global, lines: &mut TextLines<'_>) -> Result<Vec<RegionSpec>, TextFault>
    ensures value { GivesLines (λ regions. regions.items) result lines.new.lines (some_regions_ahead lines.old.end lines.old.lines) }
    ensures few { IfOk result (λ regions. length regions.items ≤ 255) }
    ensures end { lines.new.end ≡ lines.old.end }
{
    let mut regions = Vec::new(alloc);
    fill_regions(lines, &mut regions)?;
    some(lines, Keyword::Region, regions.len())?;
    Ok(regions)
}

/// At least one host: how many there are, and their bases.
#[tactic(auto, unfolding(crate::specs::Texts::some_hosts_ahead))]
fn some_hosts(
    alloc: Global,
    lines: &mut TextLines<'_>,
    regions: u8,
) -> Result<(u8, Vec<u64>), TextFault>
    ensures value { GivesLines (λ x. (x.0, x.1.items)) result lines.new.lines (some_hosts_ahead lines.old.end regions lines.old.lines) }
    ensures count { IfOk result (λ x. length x.1.items ≡ x.0 * regions) }
    ensures end { lines.new.end ≡ lines.old.end }
{
    let mut bases = Vec::new(alloc);
    let hosts = fill_hosts(lines, regions, &mut bases)?;
    some(lines, Keyword::Host, usize::from(hosts))?;
    Ok((hosts, bases))
}

/// The first word of the next line, which stays the next one.
fn first_opening(lines: &TextLines<'_>, frame: Frame) -> Result<(), TextFault>
    ensures { GivesLast (λ x. x) result (opening_read frame lines.now.lines) }
{
    match lines.peek() {
        Some(mut words) => {
            opening(&mut words, frame)?;
            Ok(())
        }
        None => Ok(()),
    }
}

/// The configuration of these parts.
fn config_told(
    alloc: Global,
    lines: &TextLines<'_>,
    hosts: u8,
    regions: &[RegionSpec],
    bases: &[u64],
) -> Result<Config, TextFault>
    requires { length bases.now ≡ hosts * length regions.now }
    ensures value { GivesLast (λ x. x) result (config_said lines.now.end lines.now.lines (record { hosts = hosts; regions = regions.now; bases = bases.now })) }
    ensures based { IfOk result (λ config. length config.bases ≡ config.hosts * length config.regions) }
{
    match Config::new(alloc, hosts, regions, bases) {
        Ok(config) => Ok(config),
        Err(ConfigFault::NoMemory) => Err(TextFault::NoMemory),
        Err(fault) => Err(fault_at(lines, Cause::BadConfig(fault))),
    }
}

/// The head of these parts.
#[tactic(auto, unfolding(crate::specs::Texts::made_config))]
fn head_of(
    alloc: Global,
    lines: &TextLines<'_>,
    start: (u16, u8),
    hosts: u8,
    regions: &[RegionSpec],
    bases: &[u64],
) -> Result<Head, TextFault>
    requires { length bases.now ≡ hosts * length regions.now }
    ensures value { GivesLines (λ head. head) result lines.now.lines (made_config lines.now.end start regions.now ((hosts, bases.now), lines.now.lines)) }
    ensures based { IfOk result (λ head. length head.config.bases ≡ head.config.hosts * length head.config.regions) }
{
    let (version, lanes) = start;
    let frame = Frame {
        version,
        hosts,
        lanes,
    };
    first_opening(lines, frame)?;
    let config = config_told(alloc, lines, hosts, regions, bases)?;
    Ok(Head {
        version,
        lanes,
        config,
    })
}

/// The regions and the hosts.
#[tactic(auto, unfolding(crate::specs::Texts::config_ahead))]
fn config(alloc: Global, start: (u16, u8), lines: &mut TextLines<'_>) -> Result<Head, TextFault>
    ensures value { GivesLines (λ head. head) result lines.new.lines (config_ahead lines.old.end start lines.old.lines) }
    ensures based { IfOk result (λ head. length head.config.bases ≡ head.config.hosts * length head.config.regions) }
    ensures end { lines.new.end ≡ lines.old.end }
{
    let regions = some_regions(alloc, lines)?;
    let (hosts, bases) = some_hosts(alloc, lines, regions.len() as u8)?;
    head_of(
        alloc,
        lines,
        start,
        hosts,
        regions.as_slice(),
        bases.as_slice(),
    )
}

/// The first line.
fn first(lines: &mut TextLines<'_>) -> Result<(u16, u8), TextFault>
    ensures value { GivesLines (λ start. start) result lines.new.lines (started lines.old.end lines.old.lines) }
    ensures end { lines.new.end ≡ lines.old.end }
{
    match lines.next() {
        Some(mut words) => start(&mut words),
        None => Err(fault_at(lines, Cause::Wanted(Wanted::Keyword(Keyword::Script)))),
    }
}

/// The head of a text.
#[tactic(auto, unfolding(crate::specs::Texts::head_ahead))]
pub fn head(alloc: Global, lines: &mut TextLines<'_>) -> Result<Head, TextFault>
    ensures value { GivesLines (λ head. head) result lines.new.lines (head_ahead lines.old.end lines.old.lines) }
    ensures based { IfOk result (λ head. length head.config.bases ≡ head.config.hosts * length head.config.regions) }
    ensures end { lines.new.end ≡ lines.old.end }
{
    let start = first(lines)?;
    config(alloc, start, lines)
}
