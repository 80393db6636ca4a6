//! The lines of the head: the version, the regions and the hosts.

ghost use Rattle.script_text.specs.Heads.{base_list_behind, bases_at, bases_behind, decode_ahead, extent_of_region_ahead, host_line_ahead, in_turn, in_units, lanes_ahead, region_ahead, sizes_ahead, sizes_or, some_lanes, start_ahead, told_lanes_ahead, turn_ahead, version_ahead, version_of_word as version_said};
ghost use Rattle.std.specs.Prelude.{◌≡◌, ◌+◌, ◌<◌, ◌≤◌, OnOk, length};
ghost use Rattle.text_lines.specs.Fields.{GivesWords, GivesLast, number_of_word as number_said};

use region_config::RegionSpec;
use text_lines::fields::{end, flag, keyword, may, named, number, number_of_word, one_word};
use text_lines::{Cause, Keyword, TextFault, Wanted, Words, sizes_of};

/// The version that a word says.
fn version_of_word(word: &[u8]) -> Result<u16, Cause>
    ensures { result ≡ version_said word.now }
{
    if word == b"1".as_slice() {
        Ok(1)
    } else if word == b"2".as_slice() {
        Ok(2)
    } else {
        Err(Cause::Wanted(Wanted::Version))
    }
}

/// The version, 1 or 2.
fn version(words: &mut Words<'_>) -> Result<u16, TextFault>
    ensures { GivesWords (λ version. version) result words.new (version_ahead words.old) }
{
    let read = version_of_word(words.next());
    one_word(words, Wanted::Version, read)
}

/// How many lanes a word says, 1 to 4.
fn lanes_of_word(word: &[u8]) -> Result<u8, Cause>
    ensures { result ≡ some_lanes (number_said 4 word.now) }
{
    match number_of_word(4, word) {
        Ok(0) => Err(Cause::OutOfForm(Wanted::Lanes)),
        Ok(lanes) => Ok(lanes as u8),
        Err(cause) => Err(cause),
    }
}

/// The lanes that version 2 tells.
#[tactic(auto, unfolding(crate::specs::Heads::told_lanes_ahead))]
fn told_lanes(words: &mut Words<'_>) -> Result<u8, TextFault>
    ensures { GivesWords (λ lanes. lanes) result words.new (told_lanes_ahead words.old) }
{
    keyword(words, Keyword::Lanes)?;
    let read = lanes_of_word(words.next());
    one_word(words, Wanted::Number, read)
}

/// The lanes; version 1 has one and does not say so.
fn lanes(words: &mut Words<'_>, version: u16) -> Result<u8, TextFault>
    ensures { GivesWords (λ lanes. lanes) result words.new (lanes_ahead version words.old) }
{
    if version == 2 {
        told_lanes(words)
    } else {
        Ok(1)
    }
}

/// The first line: the version and the lanes.
#[tactic(auto, unfolding(crate::specs::Heads::start_ahead))]
pub fn start(words: &mut Words<'_>) -> Result<(u16, u8), TextFault>
    ensures { GivesLast (λ start. start) result (start_ahead words.old) }
{
    keyword(words, Keyword::Script)?;
    let version = version(words)?;
    let lanes = lanes(words, version)?;
    end(words)?;
    Ok((version, lanes))
}

/// The number of a word, which is the next one.
fn turn_of_word(turn: u64, word: &[u8]) -> Result<u64, Cause>
    ensures { result ≡ in_turn turn (number_said 254 word.now) }
{
    match number_of_word(254, word) {
        Ok(number) if number == turn => Ok(number),
        Ok(_) => Err(Cause::OutOfTurn(turn)),
        Err(cause) => Err(cause),
    }
}

/// A keyword and the number of a region or a host, which is the next one.
#[tactic(auto, unfolding(crate::specs::Heads::turn_ahead))]
fn turn(words: &mut Words<'_>, name: Keyword, turn: u64) -> Result<u64, TextFault>
    ensures value { GivesWords (λ number. number) result words.new (turn_ahead name turn words.old) }
    ensures small { OnOk result (turn ≤ 254) }
{
    keyword(words, name)?;
    let read = turn_of_word(turn, words.next());
    one_word(words, Wanted::Number, read)
}

/// The block sizes that were read.
fn told_sizes(mask: Option<u64>) -> Result<u64, Cause>
    ensures { result ≡ sizes_or mask }
{
    match mask {
        Some(mask) => Ok(mask),
        None => Err(Cause::OutOfForm(Wanted::Sizes)),
    }
}

/// The block sizes, as a mask.
#[tactic(auto, unfolding(crate::specs::Heads::sizes_ahead))]
fn sizes(words: &mut Words<'_>) -> Result<u64, TextFault>
    ensures { GivesWords (λ mask. mask) result words.new (sizes_ahead words.old) }
{
    keyword(words, Keyword::Sizes)?;
    let read = told_sizes(sizes_of(words.next()));
    one_word(words, Wanted::Sizes, read)
}

/// The decode length of a word, in units of 256 MiB.
fn units_of_word(word: &[u8]) -> Result<u64, Cause>
    ensures { result ≡ in_units (number_said 18446744073709551615 word.now) }
{
    match number_of_word(u64::MAX, word) {
        Ok(bytes) if bytes % 0x1000_0000 == 0 => Ok(bytes / 0x1000_0000),
        Ok(_) => Err(Cause::OutOfForm(Wanted::Decode)),
        Err(cause) => Err(cause),
    }
}

/// The decode length, in units of 256 MiB.
#[tactic(auto, unfolding(crate::specs::Heads::decode_ahead))]
fn decode(words: &mut Words<'_>) -> Result<u64, TextFault>
    ensures { GivesWords (λ units. units) result words.new (decode_ahead words.old) }
{
    keyword(words, Keyword::Decode)?;
    let read = units_of_word(words.next());
    one_word(words, Wanted::Number, read)
}

/// What is said of a region up to its decode length.
#[tactic(auto, unfolding(crate::specs::Heads::extent_of_region_ahead))]
fn extent_of_region(words: &mut Words<'_>, number: u64) -> Result<RegionSpec, TextFault>
    ensures value { GivesWords (λ region. region) result words.new (extent_of_region_ahead number words.old) }
    ensures small { OnOk result (number ≤ 254) }
{
    turn(words, Keyword::Region, number)?;
    let length = named(words, Keyword::Length, u64::MAX)?;
    let block = named(words, Keyword::Block, u64::MAX)?;
    let sizes = sizes(words)?;
    let decode_units = decode(words)?;
    Ok(RegionSpec {
        decode_units,
        length,
        block,
        sizes,
        handle: 0,
        sanitize: false,
        shareable: false,
    })
}

/// The line of a region.
#[tactic(auto, unfolding(crate::specs::Heads::region_ahead))]
pub fn region(words: &mut Words<'_>, number: u64) -> Result<RegionSpec, TextFault>
    ensures value { GivesLast (λ region. region) result (region_ahead number words.old) }
    ensures small { OnOk result (number ≤ 254) }
{
    let region = extent_of_region(words, number)?;
    let handle = may(words, Keyword::Handle, 0xFFFF_FFFF)? as u32;
    let sanitize = flag(words, Keyword::Sanitize);
    let shareable = flag(words, Keyword::Shareable);
    end(words)?;
    Ok(RegionSpec {
        handle,
        sanitize,
        shareable,
        ..region
    })
}

/// Puts so many bases behind those that are there.
fn bases(words: &mut Words<'_>, count: u8, bases: &mut Vec<u64>) -> Result<(), TextFault>
    ensures value { GivesWords (λ _. bases.new.items) result words.new (bases_behind bases.old.items (bases_at count words.old)) }
    ensures count { OnOk result (length bases.new.items ≡ length bases.old.items + count) }
{
    for _ in 0..count {
        let base = number(words, u64::MAX)?;
        bases.push(base)?;
    }
    Ok(())
}

/// The line of a host, whose bases are put behind those that are there.
#[tactic(auto, unfolding(crate::specs::Heads::host_line_ahead))]
pub fn host_line(
    words: &mut Words<'_>,
    regions: u8,
    number: u64,
    out: &mut Vec<u64>,
) -> Result<(), TextFault>
    ensures value { GivesLast (λ _. out.new.items) result (base_list_behind out.old.items (host_line_ahead regions number words.old)) }
    ensures count { OnOk result (length out.new.items ≡ length out.old.items + regions) }
    ensures small { OnOk result (number ≤ 254) }
{
    turn(words, Keyword::Host, number)?;
    keyword(words, Keyword::Bases)?;
    bases(words, regions, out)?;
    end(words)?;
    Ok(())
}
