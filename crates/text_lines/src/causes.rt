//! Why a command is refused, in words: the rule that it breaks first, with the values that say how.

ghost use Rattle.text_lines.specs.CauseWords.{beyond, cause_words, code_number, in_opcode, known_words, places_words, with_one, with_size, with_two};
ghost use Rattle.std.specs.Prelude.{◌≡◌, ◌++◌, OnOk};

use crate::printing::{write_decimal, write_size};
use dcd_base::{Bytes, NoMemory};
use dcd_codes::Rule;
use region_config::Config;

/// Appends words with a number between them.
#[tactic(auto, unfolding(crate::specs::CauseWords::with_one))]
fn write_one(before: &[u8], number: u64, behind: &[u8], out: &mut Bytes) -> Result<(), NoMemory>
    ensures { OnOk result (out.new ≡ out.old ++ with_one before.now number behind.now) }
{
    out.extend_from_slice(before)?;
    write_decimal(number, out)?;
    out.extend_from_slice(behind)
}

/// Appends words with a length or a size between them.
#[tactic(auto, unfolding(crate::specs::CauseWords::with_size))]
fn write_sized(before: &[u8], number: u64, behind: &[u8], out: &mut Bytes) -> Result<(), NoMemory>
    ensures { OnOk result (out.new ≡ out.old ++ with_size before.now number behind.now) }
{
    out.extend_from_slice(before)?;
    write_size(number, out)?;
    out.extend_from_slice(behind)
}

/// Appends words with two numbers between them.
#[tactic(auto, unfolding(crate::specs::CauseWords::with_two))]
fn write_two(
    before: &[u8],
    first: u64,
    between: &[u8],
    second: u64,
    behind: &[u8],
    out: &mut Bytes,
) -> Result<(), NoMemory>
    ensures { OnOk result (out.new ≡ out.old ++ with_two before.now first between.now second behind.now) }
{
    write_one(before, first, between, out)?;
    write_one(b"", second, behind, out)
}

/// Appends a return code or an opcode as the specification writes it: four hexadecimal digits and an h.
#[tactic(auto, unfolding(crate::specs::CauseWords::code_number))]
pub fn write_code_number(number: u16, out: &mut Bytes) -> Result<(), NoMemory>
    ensures { OnOk result (out.new ≡ out.old ++ code_number number) }
{
    let mut digits = [b'0'; 4];
    let _ = hex::encode_to_slice(number.to_be_bytes().as_slice(), digits.as_mut_slice());
    out.extend_from_slice(digits.as_slice())?;
    out.push(b'h')
}

/// Appends words and an opcode behind them, in four hexadecimal digits.
#[tactic(auto, unfolding(crate::specs::CauseWords::in_opcode))]
fn write_opcode(before: &[u8], opcode: u16, out: &mut Bytes) -> Result<(), NoMemory>
    ensures { OnOk result (out.new ≡ out.old ++ in_opcode before.now opcode) }
{
    out.extend_from_slice(before)?;
    write_code_number(opcode, out)
}

/// Appends which of so many there are, numbered from 0.
#[tactic(auto, unfolding(crate::specs::CauseWords::known_words))]
fn write_known(count: u64, out: &mut Bytes) -> Result<(), NoMemory>
    ensures { OnOk result (out.new ≡ out.old ++ known_words count) }
{
    match count {
        0 => out.extend_from_slice(b"there is none"),
        1 => out.extend_from_slice(b"there is 0 alone"),
        2 => out.extend_from_slice(b"there are 0 and 1"),
        _ => write_one(b"there are 0 to ", count - 1, b"", out),
    }
}

/// Appends a number that is none of so many.
#[tactic(auto, unfolding(crate::specs::CauseWords::beyond))]
fn write_beyond(before: &[u8], number: u64, count: u64, out: &mut Bytes) -> Result<(), NoMemory>
    ensures { OnOk result (out.new ≡ out.old ++ beyond before.now number count) }
{
    write_one(before, number, b"; ", out)?;
    write_known(count, out)
}

/// Appends that the log of a host has not room enough.
#[tactic(auto, unfolding(crate::specs::CauseWords::places_words))]
fn write_places(host: u64, have: u64, need: u64, out: &mut Bytes) -> Result<(), NoMemory>
    ensures { OnOk result (out.new ≡ out.old ++ places_words host have need) }
{
    write_one(b"the log of h", host, b" has room for ", out)?;
    write_two(b"", have, b" records, and ", need, b" are due", out)
}

/// Appends what is wrong with a command that breaks this rule first, on a device of this configuration.
///
/// An index counts the extents that the command tries, from 0.
#[tactic(auto, unfolding(crate::specs::CauseWords::cause_words))]
pub fn write_cause(config: &Config, rule: &Rule, out: &mut Bytes) -> Result<(), NoMemory>
    ensures { OnOk result (out.new ≡ out.old ++ cause_words config.now rule.now) }
{
    match rule {
        Rule::UnknownOpcode(opcode) => write_opcode(
            b"the actor has no command of the opcode ",
            *opcode,
            out,
        ),
        Rule::WrongLength { need, have } => write_two(
            b"the payload has ",
            *have,
            b" bytes and not ",
            *need,
            b"",
            out,
        ),
        Rule::NoSuchRegion(region) => write_beyond(
            b"no region ",
            u64::from(*region),
            u64::from(config.regions()),
            out,
        ),
        Rule::NoSuchHost(host) => write_beyond(
            b"no host ",
            u64::from(*host),
            u64::from(config.hosts()),
            out,
        ),
        Rule::PastEnd { first, total } => write_two(
            b"index ",
            u64::from(*first),
            b" is past the end, there are ",
            u64::from(*total),
            b"",
            out,
        ),
        Rule::NoSuchLog(log) => write_one(
            b"no event log ",
            u64::from(*log),
            b"; there are 0 to 4",
            out,
        ),
        Rule::UnknownHandle(handle) => write_one(
            b"no record behind those named before has the handle ",
            u64::from(*handle),
            b"",
            out,
        ),
        Rule::OlderLeft(handle) => write_one(
            b"the older record ",
            u64::from(*handle),
            b" is left out",
            out,
        ),
        Rule::NotOverflowed => out.extend_from_slice(
            b"the log has lost no record, so that `all` is not taken",
        ),
        Rule::TooManyListed(count) => write_one(
            b"",
            *count,
            b" extents are listed, held ones among them; 64 is the most",
            out,
        ),
        Rule::ZeroLength(index) => write_one(
            b"extent ",
            u64::from(*index),
            b" has the length 0",
            out,
        ),
        Rule::OutsideRegion(index) => write_one(
            b"extent ",
            u64::from(*index),
            b" does not lie within one region of the host, or not in the named one",
            out,
        ),
        Rule::Unaligned(index) => write_one(
            b"extent ",
            u64::from(*index),
            b" does not begin and end with blocks of its region",
            out,
        ),
        Rule::NotOffered(index) => write_one(
            b"extent ",
            u64::from(*index),
            b" lies in no one extent of the host's oldest offer",
            out,
        ),
        Rule::NotAccepted(index) => write_one(
            b"extent ",
            u64::from(*index),
            b" lies in no one extent that the host has",
            out,
        ),
        Rule::NotFree(index) => write_one(b"extent ", u64::from(*index), b" is not free", out),
        Rule::Overlap { index, with } => write_two(
            b"extent ",
            u64::from(*index),
            b" overlaps extent ",
            u64::from(*with),
            b"",
            out,
        ),
        Rule::NotWhole(index) => write_one(
            b"extent ",
            u64::from(*index),
            b" is a part of a shared extent, which is taken and given back whole",
            out,
        ),
        Rule::TagIncomplete { listed, need } => write_two(
            b"",
            u64::from(*listed),
            b" of the ",
            u64::from(*need),
            b" extents of a shared tag are listed, which go together",
            out,
        ),
        Rule::TooManyExtents(count) => write_one(
            b"the host would have ",
            *count,
            b" extents, offered ones among them; 64 is the most",
            out,
        ),
        Rule::NoSuchPolicy(policy) => write_one(b"no policy ", u64::from(*policy), b"", out),
        Rule::EmptyList => out.extend_from_slice(b"no extent is listed"),
        Rule::NotShareable(region) => write_one(
            b"region ",
            u64::from(*region),
            b" is not shareable",
            out,
        ),
        Rule::ZeroTag => out.extend_from_slice(b"a tag is wanted"),
        Rule::TagInUse => out.extend_from_slice(b"the tag is in use"),
        Rule::NoSuchTag => out.extend_from_slice(b"no live tag is this one"),
        Rule::AlreadyShared => out.extend_from_slice(b"the host has the tag, or is offered it"),
        Rule::BadLength(length) => write_sized(
            b"the length ",
            *length,
            b" is 0 or no whole number of blocks",
            out,
        ),
        Rule::TooFewFree { need, have } => write_two(
            b"needs ",
            *need,
            b" free blocks, ",
            *have,
            b" are free (side by side, where the add is contiguous)",
            out,
        ),
        Rule::TooManyTags(count) => write_one(
            b"the host would have ",
            u64::from(*count),
            b" tags; 32 is the most",
            out,
        ),
        Rule::LogFull { host, need, have } => write_places(
            u64::from(*host),
            u64::from(*have),
            u64::from(*need),
            out,
        ),
        Rule::UnsupportedFlag => out.extend_from_slice(
            b"a flag is set that the device does not have",
        ),
        Rule::NotSupportedSize(size) => write_sized(
            b"the block size ",
            *size,
            b" is none of the region's",
            out,
        ),
        Rule::SanitizeDiffers => out.extend_from_slice(
            b"the sanitize flag is not as the region is configured",
        ),
        Rule::RegionInUse(count) => write_one(
            b"",
            u64::from(*count),
            b" granules of the region are not free",
            out,
        ),
        Rule::NoReference => out.extend_from_slice(b"the manager has no reference to the tag"),
    }
}
