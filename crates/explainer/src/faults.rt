//! The line that says why a text is refused.

ghost use Rattle.cci_codec.specs.declared.faults.MessageFault.{MessageFault};
ghost use Rattle.std.specs.Prelude.{◌≡◌, ◌++◌, OnOk, decimal};
ghost use Rattle.script_text.specs.text_lines.specs.declared.faults.Cause.{Cause};
ghost use Rattle.script_text.specs.text_lines.specs.declared.faults.Wanted.{Wanted};
ghost use Rattle.explainer.specs.Faults.{cause_text, config_text, cut_line, fault_line, message_text, of_region, of_seat, stopped_line, wanted_text};

use crate::columns::Place;
use cci_codec::MessageFault;
use dcd_base::{Bytes, NoMemory};
use region_config::ConfigFault;
use script_text::text_lines::write_decimal;
use script_text::{Cause, Keyword, Wanted};

/// Appends a word of the grammar between its marks.
fn write_keyword(keyword: Keyword, out: &mut Bytes) -> Result<(), NoMemory>
    ensures { OnOk result (out.new ≡ out.old ++ wanted_text (Wanted.Keyword keyword)) }
{
    out.push(b'`')?;
    out.extend_from_slice(keyword.text())?;
    out.push(b'`')
}

/// Appends what the grammar has at a place.
fn write_wanted(wanted: Wanted, out: &mut Bytes) -> Result<(), NoMemory>
    ensures { OnOk result (out.new ≡ out.old ++ wanted_text wanted) }
{
    match wanted {
        Wanted::Keyword(keyword) => write_keyword(keyword, out),
        Wanted::Version => out.extend_from_slice(b"version 1 or 2".as_slice()),
        Wanted::Lanes => out.extend_from_slice(b"1 to 4 lanes".as_slice()),
        Wanted::Number => out.extend_from_slice(b"a number".as_slice()),
        Wanted::Decode => out.extend_from_slice(b"a multiple of 256M".as_slice()),
        Wanted::Sizes => out.extend_from_slice(b"powers of 2 with commas between them".as_slice()),
        Wanted::Extent => out.extend_from_slice(b"START+LENGTH".as_slice()),
        Wanted::Tag => out.extend_from_slice(b"a tag of 32 hexadecimal digits".as_slice()),
        Wanted::Host => out.extend_from_slice(b"`h` and the number of a host".as_slice()),
        Wanted::Actor => out.extend_from_slice(b"a host or `fm`".as_slice()),
        Wanted::Line => {
            out.extend_from_slice(b"`mark`, `scrub`, `command`, a host or `fm`".as_slice())
        }
        Wanted::HostCommand => {
            out.extend_from_slice(b"`load`, `store` or a command of a host".as_slice())
        }
        Wanted::ManagerCommand => {
            out.extend_from_slice(b"a command of the Fabric Manager".as_slice())
        }
        Wanted::AddPolicy => out.extend_from_slice(b"a policy of an add".as_slice()),
        Wanted::ReleasePolicy => out.extend_from_slice(b"a policy of a release".as_slice()),
        Wanted::Bytes => out.extend_from_slice(b"pairs of hexadecimal digits".as_slice()),
        Wanted::End => out.extend_from_slice(b"the end of the line".as_slice()),
    }
}

/// Appends words and a number.
fn write_counted(text: &[u8], number: u64, out: &mut Bytes) -> Result<(), NoMemory>
    ensures { OnOk result (out.new ≡ out.old ++ (text.now ++ decimal number)) }
{
    out.extend_from_slice(text)?;
    write_decimal(number, out)
}

/// Appends words and a region.
fn write_of_region(text: &[u8], region: u8, out: &mut Bytes) -> Result<(), NoMemory>
    ensures { OnOk result (out.new ≡ out.old ++ (text.now ++ of_region region)) }
{
    out.extend_from_slice(text)?;
    write_counted(b" of region ".as_slice(), u64::from(region), out)?;
    Ok(())
}

/// Appends words and a region of a host.
fn write_of_seat(text: &[u8], host: u8, region: u8, out: &mut Bytes) -> Result<(), NoMemory>
    ensures { OnOk result (out.new ≡ out.old ++ (text.now ++ of_seat host region)) }
{
    out.extend_from_slice(text)?;
    write_counted(b" of host ".as_slice(), u64::from(host), out)?;
    write_counted(b", region ".as_slice(), u64::from(region), out)
}

/// Appends why a configuration is refused.
fn write_config(fault: &ConfigFault, out: &mut Bytes) -> Result<(), NoMemory>
    ensures { OnOk result (out.new ≡ out.old ++ config_text fault.now) }
{
    match fault {
        ConfigFault::Count => out.extend_from_slice(b"too many hosts or regions".as_slice()),
        ConfigFault::Base { host, region } => {
            write_of_seat(b"the base".as_slice(), *host, *region, out)
        }
        ConfigFault::BlockSize(region) => {
            write_of_region(b"the block sizes".as_slice(), *region, out)
        }
        ConfigFault::Length(region) => write_of_region(b"the length".as_slice(), *region, out),
        ConfigFault::Overlap { host, region } => write_of_seat(
            b"the base below the end of the region before it".as_slice(),
            *host,
            *region,
            out,
        ),
        ConfigFault::TooManyGranules(count) => {
            write_counted(b"granules above 4096, ".as_slice(), *count, out)
        }
        ConfigFault::NoMemory => out.extend_from_slice(b"memory".as_slice()),
    }
}

/// Appends how the length of a header differs.
fn write_lengths(field: u32, rest: u64, out: &mut Bytes) -> Result<(), NoMemory>
    ensures { OnOk result (out.new ≡ out.old ++ message_text (MessageFault.LengthDiffers field rest)) }
{
    write_counted(b"a header for ".as_slice(), u64::from(field), out)?;
    write_counted(b" bytes of payload before ".as_slice(), rest, out)?;
    Ok(())
}

/// Appends why bytes are no request.
fn write_message(fault: &MessageFault, out: &mut Bytes) -> Result<(), NoMemory>
    ensures { OnOk result (out.new ≡ out.old ++ message_text fault.now) }
{
    match fault {
        MessageFault::Short(count) => {
            write_counted(
                b"a message of fewer than 12 bytes, ".as_slice(),
                *count,
                out,
            )
        }
        MessageFault::NotRequest(category) => {
            write_counted(
                b"no request but category ".as_slice(),
                u64::from(*category),
                out,
            )
        }
        MessageFault::LengthDiffers { field, rest } => write_lengths(*field, *rest, out),
        MessageFault::NoMemory => out.extend_from_slice(b"memory".as_slice()),
    }
}

/// Appends words and what the grammar has at a place.
fn write_about(text: &[u8], wanted: Wanted, out: &mut Bytes) -> Result<(), NoMemory>
    ensures { OnOk result (out.new ≡ out.old ++ (text.now ++ wanted_text wanted)) }
{
    out.extend_from_slice(text)?;
    write_wanted(wanted, out)
}

/// Appends that a configuration is refused, and why.
fn write_bad_config(fault: &ConfigFault, out: &mut Bytes) -> Result<(), NoMemory>
    ensures { OnOk result (out.new ≡ out.old ++ cause_text (Cause.BadConfig fault.now)) }
{
    out.extend_from_slice(b"the configuration is refused for ".as_slice())?;
    write_config(fault, out)?;
    Ok(())
}

/// Appends what is wrong with a word.
fn write_cause(cause: &Cause, out: &mut Bytes) -> Result<(), NoMemory>
    ensures { OnOk result (out.new ≡ out.old ++ cause_text cause.now) }
{
    match cause {
        Cause::Wanted(wanted) => write_about(b"expected ".as_slice(), *wanted, out),
        Cause::OutOfForm(wanted) => write_about(b"out of form for ".as_slice(), *wanted, out),
        Cause::TooLarge(most) => write_counted(b"a number above ".as_slice(), *most, out),
        Cause::NoSuchActor => out.extend_from_slice(b"no such host or lane".as_slice()),
        Cause::OutOfTurn(turn) => {
            write_counted(b"out of turn, the next number is ".as_slice(), *turn, out)
        }
        Cause::BadConfig(fault) => write_bad_config(fault, out),
        Cause::BadMessage(fault) => write_message(fault, out),
        Cause::MessageTooLong => {
            out.extend_from_slice(b"more than a message has room for".as_slice())
        }
        Cause::TooManyLines => out.extend_from_slice(b"line 65537 of the script".as_slice()),
        Cause::TooLong => {
            out.extend_from_slice(b"a script of more than 16777216 bytes".as_slice())
        }
    }
}

/// Appends the line that says why a text is refused: its name, the line and the column of the fault, and what is wrong there,
/// with colons between them.
#[tactic(auto, unfolding(crate::specs::Faults::fault_line))]
pub(crate) fn write_fault(
    name: &[u8],
    place: Place,
    cause: &Cause,
    out: &mut Bytes,
) -> Result<(), NoMemory>
    ensures { OnOk result (out.new ≡ out.old ++ fault_line name.now place.line place.column cause.now) }
{
    out.extend_from_slice(name)?;
    write_counted(b":".as_slice(), place.line, out)?;
    write_counted(b":".as_slice(), place.column, out)?;
    out.extend_from_slice(b": ".as_slice())?;
    write_cause(cause, out)?;
    out.push(b'\n')
}

/// Appends the line that says that a frame ends within its script.
#[tactic(auto, unfolding(crate::specs::Faults::cut_line))]
pub(crate) fn write_cut(need: u64, have: u64, out: &mut Bytes) -> Result<(), NoMemory>
    ensures { OnOk result (out.new ≡ out.old ++ cut_line need have) }
{
    write_counted(b"frame refused: it needs ".as_slice(), need, out)?;
    write_counted(b" bytes and has ".as_slice(), have, out)?;
    out.push(b'\n')?;
    Ok(())
}

/// Appends the line that says which line of a text is the first wrong one.
#[tactic(auto, unfolding(crate::specs::Faults::stopped_line))]
pub(crate) fn write_stopped(line: u32, out: &mut Bytes) -> Result<(), NoMemory>
    ensures { OnOk result (out.new ≡ out.old ++ stopped_line line) }
{
    write_counted(b"stopped at line ".as_slice(), u64::from(line), out)?;
    out.extend_from_slice(b": no run of this script prints it".as_slice())?;
    out.push(b'\n')?;
    Ok(())
}
