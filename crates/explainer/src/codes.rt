//! Return codes by their names.

ghost use Rattle.dcd_codes.specs.Names.{name_of};
ghost use Rattle.explainer.specs.CodeWords.{code_numbered, known_code_words, return_code_words};
ghost use Rattle.std.specs.Prelude.{◌≡◌, ◌++◌, None, OnOk};

use dcd_base::{Bytes, NoMemory};
use dcd_codes::Code;
use script_text::text_lines::write_hexadecimal;

/// The code of a number.
#[tactic(auto, unfolding(crate::specs::CodeWords::code_numbered))]
fn code_numbered(number: u16) -> Option<Code>
    ensures { result ≡ code_numbered number }
{
    match number {
        0x0000 => Some(Code::Success),
        0x0002 => Some(Code::InvalidInput),
        0x0003 => Some(Code::Unsupported),
        0x0005 => Some(Code::RetryRequired),
        0x000E => Some(Code::InvalidHandle),
        0x000F => Some(Code::InvalidPhysicalAddress),
        0x0016 => Some(Code::InvalidPayloadLength),
        0x001D => Some(Code::ResourcesExhausted),
        0x001E => Some(Code::InvalidExtentList),
        _ => None,
    }
}

/// The name of a code.
fn name_of(code: Code) -> &'static [u8]
    ensures { result.now ≡ name_of code }
{
    match code {
        Code::Success => b"Success".as_slice(),
        Code::InvalidInput => b"Invalid Input".as_slice(),
        Code::Unsupported => b"Unsupported".as_slice(),
        Code::RetryRequired => b"Retry Required".as_slice(),
        Code::InvalidHandle => b"Invalid Handle".as_slice(),
        Code::InvalidPhysicalAddress => b"Invalid Physical Address".as_slice(),
        Code::InvalidPayloadLength => b"Invalid Payload Length".as_slice(),
        Code::ResourcesExhausted => b"Resources Exhausted".as_slice(),
        Code::InvalidExtentList => b"Invalid Extent List".as_slice(),
    }
}

/// Appends the number of a return code that has no name here.
fn write_unknown_code(number: u16, out: &mut Bytes) -> Result<(), NoMemory>
    ensures { OnOk result (out.new ≡ out.old ++ known_code_words None number) }
{
    out.extend_from_slice(b"return code ")?;
    write_hexadecimal(u64::from(number), out)
}

/// Appends a return code: its name, or its number where the device has none of it.
pub(crate) fn write_code(number: u16, out: &mut Bytes) -> Result<(), NoMemory>
    ensures { OnOk result (out.new ≡ out.old ++ return_code_words number) }
{
    match code_numbered(number) {
        Some(code) => out.extend_from_slice(name_of(code)),
        None => write_unknown_code(number, out),
    }
}
