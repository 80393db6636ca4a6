//! Numbers as they are printed.

ghost use Rattle.std.specs.Prelude.{◌≡◌, ◌++◌, ◌∷◌, [], ◌<◌, OnOk, decimal};
ghost use Rattle.text_lines.specs.Numbers.{hexadecimal, is_scaled as scaled_by, size_text};

use dcd_base::{Bytes, NoMemory};
use itoa::Buffer;

/// Appends a number in decimal digits.
pub fn write_decimal(number: u64, out: &mut Bytes) -> Result<(), NoMemory>
    ensures { OnOk result (out.new ≡ out.old ++ decimal number) }
{
    let mut buffer = Buffer::new();
    out.extend_from_slice(buffer.format(number).as_bytes())
}

/// Appends a number as 0x and hexadecimal digits without leading zeros.
pub fn write_hexadecimal(number: u64, out: &mut Bytes) -> Result<(), NoMemory>
    ensures { OnOk result (out.new ≡ out.old ++ hexadecimal number) }
{
    let text = format!(in out.allocator(); "{number:x}")?;
    out.extend_from_slice(b"0x".as_slice())?;
    out.extend_from_slice(text.as_bytes())
}

/// Whether the number is a whole number from 1 to 1023 times the unit.
fn is_scaled(unit: u64, number: u64) -> bool
    requires { 0 < unit }
    ensures { result ≡ scaled_by unit number }
{
    let times = number / unit;
    number % unit == 0 && 1 <= times && times <= 1023
}

/// Appends a number and the suffix behind it.
fn write_scaled(number: u64, suffix: u8, out: &mut Bytes) -> Result<(), NoMemory>
    ensures { OnOk result (out.new ≡ out.old ++ (decimal number ++ suffix ∷ [])) }
{
    write_decimal(number, out)?;
    out.push(suffix)
}

/// Appends an address, a length, a size or a word of memory: one digit below 10; else a number from 1 to 1023 with the
/// greatest suffix that serves, where one does; else 0x and hexadecimal digits.
#[tactic(auto, unfolding(crate::specs::Numbers::size_text))]
pub fn write_size(number: u64, out: &mut Bytes) -> Result<(), NoMemory>
    ensures { OnOk result (out.new ≡ out.old ++ size_text number) }
{
    if number < 10 {
        write_decimal(number, out)
    } else if is_scaled(1 << 50, number) {
        write_scaled(number / (1 << 50), b'P', out)
    } else if is_scaled(1 << 40, number) {
        write_scaled(number / (1 << 40), b'T', out)
    } else if is_scaled(1 << 30, number) {
        write_scaled(number / (1 << 30), b'G', out)
    } else if is_scaled(1 << 20, number) {
        write_scaled(number / (1 << 20), b'M', out)
    } else if is_scaled(1 << 10, number) {
        write_scaled(number / (1 << 10), b'K', out)
    } else {
        write_hexadecimal(number, out)
    }
}
