//! Which number a word says.

ghost use Rattle.std.specs.Option.{option_map};
ghost use Rattle.std.specs.Prelude.{◌≡◌, ◌+◌, ◌*◌, ◌==◌, ◌<◌, ◌≤◌, ◌^◌, IfSome, IsTrue, None, false, length};
ghost use Rattle.text_lines.specs.Numbers.{at_less, at_most, capped_64, digits_from, digits_said as said_by_digits, has_prefix as begins_hexadecimal, in_unit, last_character, limited, limited_64, number_said, prefixed_said, under, without_last};

use crate::characters::{digit_in, unit_of};
use crate::word_faults::NumberFault;

/// More than 64 bits have room for.
const ABOVE: u128 = 0x1_0000_0000_0000_0000;

/// One more digit behind a number, up to 2^64.
fn grown(base: u8, number: u128, digit: u8) -> u128
    requires number { number ≤ 2 ^ 64 }
    requires base { base ≤ 16 }
    ensures value { result ≡ capped_64 (number * base + digit) }
    ensures small { result ≤ 2 ^ 64 }
{
    (number * base as u128 + digit as u128).min(ABOVE)
}

/// The value of digits, up to 2^64.
fn value_of(base: u8, digits: &[u8]) -> Option<u128>
    requires low { 0 < base }
    requires high { base ≤ 16 }
    ensures value { result ≡ option_map capped_64 (digits_from base 0 digits.now) }
    ensures small { IfSome result (λ value. value ≤ 2 ^ 64) }
{
    let mut value = 0u128;
    for c in digits {
        let Some(digit) = digit_in(base, *c) else {
            return None;
        };
        value = grown(base, value, digit);
    }
    Some(value)
}

/// The value of digits, at least one.
fn digits_said(base: u8, digits: &[u8]) -> Result<u64, NumberFault>
    requires low { 0 < base }
    requires high { base ≤ 16 }
    ensures { result ≡ limited_64 (said_by_digits base digits.now) }
{
    if digits.is_empty() {
        return Err(NumberFault::NoNumber);
    }
    match value_of(base, digits) {
        Some(number) if number < ABOVE => Ok(number as u64),
        Some(_) => Err(NumberFault::TooLarge),
        None => Err(NumberFault::NoNumber),
    }
}

/// Whether the word begins as hexadecimal numbers do.
fn has_prefix(word: &[u8]) -> bool
    ensures { result ≡ begins_hexadecimal word.now }
{
    word.len() > 1 && word[0] == b'0' && word[1] == b'x'
}

/// The word without its last character.
fn front(word: &[u8]) -> &[u8]
    requires { 0 < length word.now }
    ensures { result.now ≡ without_last word.now }
{
    let (front, _) = word.split_at(word.len() - 1);
    front
}

/// The number of decimal digits, or of 0x and hexadecimal ones.
fn prefixed(word: &[u8]) -> Result<u64, NumberFault>
    ensures { result ≡ limited_64 (prefixed_said word.now) }
{
    if has_prefix(word) {
        let (_, digits) = word.split_at(2);
        digits_said(16, digits)
    } else {
        digits_said(10, word)
    }
}

/// What was read times the unit of a suffix.
fn scaled(read: Result<u64, NumberFault>, unit: u64) -> Result<u64, NumberFault>
    ensures { result ≡ in_unit unit read }
{
    match read {
        Ok(number) => match number.checked_mul(unit) {
            Some(number) => Ok(number),
            None => Err(NumberFault::TooLarge),
        },
        Err(fault) => Err(fault),
    }
}

/// The number before a suffix of this unit, and times it.
fn with_unit(word: &[u8], unit: u64) -> Result<u64, NumberFault>
    requires some { 0 < length word.now }
    requires positive { 0 < unit }
    ensures { result ≡ limited_64 (option_map (λ n. n * unit) (prefixed_said (without_last word.now))) }
{
    scaled(prefixed(front(word)), unit)
}

/// The number that a word says.
#[tactic(auto, unfolding(crate::specs::Numbers::number_said))]
fn said(word: &[u8]) -> Result<u64, NumberFault>
    ensures { result ≡ limited_64 (number_said word.now) }
{
    if word.is_empty() {
        return Err(NumberFault::NoNumber);
    }
    let last = word[word.len() - 1];
    if last == b'h' {
        return digits_said(16, front(word));
    }
    match unit_of(last) {
        Some(unit) => with_unit(word, unit),
        None => prefixed(word),
    }
}

/// What was read, where it is at most `most`.
fn limited_to(read: Result<u64, NumberFault>, most: u64) -> Result<u64, NumberFault>
    ensures { result ≡ at_most most read }
{
    match read {
        Ok(number) if number > most => Err(NumberFault::TooLarge),
        read => read,
    }
}

/// What was read, where it is below the limit.
fn below_limit(read: Result<u64, NumberFault>, limit: u64) -> Result<u64, NumberFault>
    ensures { result ≡ at_less limit read }
{
    match read {
        Ok(number) if number >= limit => Err(NumberFault::TooLarge),
        read => read,
    }
}

/// The number that a word says, which is at most `most`: `16`, `0x10` and `10h`, and with a suffix `16K` and `0x10K`.
///
/// Digits are in lower case, and the suffixes K, M, G, T and P in upper case. `NoNumber` where the word is out of form,
/// else `TooLarge` where the number is above `most`.
pub fn number_of(word: &[u8], most: u64) -> Result<u64, NumberFault>
    ensures { result ≡ limited most (number_said word.now) }
{
    limited_to(said(word), most)
}

/// The number of decimal digits, at least one and nothing else, which is below the limit.
///
/// `NoNumber` where the word is out of form, else `TooLarge` where the number is not below the limit.
pub fn decimal_of(digits: &[u8], limit: u64) -> Result<u64, NumberFault>
    ensures { result ≡ under limit (said_by_digits 10 digits.now) }
{
    below_limit(digits_said(10, digits), limit)
}
