//! Bytes as pairs of hexadecimal digits.

ghost use Rattle.hex.specs.Hex.{lower_digits};
ghost use Rattle.std.specs.Prelude.{◌≡◌, ◌++◌, ◌<◌, IfOk, OnOk, slice_index, map};
ghost use Rattle.std.specs.List.{flat_map};
ghost use Rattle.text_lines.specs.Pairs.{AppendsPairs, pair_said, pair_text, pairs_said, tag_said, tag_text};
ghost use Rattle.text_lines.specs.Words.{spaced};

use crate::characters::digit_in;
use dcd_base::{Bytes, NoMemory, Tag};
use std::alloc::Global;

/// The byte of two digits.
fn pair_of(high: u8, low: u8) -> Option<u8>
    ensures { result ≡ pair_said high low }
{
    match digit_in(16, high) {
        Some(high) => match digit_in(16, low) {
            Some(low) => Some(high * 16 + low),
            None => None,
        },
        None => None,
    }
}

/// Appends the bytes that pairs of digits in lower case say, and answers whether all of the word are such pairs. Where they
/// are not, what was appended is not said.
pub fn write_pairs_of(word: &[u8], out: &mut Bytes) -> Result<bool, NoMemory>
    ensures { IfOk result (AppendsPairs out.old out.new (pairs_said word.now)) }
{
    let mut rest = word;
    while rest.len() > 1 {
        let (pair, after) = rest.split_at(2);
        let Some(byte) = pair_of(pair[0], pair[1]) else {
            return Ok(false);
        };
        out.push(byte)?;
        rest = after;
    }
    Ok(rest.is_empty())
}

/// The tag that a word says: 32 hexadecimal digits in lower case, which are its 16 bytes in order.
#[tactic(auto, unfolding(crate::specs::Pairs::tag_said))]
pub fn tag_of(alloc: Global, word: &[u8]) -> Result<Option<Tag>, NoMemory>
    ensures { IfOk result (λ tag. tag ≡ tag_said word.now) }
{
    let mut bytes = Bytes::new(alloc);
    if !write_pairs_of(word, &mut bytes)? || bytes.len() != 16 {
        return Ok(None);
    }
    let mut tag = [0u8; 16];
    tag.copy_from_slice(bytes.as_slice());
    Ok(Some(Tag(tag)))
}

/// Appends a space and the two digits of a byte.
fn write_pair(byte: u8, out: &mut Bytes) -> Result<(), NoMemory>
    ensures { OnOk result (out.new ≡ out.old ++ spaced (pair_text byte)) }
{
    let mut text = [b' '; 3];
    let (_, digits) = text.split_at_mut(1);
    let _ = hex::encode_to_slice([byte].as_slice(), digits);
    out.extend_from_slice(text.as_slice())
}

/// Appends a word of two digits for each byte, each with a space before it.
pub fn write_pairs(bytes: &[u8], out: &mut Bytes) -> Result<(), NoMemory>
    ensures { OnOk result (out.new ≡ out.old ++ flat_map spaced (map pair_text bytes.now)) }
{
    for byte in bytes {
        write_pair(*byte, out)?;
    }
    Ok(())
}

/// Appends a tag as 32 digits.
pub fn write_tag(tag: &Tag, out: &mut Bytes) -> Result<(), NoMemory>
    ensures { OnOk result (out.new ≡ out.old ++ tag_text tag.now) }
{
    let mut text = [0u8; 32];
    let _ = hex::encode_to_slice(tag.0.as_slice(), &mut text);
    out.extend_from_slice(text.as_slice())
}
