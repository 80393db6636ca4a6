//! The block sizes that a word says.

ghost use Rattle.std.specs.Option.{option_copied};
ghost use Rattle.std.specs.Prelude.{◌≡◌, ◌++◌, ◌<◌, ◌^◌, ◌∷◌, IfSome, OnOk, length};
ghost use Rattle.text_lines.specs.Sizes.{comma_pieces, pieces_behind, size_behind, size_said, sizes_said, sizes_text, with_size as mask_with};

use crate::fronts::place_of;
use crate::numbers::number_of;
use crate::printing::write_size;
use dcd_base::{Bytes, NoMemory};

/// The block size that a piece says, a power of two.
fn size_of(piece: &[u8]) -> Option<u64>
    ensures value { result ≡ size_said piece.now }
    ensures some { IfSome result (λ size. 0 < size) }
{
    match number_of(piece, u64::MAX) {
        Ok(size) if size.is_power_of_two() => Some(size),
        _ => None,
    }
}

fn with_size(mask: u64, size: u64) -> Option<u64>
    requires { 0 < size }
    ensures { result ≡ mask_with mask size }
{
    if mask / size % 2 == 1 {
        return Some(mask);
    }
    mask.checked_add(size)
}

/// What stands before the first comma, and what stands behind it, where there is one.
fn cut_piece(word: &[u8]) -> (&[u8], Option<&[u8]>)
    ensures pieces { comma_pieces word.now ≡ result.0.now ∷ pieces_behind (option_copied result.1) }
    ensures shorter { IfSome result.1 (λ rest. length rest.now < length word.now) }
{
    let place = place_of(b',', word);
    let (piece, rest) = word.split_at(place);
    if rest.is_empty() {
        return (piece, None);
    }
    let (_, behind) = rest.split_at(1);
    (piece, Some(behind))
}

/// The mask of the block sizes that a word says, with commas between them: bit n of it stands for 2^n bytes. `None` where the
/// word is out of form, or one of them is no power of two.
#[tactic(auto, unfolding(crate::specs::Sizes::sizes_said))]
pub fn sizes_of(word: &[u8]) -> Option<u64>
    ensures { result ≡ sizes_said word.now }
{
    let mut mask = 0;
    let mut rest = word;
    loop {
        let (piece, behind) = cut_piece(rest);
        let size = size_of(piece)?;
        mask = with_size(mask, size)?;
        match behind {
            Some(next) => rest = next,
            None => return Some(mask),
        }
    }
}

/// The size that bit n of a mask stands for.
fn size_of_bit(n: u32) -> u64
    requires { n < 64 }
    ensures value { result ≡ 2 ^ n }
    ensures some { 0 < result }
{
    1 << n
}

/// Appends a size, with a comma before it unless it is the first.
fn write_one(first: bool, size: u64, out: &mut Bytes) -> Result<(), NoMemory>
    ensures { OnOk result (out.new ≡ out.old ++ size_behind first size) }
{
    if !first {
        out.push(b',')?;
    }
    write_size(size, out)
}

/// Appends the block sizes of a mask, the smallest first, with commas between them.
pub fn write_sizes(mask: u64, out: &mut Bytes) -> Result<(), NoMemory>
    ensures { OnOk result (out.new ≡ out.old ++ sizes_text mask) }
{
    let mut first = true;
    for n in 0..64u32 {
        let size = size_of_bit(n);
        if mask / size % 2 == 1 {
            write_one(first, size, out)?;
            first = false;
        }
    }
    Ok(())
}
