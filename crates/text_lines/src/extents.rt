//! Which extent a word says.

ghost use Rattle.dcd_base.specs.Words.{zero_tag};
ghost use Rattle.std.specs.Prelude.{◌≡◌, ◌++◌, IfOk, OnOk};
ghost use Rattle.text_lines.specs.Extents.{extent_of_parts, extent_said, extent_text, limited_extent};

use crate::fronts::place_of;
use crate::numbers::number_of;
use crate::printing::write_size;
use crate::word_faults::NumberFault;
use dcd_base::{Bytes, Extent, NoMemory, no_tag};

/// The extent without a tag that a word says: its start and its length in bytes, with a plus sign between them.
///
/// `NoNumber` where the word is out of form, else `TooLarge` where a number of it has more than 64 bits.
pub fn extent_of(word: &[u8]) -> Result<Extent, NumberFault>
    ensures value { result ≡ limited_extent (extent_said word.now) }
    ensures untagged { IfOk result (λ extent. extent.tag ≡ zero_tag) }
    ensures alone { IfOk result (λ extent. extent.sequence ≡ 0) }
{
    let place = place_of(b'+', word);
    if place == word.len() {
        return Err(NumberFault::NoNumber);
    }
    let (start, rest) = word.split_at(place);
    let (_, length) = rest.split_at(1);
    untagged(number_of(start, u64::MAX), number_of(length, u64::MAX))
}

/// The extent of both numbers. One out of form comes before one that is too large.
fn untagged(
    start: Result<u64, NumberFault>,
    length: Result<u64, NumberFault>,
) -> Result<Extent, NumberFault>
    ensures value { result ≡ extent_of_parts start length }
    ensures untagged { IfOk result (λ extent. extent.tag ≡ zero_tag) }
    ensures alone { IfOk result (λ extent. extent.sequence ≡ 0) }
{
    match (start, length) {
        (Ok(start), Ok(length)) => Ok(Extent {
            start,
            length,
            tag: no_tag(),
            sequence: 0,
        }),
        (Err(NumberFault::NoNumber), _) | (_, Err(NumberFault::NoNumber)) => Err(
            NumberFault::NoNumber,
        ),
        _ => Err(NumberFault::TooLarge),
    }
}

/// Appends an extent without its tag: its start, a plus sign, and its length.
#[tactic(auto, unfolding(crate::specs::Extents::extent_text))]
pub fn write_extent(extent: &Extent, out: &mut Bytes) -> Result<(), NoMemory>
    ensures { OnOk result (out.new ≡ out.old ++ extent_text extent.now) }
{
    write_size(extent.start, out)?;
    out.push(b'+')?;
    write_size(extent.length, out)
}
