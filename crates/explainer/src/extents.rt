//! Extents in words.

ghost use Rattle.explainer.specs.PartWords.{extent_in, extent_words, sequence_words, tag_words};
ghost use Rattle.std.specs.Prelude.{◌≡◌, ◌+◌, ◌≤◌, ◌++◌, OnOk, length};

use crate::parts::write_labelled;
use dcd_base::{Bytes, Extent, NoMemory, Tag, is_no_tag, tag_at, u16_at, u64_at};
use script_text::text_lines::{write_extent, write_tag};

/// The extent that forty bytes at a place are. The last six are reserved.
#[tactic(auto, unfolding(crate::specs::PartWords::extent_in))]
pub(crate) fn extent_at(bytes: &[u8], at: usize) -> Extent
    requires { at + 40 ≤ length bytes.now }
    ensures { result ≡ extent_in bytes.now at }
{
    Extent {
        start: u64_at(bytes, at),
        length: u64_at(bytes, at + 8),
        tag: tag_at(bytes, at + 16),
        sequence: u16_at(bytes, at + 32),
    }
}

/// Appends a tag, where it is one.
#[tactic(auto, unfolding(crate::specs::PartWords::tag_words))]
fn write_tag_words(tag: &Tag, out: &mut Bytes) -> Result<(), NoMemory>
    ensures { OnOk result (out.new ≡ out.old ++ tag_words tag.now) }
{
    if is_no_tag(tag) {
        return Ok(());
    }
    out.extend_from_slice(b" tag ")?;
    write_tag(tag, out)
}

/// Appends a sequence, where it is not 0.
#[tactic(auto, unfolding(crate::specs::PartWords::sequence_words, crate::specs::PartWords::labelled))]
fn write_sequence(sequence: u16, out: &mut Bytes) -> Result<(), NoMemory>
    ensures { OnOk result (out.new ≡ out.old ++ sequence_words sequence) }
{
    if sequence == 0 {
        return Ok(());
    }
    write_labelled(b" sequence ", u64::from(sequence), out)
}

/// Appends an extent: its start and its length, and its tag and its sequence where it has them.
#[tactic(auto, unfolding(crate::specs::PartWords::extent_words))]
pub fn write_extent_words(extent: &Extent, out: &mut Bytes) -> Result<(), NoMemory>
    ensures { OnOk result (out.new ≡ out.old ++ extent_words extent.now) }
{
    out.extend_from_slice(b"extent ")?;
    write_extent(extent, out)?;
    write_tag_words(&extent.tag, out)?;
    write_sequence(extent.sequence, out)
}
