//! The words that a host stored, by their DPA.

ghost use Rattle.granule_mem.specs.Contents.{word_among};
ghost use Rattle.isolation_laws.specs.Solo.{accepts_byte, has_byte};
ghost use Rattle.std.specs.List.{list_any};
ghost use Rattle.std.specs.Prelude.{◌≡◌, ◌==◌, OnOk, if◌then◌else◌, ℕ};

use dcd_base::{Extent, NoMemory};
use journal_core::Effect;
use std::collections::BTreeMap;

/// Whether the extent has the address.
pub(crate) fn has_byte(extent: &Extent, dpa: u64) -> bool
    ensures { result ≡ has_byte dpa extent.now }
{
    extent.start <= dpa && dpa - extent.start < extent.length
}

/// The word at the address: 0 where none is kept.
pub(crate) fn word_at(words: &BTreeMap<u64, u64>, dpa: u64) -> u64
    ensures { result ≡ word_among words.now.entries dpa }
{
    words.get(&dpa).copied().unwrap_or(0)
}

/// Stores a word. Every other word stays, and without memory all do.
pub(crate) fn store_word(
    words: &mut BTreeMap<u64, u64>,
    dpa: u64,
    value: u64,
) -> Result<(), NoMemory>
    ensures stored { OnOk result ((d : ℕ) → word_among words.new.entries d ≡ (if dpa == d then value else word_among words.old.entries d)) }
{
    words.insert(dpa, value)?;
    Ok(())
}

/// The words at the addresses of the extents that the effect brings are 0, if it brings any.
pub(crate) fn clear_words(words: &mut BTreeMap<u64, u64>, effect: &Effect)
    ensures { (d : ℕ) → word_among words.new.entries d ≡ (if accepts_byte d effect.now then 0 else word_among words.old.entries d) }
{
    match effect {
        Effect::Answer(_, extents) => clear_extents(words, extents.as_slice()),
        _ => (),
    }
}

/// The words at the addresses of the extents are 0.
fn clear_extents(words: &mut BTreeMap<u64, u64>, extents: &[Extent])
    ensures { (d : ℕ) → word_among words.new.entries d ≡ (if list_any (has_byte d) extents.now then 0 else word_among words.old.entries d) }
{
    for i in 0..extents.len() {
        clear_extent(words, &extents[i]);
    }
}

/// The words at the addresses of the extent are 0.
fn clear_extent(words: &mut BTreeMap<u64, u64>, extent: &Extent)
    ensures { (d : ℕ) → word_among words.new.entries d ≡ (if has_byte d extent.now then 0 else word_among words.old.entries d) }
{
    words.retain(|dpa, _| !has_byte(extent, *dpa));
}
