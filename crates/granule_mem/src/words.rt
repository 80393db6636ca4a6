//! The words of one granule.

ghost use Rattle.granule_mem.specs.Contents.{word_among};
ghost use Rattle.granule_mem.specs.Words.{HasSameWords, IsPlaceOf, PutsWord};
ghost use Rattle.std.specs.Prelude.{◌≡◌, ◌<◌, [], IfOk, OnErr, OnOk, length};

use crate::kept::Kept;
use dcd_base::NoMemory;
use std::alloc::Global;
use std::collections::BTreeMap;
use std::marker::Model;

/// How many words are a few: so many are looked through one by one, and zeroing leaves their room.
const FEW: usize = 8;

/// The words that were stored in a granule since it was last zeroed.
///
/// Contracts see each word beside its number. The first one of a number counts.
#[derive(Debug, Drop)]
pub struct Words {
    kept: Kept,
}

impl Model for Words {
    ghost use Rattle.granule_mem.specs.Words.{kept_words};
    ghost use Rattle.std.specs.Prelude.{List, ℕ};

    ghost Value = { List (ℕ × ℕ) };

    ghost view = { λ words. kept_words words.kept };
}

impl Words {
    /// No words. Takes no memory.
    pub fn new(alloc: Global) -> Words
        ensures { result ≡ [] }
    {
        Words {
            kept: Kept::Few(Vec::new(alloc)),
        }
    }

    /// A word by its number; one that was not stored is 0.
    pub fn get(&self, word: u64) -> u64
        ensures { result ≡ word_among self.now word }
    {
        match &self.kept {
            Kept::Few(few) => word_of(few, word),
            Kept::Many(_, map) => map.get(&word).copied().unwrap_or(0),
        }
    }

    /// Stores a word. All others stay; without memory all stays.
    pub fn put(&mut self, word: u64, value: u64) -> Result<(), NoMemory>
        ensures words { OnOk result (PutsWord self.old self.new word value) }
        ensures kept { OnErr result (self.new ≡ self.old) }
    {
        match &mut self.kept {
            Kept::Many(_, map) => {
                map.insert(word, value)?;
                Ok(())
            }
            Kept::Few(few) => {
                if let Some(place) = place_of(few, word) {
                    few[place] = (word, value);
                    return Ok(());
                }
                if few.len() < FEW {
                    few.push((word, value))?;
                    return Ok(());
                }
                let alloc = *few.allocator();
                let mut map = map_of(alloc, few)?;
                map.insert(word, value)?;
                self.kept = Kept::Many(alloc, map);
                Ok(())
            }
        }
    }

    /// Makes each word 0. The room of a few words stays. Takes no memory.
    pub fn clear(&mut self)
        ensures { self.new ≡ [] }
    {
        match &mut self.kept {
            Kept::Few(few) => few.clear(),
            Kept::Many(alloc, _) => self.kept = Kept::Few(Vec::new(*alloc)),
        }
    }
}

/// Where a word first stands among a few.
fn place_of(few: &[(u64, u64)], word: u64) -> Option<usize>
    ensures { IsPlaceOf few.now word result }
{
    for place in 0..few.len() {
        if few[place].0 == word {
            return Some(place);
        }
    }
    None
}

/// A word among a few; one that is not there is 0.
fn word_of(few: &[(u64, u64)], word: u64) -> u64
    ensures { result ≡ word_among few.now word }
{
    match place_of(few, word) {
        Some(place) => few[place].1,
        None => 0,
    }
}

/// The map of a few words.
fn map_of(alloc: Global, few: &[(u64, u64)]) -> Result<BTreeMap<u64, u64>, NoMemory>
    ensures { IfOk result (λ map. HasSameWords map.entries few.now) }
{
    let mut map = BTreeMap::new(alloc);
    for done in 0..few.len() {
        let (word, value) = few[few.len() - 1 - done];
        map.insert(word, value)?;
    }
    Ok(map)
}
