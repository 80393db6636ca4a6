//! The words of granules.

ghost use Rattle.granule_mem.specs.Contents.{AreZero, StoresWord, ZeroesWords, word_kept};
ghost use Rattle.std.specs.Prelude.{◌≡◌, ◌<◌, [], IfOk, OnErr, OnOk, length, replicate};

use crate::words::Words;
use dcd_base::{Granule, NoMemory, Run};
use std::alloc::Global;
use std::marker::Model;

/// The words of granules 0, 1, 2 and so on.
///
/// Contracts see for each granule the words that were stored there, each beside its number. A granule of which a word is
/// read or stored is one of them.
#[derive(Debug, Drop)]
pub struct GranuleWords {
    stored: Vec<Words>,
}

impl Model for GranuleWords {
    ghost use Rattle.std.specs.Prelude.{List, ℕ};

    ghost Value = { List (List (ℕ × ℕ)) };

    ghost view = { λ granules. granules.stored.items };
}

impl GranuleWords {
    /// So many granules, all words 0.
    pub fn new(alloc: Global, granules: u32) -> Result<GranuleWords, NoMemory>
        ensures granules { IfOk result (λ m. length m ≡ granules) }
        ensures fresh { IfOk result AreZero }
    {
        Ok(GranuleWords {
            stored: nothing_stored(alloc, granules)?,
        })
    }

    /// A word of a granule: the last one stored there since the granule was zeroed, else 0.
    pub fn read(&self, granule: Granule, word: u64) -> u64
        requires { granule < length self.now }
        ensures { result ≡ word_kept self.now granule word }
    {
        self.stored[granule.0 as usize].get(word)
    }

    /// Stores a word. All other words stay, of this granule too; without memory all stay.
    pub fn write(&mut self, granule: Granule, word: u64, value: u64) -> Result<(), NoMemory>
        requires { granule < length self.old }
        ensures words { OnOk result (StoresWord self.old self.new granule word value) }
        ensures granules { length self.new ≡ length self.old }
        ensures kept { OnErr result (self.new ≡ self.old) }
    {
        let stored = &mut self.stored[granule.0 as usize];
        stored.put(word, value)
    }

    /// Makes each word of the run's granules 0, as it is of those past the last. All other words stay. Takes no memory.
    pub fn zero(&mut self, run: Run)
        ensures words { ZeroesWords self.old self.new run }
        ensures granules { length self.new ≡ length self.old }
    {
        let granules = self.stored.len();
        let first = (run.first.0 as usize).min(granules);
        let end = (run.first.0 as usize + run.count as usize).min(granules);
        for granule in first..end {
            self.stored[granule].clear();
        }
    }
}

/// So many granules of which no word is stored.
fn nothing_stored(alloc: Global, granules: u32) -> Result<Vec<Words>, NoMemory>
    ensures { IfOk result (λ stored. stored.items ≡ replicate granules []) }
{
    let mut stored = Vec::with_capacity(alloc, granules as usize)?;
    for _ in 0..granules {
        stored.push(Words::new(alloc))?;
    }
    Ok(stored)
}
