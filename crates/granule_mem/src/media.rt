//! Words and holders, granule by granule.

ghost use Rattle.granule_mem.specs.Contents.{IsFresh, SetsHeld, SetsHolders, Stores, Zeroes, holders_in, word_in};
ghost use Rattle.std.specs.Prelude.{◌≡◌, ◌+◌, ◌<◌, ◌≤◌, IfOk, OnErr, OnOk, length};

use crate::granule_words::GranuleWords;
use dcd_base::{Granule, NoMemory, Run};
use std::alloc::Global;
use std::marker::Model;

/// The words and the holders of granules 0, 1, 2 and so on.
///
/// Contracts see a word by its granule and its number in it, and for each granule the bits of its holders.
/// A granule or a run that is handed in is of the memory.
#[derive(Debug, Drop)]
pub struct Memory {
    words: GranuleWords,
    held: Vec<u16>,
}

impl Model for Memory {
    ghost use Rattle.granule_mem.specs.Contents.{Media};
    ghost use Rattle.std.specs.Prelude.{◌≡◌, length};

    ghost Value = { Media };

    ghost view = { λ m. record { words = m.words; holders = m.held.items } };

    ghost invariant = { λ m. length m.words ≡ length m.held.items };
}

impl Memory {
    /// So many granules that nobody holds, all words 0.
    pub fn new(alloc: Global, granules: u32) -> Result<Memory, NoMemory>
        ensures granules { IfOk result (λ m. length m.holders ≡ granules) }
        ensures fresh { IfOk result IsFresh }
    {
        Ok(Memory {
            words: GranuleWords::new(alloc, granules)?,
            held: vec![in alloc; 0u16; granules as usize]?,
        })
    }

    /// A word of a granule: the last one stored there since the granule was zeroed, else 0.
    pub fn read(&self, granule: Granule, word: u64) -> u64
        requires { granule < length self.now.holders }
        ensures { result ≡ word_in self.now granule word }
    {
        self.words.read(granule, word)
    }

    /// Stores a word. All other words stay, of this granule too, and so do all holders; without memory all stays.
    pub fn write(&mut self, granule: Granule, word: u64, value: u64) -> Result<(), NoMemory>
        requires { granule < length self.old.holders }
        ensures words { OnOk result (Stores self.old self.new granule word value) }
        ensures holders { self.new.holders ≡ self.old.holders }
        ensures kept { OnErr result (self.new ≡ self.old) }
    {
        self.words.write(granule, word, value)
    }

    /// Makes each word of the run's granules 0. All other words and all holders stay. Takes no memory.
    pub fn zero(&mut self, run: Run)
        requires { run.first + run.count ≤ length self.old.holders }
        ensures words { Zeroes self.old self.new run }
        ensures holders { self.new.holders ≡ self.old.holders }
    {
        self.words.zero(run);
    }

    /// The hosts that hold a granule: bit h stands for host h.
    pub fn holders(&self, granule: Granule) -> u16
        requires { granule < length self.now.holders }
        ensures { result ≡ holders_in self.now granule }
    {
        self.held[granule.0 as usize]
    }

    /// Sets the holders of each granule of the run. All others and all words stay. Takes no memory.
    pub fn set_holders(&mut self, run: Run, holders: u16)
        requires { run.first + run.count ≤ length self.old.holders }
        ensures holders { SetsHolders self.old self.new run holders }
        ensures granules { length self.new.holders ≡ length self.old.holders }
        ensures words { self.new.words ≡ self.old.words }
    {
        let first = run.first.0 as usize;
        set_held(&mut self.held, first, first + run.count as usize, holders);
    }
}

/// Sets the holders of the granules from `first` to before `end`.
fn set_held(held: &mut [u16], first: usize, end: usize, holders: u16)
    requires order { first ≤ end }
    requires within { end ≤ length held.old }
    ensures length { length held.new ≡ length held.old }
    ensures holders { SetsHeld held.old held.new first end holders }
{
    for granule in first..end {
        held[granule] = holders;
    }
}
