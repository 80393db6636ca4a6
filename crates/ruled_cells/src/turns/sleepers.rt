//! Who sleeps for a turn.

use dcd_base::NoMemory;
use std::alloc::Global;
use std::sync::atomic::{AtomicU64, Ordering};

/// For each turn how many seats sleep until it is given back, or are about to.
///
/// Nothing that is proved rests on it. Who gives a turn back looks here, so that no wake is asked for where nobody sleeps.
#[derive(Drop)]
pub struct Sleepers {
    counts: Vec<AtomicU64>,
}

impl Sleepers {
    /// Nobody sleeps for any of so many turns.
    pub fn none(alloc: Global, turns: usize) -> Result<Sleepers, NoMemory> {
        let mut counts = Vec::new(alloc);
        for _ in 0..turns {
            counts.push(AtomicU64::new(0))?;
        }
        Ok(Sleepers { counts })
    }

    /// One more says that it will sleep. It does so before it looks at the turn for the last time.
    pub fn come(&self, turn: usize) {
        if let Some(count) = self.counts.get(turn) {
            count.fetch_add(1, Ordering::SeqCst);
        }
    }

    /// One that said so is awake.
    pub fn leave(&self, turn: usize) {
        if let Some(count) = self.counts.get(turn) {
            count.fetch_sub(1, Ordering::SeqCst);
        }
    }

    /// Whether one may sleep. Asked behind the step that gives the turn back.
    pub fn are_there(&self, turn: usize) -> bool {
        match self.counts.get(turn) {
            Some(count) => count.load(Ordering::SeqCst) != 0,
            None => true,
        }
    }
}
