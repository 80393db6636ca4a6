//! Entries of the journal.

ghost use Rattle.std.specs.Prelude.{◌≡◌, IfOk};

use crate::acts::{Act, Reply};
use crate::outcome::Effect;
use cci_codec::dcd_base::{Actor, Duplicate, NoMemory, Seq, Stamp};
use std::alloc::Global;

/// One step of the device: who did what, what was replied, and what it changed.
#[derive(Debug, Drop)]
pub struct Entry {
    /// The number of the pass that did it: of one activity of an actor.
    pub pass: u32,
    /// The line of the script that asked for it, from 1.
    pub line: u32,
    pub actor: Actor,
    pub act: Act,
    pub reply: Reply,
    /// What it changed, in order. A load or a store has no effects.
    pub effects: Effects,
    /// When it happened, relative to the others.
    pub stamp: Stamp,
}

/// What a step changes, in order.
pub type Effects = Seq<Effect>;

/// Entries in the order in which they happened.
pub type Journal = Seq<Entry>;

impl Entry {
    /// An equal entry.
    pub fn copy(&self) -> Result<Entry, NoMemory>
        ensures { IfOk result (λ copy. copy ≡ self.now) }
    {
        Ok(Entry {
            pass: self.pass,
            line: self.line,
            actor: self.actor,
            act: self.act.copy()?,
            reply: self.reply.copy()?,
            effects: self.effects.copy()?,
            stamp: self.stamp,
        })
    }
}

impl Duplicate for Entry {
    fn duplicate_all(alloc: Global, items: &[Entry]) -> Result<Vec<Entry>, NoMemory> {
        let mut copies = Vec::new(alloc);
        for entry in items {
            copies.push(entry.copy()?)?;
        }
        Ok(copies)
    }
}
