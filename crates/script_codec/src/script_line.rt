//! Lines of a script.

ghost use Rattle.std.specs.Prelude.{◌≡◌, IfOk};

use cci_codec::dcd_base::{Actor, Duplicate, NoMemory, Seq};
use journal_core::Act;
use std::alloc::Global;

/// A line of a script. Lines are numbered from 1, marks among them.
#[derive(Debug, Drop)]
pub enum Line {
    /// An act of an actor.
    Do {
        actor: Actor,
        /// Which activity of the host does it, from 0; 0 for the Fabric Manager and the sanitizer.
        lane: u8,
        act: Act,
    },
    /// The end of a phase: all workers are joined.
    Mark,
}

/// The lines of a script, at most 65,536.
pub type Lines = Seq<Line>;

impl Line {
    /// An equal line. Only a command takes memory.
    pub fn copy(&self) -> Result<Line, NoMemory>
        ensures { IfOk result (λ copy. copy ≡ self.now) }
    {
        match self {
            Line::Do { actor, lane, act } => Ok(Line::Do {
                actor: *actor,
                lane: *lane,
                act: act.copy()?,
            }),
            Line::Mark => Ok(Line::Mark),
        }
    }
}

impl Duplicate for Line {
    fn duplicate_all(alloc: Global, items: &[Line]) -> Result<Vec<Line>, NoMemory> {
        let mut copies = Vec::new(alloc);
        for line in items {
            copies.push(line.copy()?)?;
        }
        Ok(copies)
    }
}
