//! A handler that keeps the calls of each pass.
ghost use Rattle.threads_tests.specs.Desks.{desk_reads};

use dcd_base::{Actor, NoMemory, Stamp};
use journal_core::{Act, Effects, Entry, Journal, Reply};
use script_runner::workers::Handler;
use std::marker::Model;
use std::sync::Wait;

/// A pass: its number, its actor and its calls.
#[derive(Drop)]
pub struct Desk {
    pub number: u32,
    pub actor: Actor,
    pub entries: Journal,
}

impl Model for Desk {
    ghost use Rattle.std.specs.Prelude.{map};
    ghost use Rattle.journal_core.specs.Merging.{call_of};
    ghost use Rattle.threads_tests.specs.Desks.{DeskState};

    ghost Value = { DeskState };

    ghost view = { λ d. record { number = d.number; actor = d.actor; calls = map call_of d.entries } };
}

/// It keeps each call, and has no memory for the line of the number `refused`.
#[derive(Drop)]
pub struct Keeper {
    pub hosts: u8,
    pub refused: u32,
}

impl Handler for Keeper {
    type Pass = Desk;

    ghost reads = { desk_reads (λ keeper. keeper.hosts) };

    fn handle<R: Wait>(
        &self,
        _rt: &R,
        pass: &mut Desk,
        line: u32,
        act: &Act,
    ) -> Result<Reply, NoMemory> {
        if line == self.refused {
            return Err(NoMemory);
        }
        let entry = Entry {
            pass: pass.number,
            line,
            actor: pass.actor,
            act: act.copy()?,
            reply: Reply::Stored,
            effects: Effects::new(pass.entries.allocator()),
            stamp: Stamp {
                number: 0,
                count: 1,
            },
        };
        pass.entries.push(entry)?;
        Ok(Reply::Stored)
    }
}
