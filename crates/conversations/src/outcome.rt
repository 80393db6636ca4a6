//! A run over ends in memory, and what it came to.

use crate::conversation::Conversation;
use dcd_base::{Bytes, MemSink, MemSource, NoMemory};
use std::alloc::{AllocGlobal, Global};
use std::sync::Wait;
use std::thread::Threads;

/// How the ends of a run behave.
#[derive(Clone, Copy, Debug, PartialEq, Eq)]
pub(crate) struct Ends {
    /// How many bytes a read gives at most, from 1.
    pub(crate) read: usize,
    /// How many bytes a write takes at most, from 1.
    pub(crate) written: usize,
    /// The number of the read that fails, counted from 1; 0 for none.
    pub(crate) failing_read: u64,
    /// The number of the write that fails, counted from 1; 0 for none.
    pub(crate) failing_write: u64,
}

/// Where what a run came to is otherwise than it has to be.
#[derive(Clone, Copy, Debug, PartialEq, Eq)]
pub(crate) enum Difference {
    /// The run has this exit status.
    Status(u8),
    /// The first line of its text that is another, from 1.
    Line(u64),
}

/// What a run came to: its exit status, and what it wrote.
#[derive(Debug, Drop)]
pub(crate) struct Outcome {
    status: u8,
    text: Bytes,
}

impl Outcome {
    /// Runs the conversation by these words over such ends.
    pub(crate) fn of<R: Threads + Wait + Sync + AllocGlobal>(
        rt: &R,
        alloc: Global,
        conversation: &Conversation,
        words: &[String],
        ends: Ends,
    ) -> Result<Outcome, NoMemory> {
        let script = Bytes::from_slice(alloc, conversation.script.as_slice())?;
        let read_fails = Vec::from_slice(alloc, &[ends.failing_read])?;
        let write_fails = Vec::from_slice(alloc, &[ends.failing_write])?;
        let mut source = MemSource::new(script, ends.read.max(1), read_fails);
        let mut sink = MemSink::new(alloc, ends.written.max(1), write_fails);
        let program = conversation.program;
        let status = program.run(rt, alloc, words, &mut source, &mut sink);
        Ok(Outcome {
            status,
            text: sink.taken().copy()?,
        })
    }

    /// Whether it is this status and this text.
    pub(crate) fn is(&self, status: u8, text: &[u8]) -> bool {
        self.status == status && self.text.as_slice() == text
    }

    /// How many bytes it wrote, if it is this status and they are a front of this text.
    pub(crate) fn front(&self, status: u8, text: &[u8]) -> Option<usize> {
        let written = self.text.as_slice();
        if self.status == status && text.starts_with(written) {
            Some(written.len())
        } else {
            None
        }
    }

    /// Where it first differs from what the conversation has to come to.
    pub(crate) fn difference(&self, conversation: &Conversation) -> Option<Difference> {
        if self.status != conversation.status {
            return Some(Difference::Status(self.status));
        }
        let mut lines = self.text.as_slice().split(|byte| *byte == b'\n');
        let mut wanted = conversation.text.as_slice().split(|byte| *byte == b'\n');
        for number in 1..u64::MAX {
            match (lines.next(), wanted.next()) {
                (None, None) => return None,
                (Some(line), Some(other)) if line == other => {}
                _ => return Some(Difference::Line(number)),
            }
        }
        None
    }
}
