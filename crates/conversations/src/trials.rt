//! A run of a conversation, tried whole, in small pieces, and with a read or a write that fails.

use crate::conversation::Conversation;
use crate::outcome::{Difference, Ends, Outcome};
use dcd_base::NoMemory;
use std::alloc::{AllocGlobal, Global};
use std::sync::Wait;
use std::thread::Threads;

/// How many of the first reads, and how many of the first writes, fail in turn.
const MOST_FAILING: usize = 40;

/// As many bytes a read and a write as the run asks for.
const WHOLE: Ends = Ends {
    read: usize::MAX,
    written: usize::MAX,
    failing_read: 0,
    failing_write: 0,
};

/// A few bytes a read and a write.
const SMALL: Ends = Ends {
    read: 7,
    written: 16,
    failing_read: 0,
    failing_write: 0,
};

/// The exit status after a failed read.
const READ_FAULT: u8 = 5;

/// The exit status after a failed write.
const WRITE_FAULT: u8 = 6;

/// What comes out otherwise than it should where a conversation is run by some words.
#[derive(Clone, Copy, Debug, PartialEq, Eq)]
pub(crate) enum Wrong {
    /// The run with whole reads and writes.
    Whole(Difference),
    /// The run with reads and writes of a few bytes.
    Small(Difference),
    /// The run whose read of this number fails, from 1.
    Read(usize),
    /// The run whose write of this number fails, from 1.
    Write(usize),
}

/// What a run over such ends comes to otherwise than the conversation has to.
fn difference_of<R: Threads + Wait + Sync + AllocGlobal>(
    rt: &R,
    alloc: Global,
    conversation: &Conversation,
    words: &[String],
    ends: Ends,
) -> Result<Option<Difference>, NoMemory> {
    Ok(Outcome::of(rt, alloc, conversation, words, ends)?.difference(conversation))
}

/// What first comes out otherwise than it should where the conversation is run by these words.
pub(crate) fn first_wrong<R: Threads + Wait + Sync + AllocGlobal>(
    rt: &R,
    alloc: Global,
    conversation: &Conversation,
    words: &[String],
) -> Result<Option<Wrong>, NoMemory> {
    if let Some(difference) = difference_of(rt, alloc, conversation, words, WHOLE)? {
        return Ok(Some(Wrong::Whole(difference)));
    }
    if let Some(difference) = difference_of(rt, alloc, conversation, words, SMALL)? {
        return Ok(Some(Wrong::Small(difference)));
    }
    if let Some(call) = wrong_read(rt, alloc, conversation, words)? {
        return Ok(Some(Wrong::Read(call)));
    }
    if let Some(call) = wrong_write(rt, alloc, conversation, words)? {
        return Ok(Some(Wrong::Write(call)));
    }
    Ok(None)
}

/// How many reads of few bytes the run makes: none where the program does not read, else one more than give bytes.
fn reads_of(conversation: &Conversation, words: &[String]) -> usize {
    if conversation.program.reads(words, conversation.status) {
        conversation
            .script
            .len()
            .div_ceil(SMALL.read)
            .saturating_add(1)
    } else {
        0
    }
}

/// The first of the reads whose failure does not end the run with nothing written. The failure of a read that the run
/// does not come to changes nothing.
fn wrong_read<R: Threads + Wait + Sync + AllocGlobal>(
    rt: &R,
    alloc: Global,
    conversation: &Conversation,
    words: &[String],
) -> Result<Option<usize>, NoMemory> {
    let reads = reads_of(conversation, words);
    for call in 1..MOST_FAILING.min(reads.saturating_add(1)).saturating_add(1) {
        let ends = Ends {
            failing_read: call as u64,
            ..SMALL
        };
        let outcome = Outcome::of(rt, alloc, conversation, words, ends)?;
        let is_right = if call <= reads {
            outcome.is(READ_FAULT, &[])
        } else {
            outcome.is(conversation.status, conversation.text.as_slice())
        };
        if !is_right {
            return Ok(Some(call));
        }
    }
    Ok(None)
}

/// The first of the writes whose failure does not end the run with a front of the text that the writes before it took, each of
/// them as many bytes as it may, or some of them where the program writes in parts.
fn wrong_write<R: Threads + Wait + Sync + AllocGlobal>(
    rt: &R,
    alloc: Global,
    conversation: &Conversation,
    words: &[String],
) -> Result<Option<usize>, NoMemory> {
    let text = conversation.text.as_slice();
    let few = conversation.program.least_written(SMALL.written);
    let (mut least, mut most) = (0usize, 0usize);
    for call in 1..MOST_FAILING.saturating_add(1) {
        let ends = Ends {
            failing_write: call as u64,
            ..SMALL
        };
        let outcome = Outcome::of(rt, alloc, conversation, words, ends)?;
        if most >= text.len() && outcome.is(conversation.status, text) {
            return Ok(None);
        }
        match outcome.front(WRITE_FAULT, text) {
            Some(taken) if least <= taken && taken <= most => {
                least = taken.saturating_add(few);
                most = taken.saturating_add(SMALL.written);
            }
            _ => return Ok(Some(call)),
        }
    }
    Ok(None)
}
