//! What an actor is told, in a word.

use crate::trouble::Trouble;
use dcd_base::AccessFault;
use journal_core::Reply;
use script_runner::shared_device::TryFault;

/// What is replied to a step.
#[derive(Clone, Copy, Debug, PartialEq, Eq)]
pub enum Told {
    Success,
    /// A command was refused, by this return code.
    Code(u16),
    Word(u64),
    Stored,
    Refused(AccessFault),
    Scrubbed(u32),
    /// The turn is that of the pass with this number.
    Busy(u32),
}

/// What a reply tells.
pub fn told_by(reply: &Reply) -> Told {
    match reply {
        Reply::Answer(response) => if response.code == 0 {
            Told::Success
        } else {
            Told::Code(response.code)
        },
        Reply::Word(word) => Told::Word(*word),
        Reply::Stored => Told::Stored,
        Reply::Refused(fault) => Told::Refused(*fault),
        Reply::Scrubbed(count) => Told::Scrubbed(*count),
    }
}

/// What a call that waits for nobody came to.
pub fn tried_by(answer: Result<Reply, TryFault>) -> Result<Told, Trouble> {
    match answer {
        Ok(reply) => Ok(told_by(&reply)),
        Err(TryFault::Busy { seat_seen }) => Ok(Told::Busy(seat_seen)),
        Err(TryFault::NoMemory) => Err(Trouble::NoMemory),
    }
}
