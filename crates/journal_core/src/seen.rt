//! What is seen of a step that is lent: what the line of a printed journal is made of.

ghost use Rattle.journal_core.specs.Seen.{kind_of, seen_reply};
ghost use Rattle.std.specs.Prelude.{◌≡◌};

use crate::acts::{Act, Reply};
use cci_codec::dcd_base::{AccessFault, Actor};

/// What kind of act it is.
#[derive(Clone, Copy, Debug, PartialEq, Eq)]
pub enum ActKind {
    Command,
    Load,
    Store,
    Scrub,
}

/// A response (CXL 3.1, 7.6.3) whose payload is lent.
#[derive(Clone, Copy, Debug)]
pub struct ResponseSeen<'a> {
    /// The output payload.
    pub payload: &'a [u8],
    /// The message tag of the request.
    pub tag: u8,
    /// The opcode of the request.
    pub opcode: u16,
    /// The return code; 0 is Success.
    pub code: u16,
}

/// A reply whose payload is lent.
#[derive(Clone, Copy, Debug)]
pub enum ReplySeen<'a> {
    /// The response to a command.
    Answer(ResponseSeen<'a>),
    /// The word that a load read.
    Word(u64),
    /// A store was done.
    Stored,
    /// A load or a store was refused.
    Refused(AccessFault),
    /// How many granules a scrub zeroed.
    Scrubbed(u32),
}

/// A step that is lent: who did what kind of act, for which line, and what was replied.
#[derive(Clone, Copy, Debug)]
pub struct StepSeen<'a> {
    /// The line of the script that asked for it, from 1.
    pub line: u32,
    pub actor: Actor,
    pub kind: ActKind,
    pub reply: ReplySeen<'a>,
}

impl Act {
    /// What kind of act it is.
    #[inline]
    pub fn kind(&self) -> ActKind
        ensures { result ≡ kind_of self.now }
    {
        match self {
            Act::Command(_) => ActKind::Command,
            Act::Load(_) => ActKind::Load,
            Act::Store(_, _) => ActKind::Store,
            Act::Scrub(_) => ActKind::Scrub,
        }
    }
}

impl Reply {
    /// The reply, lent.
    #[inline]
    pub fn seen(&self) -> ReplySeen<'_>
        ensures { seen_reply result ≡ self.now }
    {
        match self {
            Reply::Answer(response) => ReplySeen::Answer(ResponseSeen {
                tag: response.tag,
                opcode: response.opcode,
                code: response.code,
                payload: response.payload.as_slice(),
            }),
            Reply::Word(word) => ReplySeen::Word(*word),
            Reply::Stored => ReplySeen::Stored,
            Reply::Refused(fault) => ReplySeen::Refused(*fault),
            Reply::Scrubbed(count) => ReplySeen::Scrubbed(*count),
        }
    }
}
