//! Commands and scrubs that are lent from where they are kept.

ghost use Rattle.kept_journal.specs.Keeping.{act_in, reply_in, step_entry};
ghost use Rattle.journal_core.specs.Seen.{kind_of, seen_reply};
ghost use Rattle.kept_journal.specs.Tokens.{without_extents};
ghost use Rattle.std.specs.Prelude.{◌≡◌, IfOk, drop, take};

use crate::gathering::effects_told;
use crate::kept_steps::{Exchange, KeptStep};
use crate::without_extents::WithoutExtents;
use cci_codec::{Payload, Request, Response};
use dcd_base::{Actor, Bytes, NoMemory, Stamp};
use journal_core::{Act, ActKind, Entry, Reply, ReplySeen, ResponseSeen, StepSeen};
use std::alloc::Global;

/// A command or a scrub that is lent: what is kept of it, its bytes, and its number among the commands and scrubs.
#[derive(Clone, Copy, Debug)]
pub struct LentStep<'a> {
    pub(crate) alloc: Global,
    pub(crate) step: &'a KeptStep,
    pub(crate) bytes: &'a [u8],
    pub(crate) number: u64,
}

/// The first bytes, so many or all.
#[inline]
fn first(bytes: &[u8], n: u16) -> &[u8]
    ensures { result.now ≡ take n bytes.now }
{
    let (front, _) = bytes.split_at(bytes.len().min(usize::from(n)));
    front
}

/// What is behind so many bytes.
#[inline]
fn behind(bytes: &[u8], n: u16) -> &[u8]
    ensures { result.now ≡ drop n bytes.now }
{
    let (_, back) = bytes.split_at(bytes.len().min(usize::from(n)));
    back
}

impl<'a> LentStep<'a> {
    /// The payload of the request.
    #[inline]
    fn asked(&self) -> &'a [u8]
        ensures { result.now ≡ take self.now.step.now.asked self.now.bytes.now }
    {
        first(self.bytes, self.step.asked)
    }

    /// The payload of the response.
    #[inline]
    fn replied(&self) -> &'a [u8]
        ensures { result.now ≡ take self.now.step.now.replied (drop self.now.step.now.asked self.now.bytes.now) }
    {
        first(behind(self.bytes, self.step.asked), self.step.replied)
    }

    /// The bytes that tell the effects.
    #[inline]
    fn told(&self) -> &'a [u8]
        ensures { result.now ≡ drop self.now.step.now.replied (drop self.now.step.now.asked self.now.bytes.now) }
    {
        behind(behind(self.bytes, self.step.asked), self.step.replied)
    }

    /// What the line of a printed journal is made of.
    #[inline]
    pub(crate) fn seen(&self) -> StepSeen<'a>
        ensures line { result.line ≡ (step_entry self.now.number self.now.step.now self.now.bytes.now).line }
        ensures actor { result.actor ≡ (step_entry self.now.number self.now.step.now self.now.bytes.now).actor }
        ensures kind { result.kind ≡ kind_of (step_entry self.now.number self.now.step.now self.now.bytes.now).act }
        ensures reply { seen_reply result.reply ≡ (step_entry self.now.number self.now.step.now self.now.bytes.now).reply }
    {
        match self.step.exchange {
            Exchange::Command(command) => StepSeen {
                line: self.step.line,
                actor: self.step.actor,
                kind: ActKind::Command,
                reply: ReplySeen::Answer(ResponseSeen {
                    tag: command.tag,
                    opcode: command.opcode,
                    code: command.code,
                    payload: self.replied(),
                }),
            },
            Exchange::Scrub(scrub) => StepSeen {
                line: self.step.line,
                actor: self.step.actor,
                kind: ActKind::Scrub,
                reply: ReplySeen::Scrubbed(u32::from(scrub.zeroed)),
            },
        }
    }

    /// The act, as one of its own.
    pub(crate) fn act(&self) -> Result<Act, NoMemory>
        ensures { IfOk result (λ act. act ≡ (step_entry self.now.number self.now.step.now self.now.bytes.now).act) }
    {
        match self.step.exchange {
            Exchange::Command(command) => Ok(Act::Command(Request {
                tag: command.tag,
                opcode: command.opcode,
                payload: Payload::from_slice(self.alloc, self.asked())?,
            })),
            Exchange::Scrub(scrub) => Ok(Act::Scrub(scrub.most)),
        }
    }

    /// The reply, as one of its own.
    fn reply(&self) -> Result<Reply, NoMemory>
        ensures { IfOk result (λ reply. reply ≡ (step_entry self.now.number self.now.step.now self.now.bytes.now).reply) }
    {
        match self.step.exchange {
            Exchange::Command(command) => Ok(Reply::Answer(Response {
                tag: command.tag,
                opcode: command.opcode,
                code: command.code,
                payload: Bytes::from_slice(self.alloc, self.replied())?,
            })),
            Exchange::Scrub(scrub) => Ok(Reply::Scrubbed(u32::from(scrub.zeroed))),
        }
    }

    pub(crate) fn actor(&self) -> Actor
        ensures { result ≡ (step_entry self.now.number self.now.step.now self.now.bytes.now).actor }
    {
        self.step.actor
    }

    /// Those of the effects that have no extents, one after another.
    pub(crate) fn effects_without_extents(&self) -> WithoutExtents<'a>
        ensures { result ≡ without_extents (step_entry self.now.number self.now.step.now self.now.bytes.now).effects }
    {
        WithoutExtents::told_by(self.told())
    }

    /// An entry of its own, with all of this.
    pub(crate) fn entry(&self) -> Result<Entry, NoMemory>
        ensures { IfOk result (λ entry. entry ≡ step_entry self.now.number self.now.step.now self.now.bytes.now) }
    {
        Ok(Entry {
            pass: self.step.pass,
            line: self.step.line,
            actor: self.step.actor,
            act: self.act()?,
            reply: self.reply()?,
            effects: effects_told(self.alloc, self.told())?,
            stamp: Stamp {
                number: self.number,
                count: 0,
            },
        })
    }
}
