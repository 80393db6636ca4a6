//! Commands and scrubs, kept small.

ghost use Rattle.kept_journal.specs.Keeping.{IsExchangeOf, Keeps, asked_of, kept_entry, replied_of, width_of};
ghost use Rattle.kept_journal.specs.Lending.{lent_entry};
ghost use Rattle.std.specs.Prelude.{◌≡◌, ◌++◌, ◌<◌, ◌^◌, ℕ, IfSome, List, length};

use crate::lending::Lent;
use crate::lent_steps::LentStep;
use dcd_base::{Actor, Boxed, Stamp};
use journal_core::{Act, Entry, Reply};
use std::alloc::Global;

/// An entry is kept apart where a payload has so many bytes or more.
const LONG_PAYLOAD: usize = 0x1_0000;

/// And where as many or more tell its effects.
const LONG: usize = 0x4000_0000;

/// A command that was answered, without its payloads.
#[derive(Clone, Copy, Debug)]
pub struct AnsweredCommand {
    /// The message tag of the request and of the response.
    pub tag: u8,
    /// The opcode of both.
    pub opcode: u16,
    /// The return code.
    pub code: u16,
}

/// A turn of the sanitizer.
#[derive(Clone, Copy, Debug)]
pub struct DoneScrub {
    /// How many granules it might zero.
    pub most: u16,
    /// How many it zeroed.
    pub zeroed: u16,
}

/// What was asked and replied, without the payloads.
#[derive(Clone, Copy, Debug)]
pub enum Exchange {
    Command(AnsweredCommand),
    Scrub(DoneScrub),
}

/// A command or a scrub without its payloads and effects, whose bytes lie elsewhere: first the payload of the request, then
/// that of the response, then the bytes that tell the effects.
#[derive(Clone, Copy, Debug)]
pub struct KeptStep {
    pub(crate) pass: u32,
    pub(crate) line: u32,
    /// How many bytes there are in all.
    pub(crate) width: u32,
    /// How many of them the payload of the request has.
    pub(crate) asked: u16,
    /// How many that of the response has.
    pub(crate) replied: u16,
    pub(crate) actor: Actor,
    pub(crate) exchange: Exchange,
}

/// An entry as it is kept.
#[derive(Debug, Drop)]
pub enum Kept {
    /// One whose payloads and effects lie in the bytes beside it.
    Step(KeptStep),
    /// Any other.
    Apart(Boxed<Entry>),
}

/// The payload of a request.
pub(crate) fn payload_asked(act: &Act) -> &[u8]
    ensures { result.now ≡ asked_of act.now }
{
    match act {
        Act::Command(request) => request.payload.as_slice(),
        _ => &[],
    }
}

/// The payload of a response.
pub(crate) fn payload_replied(reply: &Reply) -> &[u8]
    ensures { result.now ≡ replied_of reply.now }
{
    match reply {
        Reply::Answer(response) => response.payload.as_slice(),
        _ => &[],
    }
}

/// What was asked and replied, if it is of the kind that is kept small.
fn exchanged(act: &Act, reply: &Reply) -> Option<Exchange>
    ensures { IfSome result (λ exchange. IsExchangeOf exchange act.now reply.now) }
{
    match (act, reply) {
        (Act::Command(request), Reply::Answer(response)) => {
            if request.tag == response.tag && request.opcode == response.opcode {
                Some(Exchange::Command(AnsweredCommand {
                    tag: request.tag,
                    opcode: request.opcode,
                    code: response.code,
                }))
            } else {
                None
            }
        }
        (Act::Scrub(most), Reply::Scrubbed(zeroed)) => {
            if *zeroed < 65536 {
                Some(Exchange::Scrub(DoneScrub {
                    most: *most,
                    zeroed: *zeroed as u16,
                }))
            } else {
                None
            }
        }
        _ => None,
    }
}

/// How many bytes a payload has, if it is not long.
#[inline]
fn short(payload: &[u8]) -> Option<u16>
    ensures { IfSome result (λ n. n ≡ length payload.now) }
{
    let n = payload.len();
    if n < LONG_PAYLOAD {
        Some(n as u16)
    } else {
        None
    }
}

/// How many bytes there are, if they are few.
#[inline]
fn few(bytes: &[u8]) -> Option<u32>
    ensures { IfSome result (λ n. (n ≡ length bytes.now) × (n < 2 ^ 30)) }
{
    let n = bytes.len();
    if n < LONG { Some(n as u32) } else { None }
}

impl KeptStep {
    /// The step of this act and this reply whose effects these bytes tell, if it can be kept small.
    pub(crate) fn of(
        pass: u32,
        line: u32,
        actor: Actor,
        act: &Act,
        reply: &Reply,
        told: &[u8],
    ) -> Option<KeptStep>
        ensures { IfSome result (λ step. Keeps step pass line actor act.now (reply.now, told.now)
            (asked_of act.now ++ (replied_of reply.now ++ told.now))) }
    {
        let exchange = exchanged(act, reply)?;
        let asked = short(payload_asked(act))?;
        let replied = short(payload_replied(reply))?;
        let told = few(told)?;
        Some(KeptStep {
            pass,
            line,
            width: u32::from(asked) + u32::from(replied) + told,
            asked,
            replied,
            actor,
            exchange,
        })
    }
}

impl Kept {
    /// How many of the bytes beside it are its own.
    #[inline]
    pub(crate) fn width(&self) -> usize
        ensures { result ≡ width_of self.now }
    {
        match self {
            Kept::Step(step) => step.width as usize,
            Kept::Apart(_) => 0,
        }
    }

    /// The stamp of its entry, which is that of its number where it is not apart.
    #[inline]
    pub(crate) fn stamp(&self, number: u64) -> Stamp
        ensures { (bytes : List ℕ) → result ≡ (kept_entry number self.now bytes).stamp }
    {
        match self {
            Kept::Step(_) => Stamp { number, count: 0 },
            Kept::Apart(entry) => entry.get().stamp,
        }
    }

    /// Its entry, lent, with the bytes that are its own.
    #[inline]
    pub(crate) fn lend<'a>(&'a self, alloc: Global, bytes: &'a [u8], number: u64) -> Lent<'a>
        ensures { lent_entry result ≡ kept_entry number self.now bytes.now }
    {
        match self {
            Kept::Step(step) => Lent::Step(LentStep {
                alloc,
                step,
                bytes,
                number,
            }),
            Kept::Apart(entry) => Lent::Full(entry.get()),
        }
    }
}
