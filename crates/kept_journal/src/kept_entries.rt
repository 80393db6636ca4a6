//! The commands and scrubs of a device, kept in order in little room.

ghost use Rattle.journal_core.specs.Entries.{next_entry, next_stamp};
ghost use Rattle.journal_core.specs.Merging.{Rising};
ghost use Rattle.journal_core.specs.declared.entries.Entry.{Entry};
ghost use Rattle.kept_journal.specs.Keeping.{HoldsStep, PutOrNot, asked_of, replied_of};
ghost use Rattle.kept_journal.specs.Lending.{lent};
ghost use Rattle.std.specs.Prelude.{◌≡◌, ◌+◌, ◌++◌, ◌^◌, ◌∷◌, ◌<◌, ◌≤◌, [], IfOk, List, None, OnErr, OnOk, Some, length};
ghost use Rattle.std.specs.Vec.{vec_capacity, vec_len};

use crate::coding::Coder;
use crate::kept_steps::{Kept, KeptStep, payload_asked, payload_replied};
use crate::lending::Lent;
use crate::lent_lists::LentEntries;
use dcd_base::{Actor, Boxed, NoMemory, Stamp};
use journal_core::{Act, Effect, Effects, Entry, Reply};
use std::alloc::Global;
use std::marker::Model;

/// For how many entries room is made at a time at least, 32 bytes each: so much is a mapping of its own, which grows without a
/// copy.
const ENTRIES_AT_ONCE: usize = 4_096;

/// For how many bytes room is made at a time at least.
const BYTES_AT_ONCE: usize = 262_144;

/// So many bytes tell an effect or an extent of it at most: two for each of the eight bytes of sixteen numbers, and its kind.
const LONGEST_TOKEN: usize = 16 * 16 + 1;

/// Commands and scrubs in the order in which they happened.
///
/// Contracts see the entries, and how many more there is room for. The payloads of an entry, and some bytes that tell its
/// effects, lie in one block behind those of the entry before, and what else it says takes 32 bytes. An entry that is no
/// answered command and no scrub, or for whose bytes there is no memory, lies on the heap by itself.
#[derive(Drop)]
pub struct KeptEntries {
    alloc: Global,
    kept: Vec<Kept>,
    /// Has the bytes, and writes those that tell the effects of the next entry behind them.
    coder: Coder,
}

impl Model for KeptEntries {
    ghost use Rattle.kept_journal.specs.Keeping.{Keeping, keeping_of, widths};
    ghost use Rattle.std.specs.Prelude.{◌≡◌, length};

    ghost Value = { Keeping };

    ghost view = { λ k. keeping_of k.kept k.coder.bytes };

    ghost invariant = { λ k. widths k.kept.items ≡ length k.coder.bytes.items };
}

/// Makes room for so many more bytes.
fn reserve(bytes: &mut Vec<u8>, more: usize) -> Result<(), NoMemory>
    ensures room { OnOk result (vec_len bytes.new + more ≤ vec_capacity bytes.new) }
    ensures kept { bytes.new.items ≡ bytes.old.items }
{
    if more <= bytes.capacity() - bytes.len() {
        return Ok(());
    }
    Ok(bytes.reserve(more.max(BYTES_AT_ONCE))?)
}

/// Puts bytes behind the others. It takes no memory.
fn append_part(bytes: &mut Vec<u8>, part: &[u8])
    requires { vec_len bytes.old + length part.now ≤ vec_capacity bytes.old }
    ensures put { bytes.new.items ≡ bytes.old.items ++ part.now }
    ensures room { vec_capacity bytes.old ≤ vec_capacity bytes.new }
{
    let _ = bytes.extend_from_slice(part);
}

/// Puts the payloads of a step behind the bytes and what tells its effects behind them, and answers where that begins. Without
/// memory the bytes are as before.
fn append_bytes(
    coder: &mut Coder,
    act: &Act,
    reply: &Reply,
    effects: &[Effect],
) -> Result<usize, NoMemory>
    ensures put { IfOk result (HoldsStep coder.old.bytes.items coder.new.bytes.items (asked_of act.now, replied_of reply.now) effects.now) }
    ensures kept { OnErr result (coder.new.bytes.items ≡ coder.old.bytes.items) }
{
    let before = coder.bytes.len();
    let asked = payload_asked(act);
    let replied = payload_replied(reply);
    reserve(&mut coder.bytes, asked.len() + replied.len())?;
    append_part(&mut coder.bytes, asked);
    append_part(&mut coder.bytes, replied);
    let at = coder.bytes.len();
    match coder.tell(effects) {
        Ok(()) => Ok(at),
        Err(NoMemory) => {
            coder.bytes.truncate(before);
            Err(NoMemory)
        }
    }
}

/// So many bytes tell the effects at most.
fn most_bytes(effects: &[Effect]) -> usize {
    let mut most: usize = 0;
    for effect in effects {
        let extents = match effect {
            Effect::Offer(_, extents) => extents.len(),
            Effect::Answer(_, extents) => extents.len(),
            Effect::Hold(_, _, extents) => extents.len(),
            _ => 0,
        };
        most = most.saturating_add(extents.saturating_add(1).saturating_mul(LONGEST_TOKEN));
    }
    most
}

impl KeptEntries {
    /// No entry.
    #[tactic(auto, using(crate::proofs::Keepings::no_entries))]
    pub fn new(alloc: Global) -> KeptEntries
        ensures { result.entries ≡ [] }
    {
        KeptEntries {
            alloc,
            kept: Vec::new(alloc),
            coder: Coder::new(alloc),
        }
    }

    /// How many entries there are, which are fewer than 2^63.
    pub fn len(&self) -> usize
        ensures value { result ≡ length self.now.entries }
        ensures few { result < 2 ^ 63 }
    {
        self.kept.as_slice().len()
    }

    /// Makes room for one more entry.
    pub fn make_room(&mut self) -> Result<(), NoMemory>
        ensures room { OnOk result (0 < self.new.spare) }
        ensures kept { self.new.entries ≡ self.old.entries }
        ensures spare { self.old.spare ≤ self.new.spare }
    {
        if self.kept.len() < self.kept.capacity() {
            return Ok(());
        }
        Ok(self.kept.reserve(ENTRIES_AT_ONCE)?)
    }

    /// Makes room for this entry, so that `push_reserved` takes no memory.
    pub fn make_room_for(&mut self, entry: &Entry) -> Result<(), NoMemory>
        ensures room { OnOk result (0 < self.new.spare) }
        ensures kept { self.new.entries ≡ self.old.entries }
        ensures spare { self.old.spare ≤ self.new.spare }
    {
        self.make_room()?;
        let payloads = payload_asked(&entry.act).len() + payload_replied(&entry.reply).len();
        let most = payloads.saturating_add(most_bytes(entry.effects.as_slice()));
        reserve(&mut self.coder.bytes, most)
    }

    /// Puts an entry behind the others. It takes no memory where `make_room_for` made room for the entry.
    pub fn push_reserved(&mut self, entry: Boxed<Entry>)
        requires room { 0 < self.old.spare }
        requires stamp { entry.stamp ≡ next_stamp self.old.entries }
        ensures pushed { self.new.entries ≡ self.old.entries ++ entry ∷ [] }
        ensures room_left { self.old.spare ≤ self.new.spare + 1 }
    {
        if !self.push_small(entry.get()) {
            self.push_apart(entry);
        }
    }

    /// Puts the entry of a step behind the others, with the next stamp. Without memory the entries are as before.
    pub fn append(
        &mut self,
        pass: u32,
        line: u32,
        actor: Actor,
        act: &Act,
        reply: &Reply,
        effects: &Effects,
    ) -> Result<(), NoMemory>
        ensures appended { OnOk result (self.new.entries ≡ self.old.entries ++ next_entry self.old.entries pass line actor act.now (reply.now, effects.now) ∷ []) }
        ensures kept { OnErr result (self.new.entries ≡ self.old.entries) }
        ensures spare { OnErr result (self.old.spare ≤ self.new.spare) }
    {
        self.make_room()?;
        // For `append_apart`, where the first call has taken the actor.
        let same_actor = actor;
        if self.append_small(pass, line, actor, act, reply, effects.as_slice()) {
            return Ok(());
        }
        self.append_apart(pass, line, same_actor, act, reply, effects)
    }

    /// Puts the entry of a step without effects behind the others, with the next stamp. Without memory the entries are as
    /// before.
    pub fn append_quiet(
        &mut self,
        pass: u32,
        line: u32,
        actor: Actor,
        act: &Act,
        reply: &Reply,
    ) -> Result<(), NoMemory>
        ensures appended { OnOk result (self.new.entries ≡ self.old.entries ++ next_entry self.old.entries pass line actor act.now (reply.now, []) ∷ []) }
        ensures kept { OnErr result (self.new.entries ≡ self.old.entries) }
        ensures spare { OnErr result (self.old.spare ≤ self.new.spare) }
    {
        let none = Effects::new(self.alloc);
        self.append(pass, line, actor, act, reply, &none)
    }

    /// The entries, lent in their order. Their stamps rise.
    pub fn lend(&self) -> LentEntries<'_>
        requires { Rising self.now.entries }
        ensures { result ≡ self.now.entries }
    {
        LentEntries::new(
            self.alloc,
            self.kept.as_slice(),
            self.coder.bytes.as_slice(),
        )
    }

    /// The last entry, lent, or none where there is none.
    pub fn last(&self) -> Option<Lent<'_>>
        ensures last { (before : List Entry) (e : Entry) → self.now.entries ≡ before ++ e ∷ [] → lent result ≡ Some e }
        ensures none { self.now.entries ≡ [] → lent result ≡ None }
    {
        match self.kept.as_slice().split_last() {
            Some((last, before)) => {
                let bytes = self.coder.bytes.as_slice();
                let (_, its) = bytes.split_at(bytes.len() - last.width());
                Some(last.lend(self.alloc, its, before.len() as u64 + 1))
            }
            None => None,
        }
    }

    /// Puts an entry behind the others as its bytes, and answers whether it could: where it can't be kept small, and without
    /// memory, the entries are as before.
    fn push_small(&mut self, entry: &Entry) -> bool
        requires place { 0 < self.old.spare }
        requires stamp { entry.now.stamp ≡ next_stamp self.old.entries }
        ensures put { PutOrNot self.old self.new entry.now result }
        ensures room_left { self.old.spare ≤ self.new.spare + 1 }
    {
        self.append_small(
            entry.pass,
            entry.line,
            entry.actor,
            &entry.act,
            &entry.reply,
            entry.effects.as_slice(),
        )
    }

    /// The same, of the entry of a step, with the next stamp.
    fn append_small(
        &mut self,
        pass: u32,
        line: u32,
        actor: Actor,
        act: &Act,
        reply: &Reply,
        effects: &[Effect],
    ) -> bool
        requires { 0 < self.old.spare }
        ensures put { PutOrNot self.old self.new (next_entry self.old.entries pass line actor act.now (reply.now, effects.now)) result }
        ensures room_left { self.old.spare ≤ self.new.spare + 1 }
    {
        let before = self.coder.bytes.len();
        match append_bytes(&mut self.coder, act, reply, effects) {
            Ok(at) => {
                let (_, told) = self.coder.bytes.as_slice().split_at(at);
                match KeptStep::of(pass, line, actor, act, reply, told) {
                    Some(step) => {
                        self.kept.push_reserved(Kept::Step(step));
                        true
                    }
                    None => {
                        self.coder.bytes.truncate(before);
                        false
                    }
                }
            }
            Err(NoMemory) => false,
        }
    }

    /// Puts an entry behind the others, as it is. It takes no memory.
    fn push_apart(&mut self, entry: Boxed<Entry>)
        requires { 0 < self.old.spare }
        ensures put { self.new.entries ≡ self.old.entries ++ entry ∷ [] }
        ensures room_left { self.old.spare ≤ self.new.spare + 1 }
    {
        self.kept.push_reserved(Kept::Apart(entry));
    }

    /// The same, of the entry of a step, with the next stamp.
    fn append_apart(
        &mut self,
        pass: u32,
        line: u32,
        actor: Actor,
        act: &Act,
        reply: &Reply,
        effects: &Effects,
    ) -> Result<(), NoMemory>
        requires { 0 < self.old.spare }
        ensures appended { OnOk result (self.new.entries ≡ self.old.entries ++ next_entry self.old.entries pass line actor act.now (reply.now, effects.now) ∷ []) }
        ensures kept { OnErr result (self.new.entries ≡ self.old.entries) }
        ensures spare { OnErr result (self.old.spare ≤ self.new.spare) }
    {
        let entry = Entry {
            pass,
            line,
            actor,
            act: act.copy()?,
            reply: reply.copy()?,
            effects: effects.copy()?,
            stamp: Stamp {
                number: self.len() as u64 + 1,
                count: 0,
            },
        };
        self.push_apart(Boxed::new(self.alloc, entry)?);
        Ok(())
    }
}
