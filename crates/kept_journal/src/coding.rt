//! Effects to bytes.

ghost use Rattle.event_records.specs.Records.{kind_number};
ghost use Rattle.kept_journal.specs.Coding.{AddsBytes, Codes, CodesTo, IsFront, TellsEffects};
ghost use Rattle.kept_journal.specs.Slots.{FitsWhat, no_slots, number_of_held, number_of_log, slots_in, slotted_event, slotted_extent, slotted_log, slotted_run, slotted_tag, telling_event, telling_extent, telling_flag, telling_held, telling_host, telling_log, telling_run, telling_tag, telling_what, with_slot};
ghost use Rattle.kept_journal.specs.Tokens.{token_of, tokens_of};
ghost use Rattle.kept_journal.specs.declared.tokens.Token.{Token};
ghost use Rattle.std.specs.Prelude.{◌≡◌, ℕ, ◌+◌, ◌*◌, ◌%◌, ◌<◌, ◌≤◌, [], ◌∷◌, OnOk, flat_map, map};

use crate::slots::{
    ANSWER, BLOCK, CLEARED, COUNT, EVENT_HOST, EVENT_KIND, EXTENTS_LEFT, FIRST, FLAG, HANDLE, HOLD,
    HOST, LEAVE, LENGTH, LOG, LOGGED, MISSED, MORE, OFFER, REF, REGION, RESET, SEQUENCE, SLOTS,
    SOIL, START, Slots, TAG_END, TAG_HIGH, TAG_LOW, TAGS_LEFT, TAKE, UNHOLD, ZERO,
};
use dcd_base::{Extent, HostId, LogId, NoMemory, RegionId, Run, Tag, are_bytes, u64_at};
use event_records::{Event, EventKind};
use journal_core::{Effect, HeldKind};
use std::alloc::Global;

/// Writes effects as bytes. Without memory it has failed from then on.
#[derive(Debug, Drop)]
pub(crate) struct Coder {
    slots: Slots,
    pub(crate) bytes: Vec<u8>,
    failed: bool,
}

impl Coder {
    /// Nothing is written, and all slots are 0.
    pub(crate) fn new(alloc: Global) -> Coder
        ensures slots { slots_in result.slots ≡ no_slots }
        ensures bytes { result.bytes.items ≡ [] }
    {
        Coder {
            slots: [0; SLOTS],
            bytes: Vec::new(alloc),
            failed: false,
        }
    }

    /// Sets all slots to 0, behind the bytes that were written.
    fn begin(&mut self)
        ensures slots { slots_in self.new.slots ≡ no_slots }
        ensures bytes { self.new.bytes.items ≡ self.old.bytes.items }
    {
        self.slots = [0; SLOTS];
        self.failed = false;
    }

    /// Writes what tells these effects behind the bytes so far, which stay. Without memory something else may stand there.
    pub(crate) fn tell(&mut self, effects: &[Effect]) -> Result<(), NoMemory>
        ensures told { OnOk result (TellsEffects self.old.bytes.items self.new.bytes.items effects.now) }
        ensures front { IsFront self.old.bytes.items self.new.bytes.items }
    {
        if effects.is_empty() {
            return Ok(());
        }
        self.begin();
        self.write_effects(effects);
        if self.failed { Err(NoMemory) } else { Ok(()) }
    }

    /// Writes a byte.
    fn push(&mut self, byte: u8)
        ensures { AddsBytes self.old self.new (byte ∷ []) }
    {
        if self.bytes.push(byte).is_err() {
            self.failed = true;
        }
    }

    /// Writes the place of a byte in a slot, and the byte.
    fn push_change(&mut self, slot: usize, place: usize, byte: u8)
        requires slot { slot < 16 }
        requires place { place < 8 }
        ensures { AddsBytes self.old self.new ((8 * slot + place) ∷ byte ∷ []) }
    {
        self.push((8 * slot + place) as u8);
        self.push(byte);
    }

    /// Writes the bytes by which a number differs from that in the slot.
    #[inline(never)]
    fn push_changes(&mut self, slot: usize, number: u64)
        requires { slot < 16 }
        ensures slots { self.new.slots ≡ self.old.slots }
        ensures coded { CodesTo self.old self.new (with_slot (slots_in self.old.slots) slot number) [] }
    {
        let told = self.slots[slot];
        let wanted = number.to_le_bytes();
        let mut place = 0;
        // The bits that differ, from the byte at the place on.
        let mut differing = told ^ number;
        while differing != 0 {
            let alike = differing.trailing_zeros() as usize / 8;
            place += alike;
            self.push_change(slot, place, wanted[place]);
            place += 1;
            differing = differing >> (8 * alike) >> 8;
        }
    }

    /// Puts a number into a slot, and writes what that changes.
    #[inline(always)]
    fn set(&mut self, slot: usize, number: u64)
        requires { slot < 16 }
        ensures slots { slots_in self.new.slots ≡ with_slot (slots_in self.old.slots) slot number }
        ensures coded { Codes self.old self.new [] }
    {
        // Most numbers stay as they are.
        if self.slots[slot] != number {
            self.push_changes(slot, number);
            self.slots[slot] = number;
        }
    }

    /// Writes the kind of the token that the slots hold.
    fn end(&mut self, kind: u8)
        requires { 128 ≤ kind }
        ensures slots { slots_in self.new.slots ≡ slots_in self.old.slots }
        ensures coded { Codes self.old self.new (token_of kind (slots_in self.old.slots) ∷ []) }
    {
        self.push(kind);
    }

    fn set_host(&mut self, host: &HostId)
        ensures slots { slots_in self.new.slots ≡ telling_host (slots_in self.old.slots) host.now }
        ensures coded { Codes self.old self.new [] }
        ensures back { host.now % 256 ≡ host.now }
    {
        self.set(HOST, u64::from(host.0));
    }

    fn set_run(&mut self, run: &Run)
        ensures slots { slots_in self.new.slots ≡ telling_run (slots_in self.old.slots) run.now }
        ensures coded { Codes self.old self.new [] }
        ensures back { (slots : ℕ → ℕ) → slotted_run (telling_run slots run.now) ≡ run.now }
    {
        self.set(FIRST, u64::from(run.first.0));
        self.set(COUNT, u64::from(run.count));
    }

    fn set_log(&mut self, log: &LogId)
        ensures slots { slots_in self.new.slots ≡ telling_log (slots_in self.old.slots) log.now }
        ensures coded { Codes self.old self.new [] }
        ensures back { (slots : ℕ → ℕ) → slotted_log (telling_log slots log.now) ≡ log.now }
    {
        self.set(LOG, number_of_log(log));
    }

    fn set_held(&mut self, kind: &HeldKind)
        ensures slots { slots_in self.new.slots ≡ telling_held (slots_in self.old.slots) kind.now }
        ensures coded { Codes self.old self.new [] }
    {
        self.set(FLAG, number_of_held(kind));
    }

    fn set_flag(&mut self, flag: bool)
        ensures slots { slots_in self.new.slots ≡ telling_flag (slots_in self.old.slots) flag }
        ensures coded { Codes self.old self.new [] }
    {
        self.set(FLAG, u64::from(flag));
    }

    fn set_tag(&mut self, tag: &Tag)
        ensures slots { slots_in self.new.slots ≡ telling_tag (slots_in self.old.slots) tag.now }
        ensures coded { Codes self.old self.new [] }
        ensures back { (slots : ℕ → ℕ) → slotted_tag (telling_tag slots tag.now) ≡ tag.now }
    {
        are_bytes(&tag.0);
        self.set(TAG_LOW, u64_at(&tag.0, 0));
        self.set(TAG_HIGH, u64_at(&tag.0, 8));
    }

    fn set_extent(&mut self, extent: &Extent)
        ensures slots { slots_in self.new.slots ≡ telling_extent (slots_in self.old.slots) extent.now }
        ensures coded { Codes self.old self.new [] }
        ensures back { (slots : ℕ → ℕ) → slotted_extent (telling_extent slots extent.now) ≡ extent.now }
    {
        self.set(START, extent.start);
        self.set(LENGTH, extent.length);
        self.set_tag(&extent.tag);
        self.set(SEQUENCE, u64::from(extent.sequence));
    }

    /// An event without its extent and its counts.
    fn set_what(&mut self, event: &Event)
        ensures slots { slots_in self.new.slots ≡ telling_what (slots_in self.old.slots) event.now }
        ensures coded { Codes self.old self.new [] }
        ensures back { FitsWhat event.now }
    {
        self.set(HANDLE, u64::from(event.handle));
        self.set(EVENT_KIND, number_of_kind(&event.kind));
        self.set(EVENT_HOST, u64::from(event.host));
        self.set(REGION, u64::from(event.region));
        self.set_flag(event.more);
    }

    fn set_event(&mut self, event: &Event)
        ensures slots { slots_in self.new.slots ≡ telling_event (slots_in self.old.slots) event.now }
        ensures coded { Codes self.old self.new [] }
        ensures back { (slots : ℕ → ℕ) → slotted_event (telling_event slots event.now) ≡ event.now }
    {
        self.set_what(event);
        self.set_extent(&event.extent);
        self.set(EXTENTS_LEFT, u64::from(event.extents_available));
        self.set(TAGS_LEFT, u64::from(event.tags_available));
    }

    fn set_region(&mut self, region: &RegionId)
        ensures slots { slots_in self.new.slots ≡ with_slot (slots_in self.old.slots) REGION region.now }
        ensures coded { Codes self.old self.new [] }
        ensures back { region.now % 256 ≡ region.now }
    {
        self.set(REGION, u64::from(region.0));
    }

    fn write_extents(&mut self, extents: &[Extent])
        ensures { Codes self.old self.new (map Token.More extents.now) }
    {
        for extent in extents {
            self.write_more(extent);
        }
    }

    /// An extent of the effect that follows.
    fn write_more(&mut self, extent: &Extent)
        ensures { Codes self.old self.new (Token.More extent.now ∷ []) }
    {
        self.set_extent(extent);
        self.end(MORE);
    }

    fn write_take(&mut self, host: &HostId, run: &Run)
        ensures { Codes self.old self.new (Token.Take host.now run.now ∷ []) }
    {
        self.set_host(host);
        self.set_run(run);
        self.end(TAKE);
    }

    fn write_leave(&mut self, host: &HostId, run: &Run)
        ensures { Codes self.old self.new (Token.Leave host.now run.now ∷ []) }
    {
        self.set_host(host);
        self.set_run(run);
        self.end(LEAVE);
    }

    fn write_zero(&mut self, run: &Run)
        ensures { Codes self.old self.new (Token.Zero run.now ∷ []) }
    {
        self.set_run(run);
        self.end(ZERO);
    }

    fn write_soil(&mut self, run: &Run)
        ensures { Codes self.old self.new (Token.Soil run.now ∷ []) }
    {
        self.set_run(run);
        self.end(SOIL);
    }

    fn write_offer(&mut self, host: &HostId)
        ensures { Codes self.old self.new (Token.Offer host.now ∷ []) }
    {
        self.set_host(host);
        self.end(OFFER);
    }

    fn write_answer(&mut self, host: &HostId)
        ensures { Codes self.old self.new (Token.Answer host.now ∷ []) }
    {
        self.set_host(host);
        self.end(ANSWER);
    }

    fn write_hold(&mut self, host: &HostId, kind: &HeldKind)
        ensures { Codes self.old self.new (Token.Hold host.now kind.now ∷ []) }
    {
        self.set_host(host);
        self.set_held(kind);
        self.end(HOLD);
    }

    fn write_unhold(&mut self, host: &HostId, kind: &HeldKind)
        ensures { Codes self.old self.new (Token.Unhold host.now kind.now ∷ []) }
    {
        self.set_host(host);
        self.set_held(kind);
        self.end(UNHOLD);
    }

    fn write_logged(&mut self, log: &LogId, event: &Event)
        ensures { Codes self.old self.new (Token.Logged log.now event.now ∷ []) }
    {
        self.set_log(log);
        self.set_event(event);
        self.end(LOGGED);
    }

    fn write_missed(&mut self, log: &LogId)
        ensures { Codes self.old self.new (Token.Missed log.now ∷ []) }
    {
        self.set_log(log);
        self.end(MISSED);
    }

    fn write_cleared(&mut self, log: &LogId, count: u16)
        ensures { Codes self.old self.new (Token.Cleared log.now count ∷ []) }
    {
        self.set_log(log);
        self.set(COUNT, u64::from(count));
        self.end(CLEARED);
    }

    fn write_reset(&mut self, log: &LogId)
        ensures { Codes self.old self.new (Token.Reset log.now ∷ []) }
    {
        self.set_log(log);
        self.end(RESET);
    }

    fn write_ref(&mut self, tag: &Tag, is_on: bool)
        ensures { Codes self.old self.new (Token.Ref tag.now is_on ∷ []) }
    {
        self.set_tag(tag);
        self.set_flag(is_on);
        self.end(REF);
    }

    fn write_tag_end(&mut self, tag: &Tag)
        ensures { Codes self.old self.new (Token.TagEnd tag.now ∷ []) }
    {
        self.set_tag(tag);
        self.end(TAG_END);
    }

    fn write_block(&mut self, region: &RegionId, size: u64)
        ensures { Codes self.old self.new (Token.Block region.now size ∷ []) }
    {
        self.set_region(region);
        self.set(LENGTH, size);
        self.end(BLOCK);
    }

    /// Writes an effect.
    fn write_effect(&mut self, effect: &Effect)
        ensures { Codes self.old self.new (tokens_of effect.now) }
    {
        match effect {
            Effect::Offer(host, extents) => {
                self.write_extents(extents.as_slice());
                self.write_offer(host);
            }
            Effect::Answer(host, extents) => {
                self.write_extents(extents.as_slice());
                self.write_answer(host);
            }
            Effect::Take(host, run) => self.write_take(host, run),
            Effect::Leave(host, run) => self.write_leave(host, run),
            Effect::Zero(run) => self.write_zero(run),
            Effect::Soil(run) => self.write_soil(run),
            Effect::Hold(host, kind, extents) => {
                self.write_extents(extents.as_slice());
                self.write_hold(host, kind);
            }
            Effect::Unhold(host, kind) => self.write_unhold(host, kind),
            Effect::Logged(log, event) => self.write_logged(log, event),
            Effect::Missed(log) => self.write_missed(log),
            Effect::Cleared(log, count) => self.write_cleared(log, *count),
            Effect::Reset(log) => self.write_reset(log),
            Effect::Ref(tag, is_on) => self.write_ref(tag, *is_on),
            Effect::TagEnd(tag) => self.write_tag_end(tag),
            Effect::Block(region, size) => self.write_block(region, *size),
        }
    }

    /// Writes effects, in order.
    fn write_effects(&mut self, effects: &[Effect])
        ensures { Codes self.old self.new (flat_map tokens_of effects.now) }
    {
        for effect in effects {
            self.write_effect(effect);
        }
    }
}

/// The number of a log in its slot.
fn number_of_log(log: &LogId) -> u64
    ensures number { result ≡ number_of_log log.now }
    ensures back { (slots : ℕ → ℕ) → slotted_log (telling_log slots log.now) ≡ log.now }
{
    match log {
        LogId::Host(host) => u64::from(host.0),
        LogId::Manager => 256,
    }
}

/// The number of a held list in its slot.
fn number_of_held(kind: &HeldKind) -> u64
    ensures { result ≡ number_of_held kind.now }
{
    match kind {
        HeldKind::Responses => 0,
        HeldKind::Releases => 1,
    }
}

/// The number of a kind of event in its slot.
fn number_of_kind(kind: &EventKind) -> u64
    ensures { result ≡ kind_number kind.now }
{
    match kind {
        EventKind::Add => 0,
        EventKind::Release => 1,
        EventKind::Forced => 2,
        EventKind::RegionUpdated => 3,
        EventKind::AddResponse => 4,
        EventKind::Released => 5,
    }
}
