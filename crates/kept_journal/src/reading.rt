//! Bytes to tokens.

ghost use Rattle.kept_journal.specs.Slots.{no_slots, slots_in, slotted_event, slotted_extent, slotted_flag, slotted_held, slotted_host, slotted_kind, slotted_log, slotted_run, slotted_tag, with_byte, with_slot};
ghost use Rattle.kept_journal.specs.Tokens.{token_of, tokens_in};
ghost use Rattle.std.specs.Prelude.{◌≡◌, ◌/◌, ◌%◌, ◌<◌, ◌≤◌, [], ◌∷◌, MatchOption, None};

use crate::slots::{
    ANSWER, CLEARED, COUNT, EVENT_HOST, EVENT_KIND, EXTENTS_LEFT, FIRST, FLAG, HANDLE, HOLD, HOST,
    LEAVE, LENGTH, LOG, LOGGED, MISSED, MORE, OFFER, REF, REGION, RESET, SEQUENCE, SLOTS, SOIL,
    START, Slots, TAG_END, TAG_HIGH, TAG_LOW, TAGS_LEFT, TAKE, UNHOLD, ZERO,
};
use crate::tokens::Token;
use dcd_base::{Extent, Granule, HostId, LogId, RegionId, Run, Tag, put_u64};
use event_records::{Event, EventKind};
use journal_core::HeldKind;
use std::marker::Model;

/// The tokens that bytes tell, one after another. Contracts see those that are still to come.
#[derive(Debug, Drop)]
pub(crate) struct Tokens<'a> {
    bytes: &'a [u8],
    slots: Slots,
}

impl<'a> Model for Tokens<'a> {
    ghost use Rattle.kept_journal.specs.Slots.{slots_in};
    ghost use Rattle.kept_journal.specs.Tokens.{tokens_in};
    ghost use Rattle.kept_journal.specs.declared.tokens.Token.{Token};
    ghost use Rattle.std.specs.Prelude.{List, None};

    ghost Value = { List Token };

    ghost view = { λ t. tokens_in (slots_in t.slots) None t.bytes.now };
}

impl<'a> Tokens<'a> {
    pub(crate) fn new(bytes: &'a [u8]) -> Tokens<'a>
        ensures { result ≡ tokens_in no_slots None bytes.now }
    {
        Tokens {
            bytes,
            slots: [0; SLOTS],
        }
    }

    /// The next one, or none behind the last.
    pub(crate) fn next(&mut self) -> Option<Token>
        ensures { MatchOption result (self.old ≡ []) (λ token. self.old ≡ token ∷ self.new) }
    {
        match next_token(&mut self.slots, self.bytes) {
            Some((token, rest)) => {
                self.bytes = rest;
                Some(token)
            }
            None => {
                self.bytes = &[];
                None
            }
        }
    }
}

/// Reads bytes up to the end of a token: that token, and the bytes behind it.
fn next_token<'a>(slots: &mut Slots, bytes: &'a [u8]) -> Option<(Token, &'a [u8])>
    ensures { MatchOption result (tokens_in (slots_in slots.old) None bytes.now ≡ [])
        (λ read. tokens_in (slots_in slots.old) None bytes.now ≡ read.0 ∷ tokens_in (slots_in slots.new) None read.1.now) }
{
    let mut left = bytes;
    while let Some((first, rest)) = left.split_first() {
        if *first >= 128 {
            return Some((token_of(*first, slots), rest));
        }
        let Some((byte, rest)) = rest.split_first() else {
            return None;
        };
        set_byte(slots, *first, *byte);
        left = rest;
    }
    None
}

/// Puts a byte at a place.
fn set_byte(slots: &mut Slots, place: u8, byte: u8)
    requires { place < 128 }
    ensures { slots_in slots.new ≡ with_slot (slots_in slots.old) (place / 8) (with_byte (slots_in slots.old (place / 8)) (place % 8) byte) }
{
    let slot = (place / 8) as usize;
    slots[slot] = with_byte(slots[slot], place % 8, byte);
}

/// The number with another byte at a place of its eight.
fn with_byte(number: u64, place: u8, byte: u8) -> u64
    requires { place < 8 }
    ensures { result ≡ with_byte number place byte }
{
    let mut bytes = number.to_le_bytes();
    bytes[place as usize] = byte;
    u64::from_le_bytes(bytes)
}

/// The token of the kind that the slots hold.
#[tactic(auto, unfolding(crate::specs::Tokens::token_of))]
fn token_of(kind: u8, slots: &Slots) -> Token
    ensures { result ≡ token_of kind (slots_in slots.now) }
{
    if kind == MORE {
        Token::More(extent_in(slots))
    } else if kind == OFFER {
        Token::Offer(host_in(slots))
    } else if kind == ANSWER {
        Token::Answer(host_in(slots))
    } else if kind == HOLD {
        Token::Hold(host_in(slots), held_in(slots))
    } else if kind == TAKE {
        Token::Take(host_in(slots), run_in(slots))
    } else if kind == LEAVE {
        Token::Leave(host_in(slots), run_in(slots))
    } else if kind == ZERO {
        Token::Zero(run_in(slots))
    } else if kind == SOIL {
        Token::Soil(run_in(slots))
    } else if kind == UNHOLD {
        Token::Unhold(host_in(slots), held_in(slots))
    } else if kind == LOGGED {
        Token::Logged(log_in(slots), event_in(slots))
    } else if kind == MISSED {
        Token::Missed(log_in(slots))
    } else if kind == CLEARED {
        Token::Cleared(log_in(slots), (slots[COUNT] % 65536) as u16)
    } else if kind == RESET {
        Token::Reset(log_in(slots))
    } else if kind == REF {
        Token::Ref(tag_in(slots), flag_in(slots))
    } else if kind == TAG_END {
        Token::TagEnd(tag_in(slots))
    } else {
        Token::Block(region_in(slots), slots[LENGTH])
    }
}

fn host_in(slots: &Slots) -> HostId
    ensures { result ≡ slotted_host (slots_in slots.now) }
{
    HostId((slots[HOST] % 256) as u8)
}

fn region_in(slots: &Slots) -> RegionId
    ensures { result ≡ slots_in slots.now REGION % 256 }
{
    RegionId((slots[REGION] % 256) as u8)
}

fn run_in(slots: &Slots) -> Run
    ensures { result ≡ slotted_run (slots_in slots.now) }
{
    Run {
        first: Granule((slots[FIRST] % 4294967296) as u32),
        count: (slots[COUNT] % 4294967296) as u32,
    }
}

fn log_in(slots: &Slots) -> LogId
    ensures { result ≡ slotted_log (slots_in slots.now) }
{
    if slots[LOG] < 256 {
        LogId::Host(HostId(slots[LOG] as u8))
    } else {
        LogId::Manager
    }
}

fn held_in(slots: &Slots) -> HeldKind
    ensures { result ≡ slotted_held (slots_in slots.now) }
{
    if slots[FLAG] == 0 {
        HeldKind::Responses
    } else {
        HeldKind::Releases
    }
}

fn flag_in(slots: &Slots) -> bool
    ensures { result ≡ slotted_flag (slots_in slots.now) }
{
    slots[FLAG] == 1
}

fn tag_in(slots: &Slots) -> Tag
    ensures { result ≡ slotted_tag (slots_in slots.now) }
{
    let mut bytes = [0; 16];
    put_u64(&mut bytes, 0, slots[TAG_LOW]);
    put_u64(&mut bytes, 8, slots[TAG_HIGH]);
    Tag(bytes)
}

fn extent_in(slots: &Slots) -> Extent
    ensures { result ≡ slotted_extent (slots_in slots.now) }
{
    Extent {
        start: slots[START],
        length: slots[LENGTH],
        tag: tag_in(slots),
        sequence: (slots[SEQUENCE] % 65536) as u16,
    }
}

fn kind_in(slots: &Slots) -> EventKind
    ensures { result ≡ slotted_kind (slots_in slots.now) }
{
    let number = slots[EVENT_KIND];
    if number == 0 {
        EventKind::Add
    } else if number == 1 {
        EventKind::Release
    } else if number == 2 {
        EventKind::Forced
    } else if number == 3 {
        EventKind::RegionUpdated
    } else if number == 4 {
        EventKind::AddResponse
    } else {
        EventKind::Released
    }
}

fn event_in(slots: &Slots) -> Event
    ensures { result ≡ slotted_event (slots_in slots.now) }
{
    Event {
        handle: (slots[HANDLE] % 65536) as u16,
        kind: kind_in(slots),
        host: (slots[EVENT_HOST] % 65536) as u16,
        region: (slots[REGION] % 256) as u8,
        more: flag_in(slots),
        extent: extent_in(slots),
        extents_available: (slots[EXTENTS_LEFT] % 4294967296) as u32,
        tags_available: (slots[TAGS_LEFT] % 4294967296) as u32,
    }
}
