//! Which actor a word says.

ghost use Rattle.std.specs.Prelude.{◌≡◌, ◌+◌, ◌<◌, IfOk, drop, length, take};
ghost use Rattle.text_lines.specs.Actors.{actor_ahead, actor_of_word as actor_said, host_ahead, host_or, host_said, seat_of_parts, seat_said};
ghost use Rattle.text_lines.specs.Fields.{GivesWords};
ghost use Rattle.text_lines.specs.Numbers.{digits_said, under};

use crate::faults::{Cause, TextFault, Wanted};
use crate::fields::one_word;
use crate::{NumberFault, Words, decimal_of, place_of};

/// What the head of a script says that its lines depend on.
#[derive(Clone, Copy, Debug, PartialEq, Eq)]
pub struct Frame {
    /// 1 or 2.
    pub version: u16,
    pub hosts: u8,
    /// How many lanes each host has.
    pub lanes: u8,
}

/// The actor that a word says.
#[derive(Clone, Copy, Debug, PartialEq, Eq)]
pub enum Speaker {
    /// The host of that number, in that lane.
    Host { host: u8, lane: u8 },
    /// The Fabric Manager.
    Manager,
}

/// The number behind the h of a host, below the limit.
#[tactic(auto, unfolding(crate::specs::Actors::host_said))]
fn host_number(word: &[u8], limit: u64) -> Result<u64, NumberFault>
    ensures value { result ≡ under limit (host_said word.now) }
    ensures small { IfOk result (λ host. host < limit) }
{
    if word.is_empty() || word[0] != b'h' {
        return Err(NumberFault::NoNumber);
    }
    let (_, digits) = word.split_at(1);
    decimal_of(digits, limit)
}

/// The number of a host of the script.
fn host_below(word: &[u8], hosts: u8) -> Result<u8, NumberFault>
    ensures { result ≡ under hosts (host_said word.now) }
{
    match host_number(word, u64::from(hosts)) {
        Ok(host) => Ok(host as u8),
        Err(fault) => Err(fault),
    }
}

/// The number of a lane of the script.
fn lane_below(digits: &[u8], lanes: u8) -> Result<u8, NumberFault>
    ensures { result ≡ under lanes (digits_said 10 digits.now) }
{
    match decimal_of(digits, u64::from(lanes)) {
        Ok(lane) => Ok(lane as u8),
        Err(fault) => Err(fault),
    }
}

/// Lane 0, where there are lanes.
fn first_lane(lanes: u8) -> Result<u8, NumberFault>
    ensures { result ≡ under lanes (Some 0) }
{
    if lanes == 0 {
        Err(NumberFault::TooLarge)
    } else {
        Ok(0)
    }
}

/// A host and a lane. What is out of form comes before what the script does not have.
fn seat_of(
    host: Result<u8, NumberFault>,
    lane: Result<u8, NumberFault>,
) -> Result<(u8, u8), NumberFault>
    ensures { result ≡ seat_of_parts host lane }
{
    match (host, lane) {
        (Ok(host), Ok(lane)) => Ok((host, lane)),
        (Err(NumberFault::NoNumber), _) | (_, Err(NumberFault::NoNumber)) => {
            Err(NumberFault::NoNumber)
        }
        _ => Err(NumberFault::TooLarge),
    }
}

/// A host of the script and its lane, with a dot between them where one is at that place.
fn seat_at(frame: Frame, place: usize, word: &[u8]) -> Result<(u8, u8), NumberFault>
    requires { place < length word.now }
    ensures { result ≡ seat_of_parts (under frame.hosts (host_said (take place word.now))) (under frame.lanes (digits_said 10 (drop (place + 1) word.now))) }
{
    let (front, rest) = word.split_at(place);
    let (_, digits) = rest.split_at(1);
    seat_of(
        host_below(front, frame.hosts),
        lane_below(digits, frame.lanes),
    )
}

/// A host of the script and its lane.
#[tactic(auto, unfolding(crate::specs::Actors::seat_said))]
fn seat(frame: Frame, word: &[u8]) -> Result<(u8, u8), NumberFault>
    ensures { result ≡ seat_said frame word.now }
{
    if frame.version == 2 {
        let place = place_of(b'.', word);
        if place < word.len() {
            return seat_at(frame, place, word);
        }
    }
    seat_of(host_below(word, frame.hosts), first_lane(frame.lanes))
}

/// The actor that a word says; what is wanted where it says none.
#[tactic(auto, unfolding(crate::specs::Actors::actor_of_word))]
pub fn actor_of_word(frame: Frame, wanted: Wanted, word: &[u8]) -> Result<Speaker, Cause>
    ensures { result ≡ actor_said frame wanted word.now }
{
    if word == b"fm".as_slice() {
        return Ok(Speaker::Manager);
    }
    match seat(frame, word) {
        Ok((host, lane)) => Ok(Speaker::Host { host, lane }),
        Err(NumberFault::NoNumber) => Err(Cause::Wanted(wanted)),
        Err(NumberFault::TooLarge) => Err(Cause::NoSuchActor),
    }
}

/// An actor of the script.
#[tactic(auto, unfolding(crate::specs::Actors::actor_ahead))]
pub fn actor(words: &mut Words<'_>, frame: Frame) -> Result<Speaker, TextFault>
    ensures { GivesWords (λ x. x) result words.new (actor_ahead frame words.old) }
{
    let read = actor_of_word(frame, Wanted::Actor, words.next());
    one_word(words, Wanted::Actor, read)
}

/// The host that a word names, whether the script has it or not.
fn host_of_word(word: &[u8]) -> Result<u16, Cause>
    ensures { result ≡ host_or (under 65536 (host_said word.now)) }
{
    match host_number(word, 65536) {
        Ok(host) => Ok(host as u16),
        Err(NumberFault::NoNumber) => Err(Cause::Wanted(Wanted::Host)),
        Err(NumberFault::TooLarge) => Err(Cause::TooLarge(65535)),
    }
}

/// A host that the manager speaks of.
#[tactic(auto, unfolding(crate::specs::Actors::host_ahead))]
pub fn host(words: &mut Words<'_>) -> Result<u16, TextFault>
    ensures { GivesWords (λ host. host) result words.new (host_ahead words.old) }
{
    let read = host_of_word(words.next());
    one_word(words, Wanted::Host, read)
}
