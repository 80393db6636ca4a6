//! The lines that are commands.

ghost use Rattle.dcd_base.specs.declared.steps.Actor.{Actor};
ghost use Rattle.script_gen.specs.Generated.{clear_line, give_back_line, offer_line, sends, take_line};
ghost use Rattle.std.specs.Prelude.{◌≡◌, ◌<◌, IfOk};

use crate::payloads::{clearing_payload, listed_payload, placed_payload};
use crate::settings::share;
use cci_codec::{Payload, Request};
use dcd_base::{Actor, HostId, NoMemory};
use journal_core::Act;
use script_codec::Line;
use std::alloc::Global;

/// Clear Event Records (CXL 3.1, 8.2.9.2.3).
const CLEAR_EVENTS: u16 = 0x0101;
/// Add Dynamic Capacity Response (CXL 3.1, 8.2.9.9.9.3).
const ADD_RESPONSE: u16 = 0x4802;
/// Release Dynamic Capacity (CXL 3.1, 8.2.9.9.9.4).
const GIVE_BACK: u16 = 0x4803;
/// Initiate Dynamic Capacity Add (profile).
const ADD: u16 = 0x5604;

/// The log of Dynamic Capacity event records.
const CAPACITY_LOG: u8 = 4;
/// The policy by which an add names its extents.
const PRESCRIPTIVE: u8 = 2;

/// The line of an actor's command, with the message tag 0.
fn command_line(alloc: Global, actor: Actor, opcode: u16, payload: &[u8]) -> Result<Line, NoMemory>
    ensures { IfOk result (λ line. line ≡ sends actor opcode payload.now) }
{
    let tag = 0;
    let payload = Payload::from_slice(alloc, payload)?;
    Ok(Line::Do {
        actor,
        lane: 0,
        act: Act::Command(Request {
            tag,
            opcode,
            payload,
        }),
    })
}

/// The Fabric Manager offers the host its extent of the round.
#[tactic(auto, unfolding(crate::specs::Generated::offer_line))]
pub fn offer(alloc: Global, round: u16, host: HostId) -> Result<Line, NoMemory>
    requires { host < 4 }
    ensures { IfOk result (λ line. line ≡ offer_line round host) }
{
    let payload = placed_payload(u16::from(host.0), PRESCRIPTIVE, &share(round, host));
    command_line(alloc, Actor::Manager, ADD, &payload)
}

/// The host takes its extent of the round.
#[tactic(auto, unfolding(crate::specs::Generated::take_line))]
pub fn take(alloc: Global, round: u16, host: HostId) -> Result<Line, NoMemory>
    requires { host < 4 }
    ensures { IfOk result (λ line. line ≡ take_line round host) }
{
    let payload = listed_payload(&share(round, host));
    command_line(alloc, Actor::Host(host), ADD_RESPONSE, &payload)
}

/// The host clears the record of its offer. Its log has one record a round, so that handles go up by one.
#[tactic(auto, unfolding(crate::specs::Generated::clear_line))]
pub fn clear(alloc: Global, round: u16, host: HostId) -> Result<Line, NoMemory>
    requires { round < 256 }
    ensures { IfOk result (λ line. line ≡ clear_line round host) }
{
    let payload = clearing_payload(CAPACITY_LOG, round + 1);
    command_line(alloc, Actor::Host(host), CLEAR_EVENTS, &payload)
}

/// The host gives its extent of the round back.
#[tactic(auto, unfolding(crate::specs::Generated::give_back_line))]
pub fn give_back(alloc: Global, round: u16, host: HostId) -> Result<Line, NoMemory>
    requires { host < 4 }
    ensures { IfOk result (λ line. line ≡ give_back_line round host) }
{
    let payload = listed_payload(&share(round, host));
    command_line(alloc, Actor::Host(host), GIVE_BACK, &payload)
}
