//! One line of a script in bytes.

ghost use Rattle.script_codec.specs.Fields.{GivesField};
ghost use Rattle.script_codec.specs.Lines.{command_from, commanded_by, commanded_from, commander_from, commander_of, host_from, host_of, is_host_byte, kind_from, line_from, load_from, message_from, message_of, other_from, scrub_from, store_from};
ghost use Rattle.script_codec.specs.Moving.{IsWithin};
ghost use Rattle.std.specs.Prelude.{◌≡◌, ◌≤◌, IfErr, IfOk, length, take};

use crate::faults::ScriptFault;
use crate::fields::{skip, u8_at, u16_at, u64_at};
use crate::script_line::Line;
use cci_codec::dcd_base::{Actor, HostId};
use cci_codec::{MessageFault, Request};
use journal_core::Act;
use std::alloc::Global;

/// Whether the byte names a host and a lane of it: the host in the low four bits, the lane in the others.
fn names_host(hosts: u8, lanes: u8, byte: u8) -> bool
    ensures { result ≡ is_host_byte hosts lanes byte }
{
    byte % 16 < hosts && byte / 16 < lanes
}

/// The host and the lane that the byte at the place names.
fn host_named(hosts: u8, lanes: u8, at: usize, byte: u8) -> Result<(HostId, u8), ScriptFault>
    ensures value { GivesField (λ x. x) result (host_of hosts lanes at byte) }
    ensures fault { IfErr result (IsWithin at) }
{
    if names_host(hosts, lanes, byte) {
        Ok((HostId(byte % 16), byte / 16))
    } else {
        Err(ScriptFault::UnknownActor(at as u64))
    }
}

/// The actor of a command and its lane, named by the byte at the place.
fn commander_named(hosts: u8, lanes: u8, at: usize, byte: u8) -> Result<(Actor, u8), ScriptFault>
    ensures value { GivesField (λ x. x) result (commander_of hosts lanes at byte) }
    ensures fault { IfErr result (IsWithin at) }
{
    if names_host(hosts, lanes, byte) {
        Ok((Actor::Host(HostId(byte % 16)), byte / 16))
    } else if byte == 0xFE {
        Ok((Actor::Manager, 0))
    } else {
        Err(ScriptFault::UnknownActor(at as u64))
    }
}

/// A host and its lane.
#[tactic(auto, unfolding(crate::specs::Lines::host_from))]
fn host_at(
    hosts: u8,
    lanes: u8,
    bytes: &[u8],
    at: usize,
) -> Result<((HostId, u8), usize), ScriptFault>
    requires { at ≤ length bytes.now }
    ensures value { GivesField (λ x. x) result (host_from hosts lanes bytes.now at) }
    ensures within { IfOk result (λ x. x.1 ≤ length bytes.now) }
    ensures fault { IfErr result (IsWithin (length bytes.now)) }
{
    let (byte, next) = u8_at(bytes, at)?;
    let host = host_named(hosts, lanes, at, byte)?;
    Ok((host, next))
}

/// The actor of a command and its lane.
#[tactic(auto, unfolding(crate::specs::Lines::commander_from))]
fn commander_at(
    hosts: u8,
    lanes: u8,
    bytes: &[u8],
    at: usize,
) -> Result<((Actor, u8), usize), ScriptFault>
    requires { at ≤ length bytes.now }
    ensures value { GivesField (λ x. x) result (commander_from hosts lanes bytes.now at) }
    ensures within { IfOk result (λ x. x.1 ≤ length bytes.now) }
    ensures fault { IfErr result (IsWithin (length bytes.now)) }
{
    let (byte, next) = u8_at(bytes, at)?;
    let actor = commander_named(hosts, lanes, at, byte)?;
    Ok((actor, next))
}

/// Makes the request the one that a message of `size` bytes is, which stands first and begins at the place.
#[inline(always)]
fn fill_request(
    alloc: Global,
    at: usize,
    bytes: &[u8],
    size: usize,
    request: &mut Request,
) -> Result<(), ScriptFault>
    requires { size ≤ length bytes.now }
    ensures value { GivesField (λ _. request.new) result (message_of at (take size bytes.now)) }
    ensures fault { IfErr result (IsWithin at) }
{
    match request.fill(alloc, bytes, size) {
        Ok(()) => Ok(()),
        Err(MessageFault::NoMemory) => Err(ScriptFault::NoMemory),
        Err(fault) => Err(ScriptFault::BadMessage {
            at: at as u64,
            fault,
        }),
    }
}

/// Makes the request the one that a message of so many bytes is, and answers the place behind it.
#[inline(always)]
#[tactic(auto, unfolding(crate::specs::Lines::message_from))]
fn fill_message(
    alloc: Global,
    size: u16,
    bytes: &[u8],
    at: usize,
    request: &mut Request,
) -> Result<usize, ScriptFault>
    requires { at ≤ length bytes.now }
    ensures value { GivesField (λ next. (request.new, next)) result (message_from size bytes.now at) }
    ensures within { IfOk result (λ next. next ≤ length bytes.now) }
    ensures fault { IfErr result (IsWithin (length bytes.now)) }
{
    let size = usize::from(size);
    let next = skip(bytes, at, size)?;
    let (_, rest) = bytes.split_at(at);
    fill_request(alloc, at, rest, size, request)?;
    Ok(next)
}

/// A message of so many bytes.
pub fn message_at(
    alloc: Global,
    size: u16,
    bytes: &[u8],
    at: usize,
) -> Result<(Request, usize), ScriptFault>
    requires { at ≤ length bytes.now }
    ensures value { GivesField (λ x. x) result (message_from size bytes.now at) }
    ensures within { IfOk result (λ x. x.1 ≤ length bytes.now) }
    ensures fault { IfErr result (IsWithin (length bytes.now)) }
{
    let mut request = Request::empty();
    let next = fill_message(alloc, size, bytes, at, &mut request)?;
    Ok((request, next))
}

/// Puts a command of this actor, whose message has so many bytes, in place of the line, and answers the place behind it.
#[inline(never)]
fn begin_commanded(
    alloc: Global,
    commander: (Actor, u8),
    size: u16,
    bytes: &[u8],
    at: usize,
    line: &mut Line,
) -> Result<usize, ScriptFault>
    requires { at ≤ length bytes.now }
    ensures value { GivesField (λ next. (line.new, next)) result (commanded_from commander size bytes.now at) }
    ensures within { IfOk result (λ next. next ≤ length bytes.now) }
    ensures fault { IfErr result (IsWithin (length bytes.now)) }
{
    let (request, next) = message_at(alloc, size, bytes, at)?;
    *line = Line::Do {
        actor: commander.0,
        lane: commander.1,
        act: Act::Command(request),
    };
    Ok(next)
}

/// Gives the act of the line to this actor.
#[inline(always)]
fn append_commander(line: &mut Line, commander: (Actor, u8))
    ensures { line.new ≡ commanded_by commander line.old }
{
    match line {
        Line::Do { actor, lane, .. } => {
            *actor = commander.0;
            *lane = commander.1;
        }
        Line::Mark => {}
    }
}

/// Makes the line a command of this actor whose message has so many bytes, and answers the place behind it. A command that
/// the line was leaves its memory to it.
#[inline(always)]
fn fill_commanded(
    alloc: Global,
    commander: (Actor, u8),
    size: u16,
    bytes: &[u8],
    at: usize,
    line: &mut Line,
) -> Result<usize, ScriptFault>
    requires { at ≤ length bytes.now }
    ensures value { GivesField (λ next. (line.new, next)) result (commanded_from commander size bytes.now at) }
    ensures within { IfOk result (λ next. next ≤ length bytes.now) }
    ensures fault { IfErr result (IsWithin (length bytes.now)) }
{
    match line {
        Line::Do {
            act: Act::Command(request),
            ..
        } => {
            let next = fill_message(alloc, size, bytes, at, request)?;
            append_commander(line, commander);
            Ok(next)
        }
        _ => begin_commanded(alloc, commander, size, bytes, at, line),
    }
}

/// A command: the actor, the length of the message, and the message.
#[inline(always)]
#[tactic(auto, unfolding(crate::specs::Lines::command_from))]
fn fill_command(
    alloc: Global,
    hosts: u8,
    lanes: u8,
    bytes: &[u8],
    at: usize,
    line: &mut Line,
) -> Result<usize, ScriptFault>
    requires { at ≤ length bytes.now }
    ensures value { GivesField (λ next. (line.new, next)) result (command_from hosts lanes bytes.now at) }
    ensures within { IfOk result (λ next. next ≤ length bytes.now) }
    ensures fault { IfErr result (IsWithin (length bytes.now)) }
{
    let (commander, next) = commander_at(hosts, lanes, bytes, at)?;
    let (size, next) = u16_at(bytes, next)?;
    fill_commanded(alloc, commander, size, bytes, next, line)
}

/// Puts a load in place of the line: the host and the DPA.
#[inline(always)]
#[tactic(auto, unfolding(crate::specs::Lines::load_from))]
fn fill_load(
    hosts: u8,
    lanes: u8,
    bytes: &[u8],
    at: usize,
    line: &mut Line,
) -> Result<usize, ScriptFault>
    requires { at ≤ length bytes.now }
    ensures value { GivesField (λ next. (line.new, next)) result (load_from hosts lanes bytes.now at) }
    ensures within { IfOk result (λ next. next ≤ length bytes.now) }
    ensures fault { IfErr result (IsWithin (length bytes.now)) }
{
    let ((host, lane), next) = host_at(hosts, lanes, bytes, at)?;
    let (dpa, next) = u64_at(bytes, next)?;
    let actor = Actor::Host(host);
    let act = Act::Load(dpa);
    *line = Line::Do { actor, lane, act };
    Ok(next)
}

/// Puts a store in place of the line: the host, the DPA and the value.
#[inline(always)]
#[tactic(auto, unfolding(crate::specs::Lines::store_from))]
fn fill_store(
    hosts: u8,
    lanes: u8,
    bytes: &[u8],
    at: usize,
    line: &mut Line,
) -> Result<usize, ScriptFault>
    requires { at ≤ length bytes.now }
    ensures value { GivesField (λ next. (line.new, next)) result (store_from hosts lanes bytes.now at) }
    ensures within { IfOk result (λ next. next ≤ length bytes.now) }
    ensures fault { IfErr result (IsWithin (length bytes.now)) }
{
    let ((host, lane), next) = host_at(hosts, lanes, bytes, at)?;
    let (dpa, next) = u64_at(bytes, next)?;
    let (value, next) = u64_at(bytes, next)?;
    let actor = Actor::Host(host);
    let act = Act::Store(dpa, value);
    *line = Line::Do { actor, lane, act };
    Ok(next)
}

/// Puts a scrub in place of the line: how many granules at most.
#[inline(always)]
#[tactic(auto, unfolding(crate::specs::Lines::scrub_from))]
fn fill_scrub(bytes: &[u8], at: usize, line: &mut Line) -> Result<usize, ScriptFault>
    requires { at ≤ length bytes.now }
    ensures value { GivesField (λ next. (line.new, next)) result (scrub_from bytes.now at) }
    ensures within { IfOk result (λ next. next ≤ length bytes.now) }
    ensures fault { IfErr result (IsWithin (length bytes.now)) }
{
    let (most, next) = u16_at(bytes, at)?;
    *line = Line::Do {
        actor: Actor::Sanitizer,
        lane: 0,
        act: Act::Scrub(most),
    };
    Ok(next)
}

/// The kind of a line, 1 to 5, or 0, the end word.
#[tactic(auto, unfolding(crate::specs::Lines::kind_from))]
pub fn kind_at(bytes: &[u8], at: usize) -> Result<(u8, usize), ScriptFault>
    requires { at ≤ length bytes.now }
    ensures value { GivesField (λ x. x) result (kind_from bytes.now at) }
    ensures within { IfOk result (λ x. x.1 ≤ length bytes.now) }
    ensures fault { IfErr result (IsWithin (length bytes.now)) }
{
    let (kind, next) = u8_at(bytes, at)?;
    if kind > 5 {
        return Err(ScriptFault::UnknownKind(at as u64));
    }
    Ok((kind, next))
}

/// Puts the rest of one that is no command, of this kind, 2 to 5, in place of the line, and answers the place behind it.
#[inline(never)]
fn fill_other(
    kind: u8,
    hosts: u8,
    lanes: u8,
    bytes: &[u8],
    at: usize,
    line: &mut Line,
) -> Result<usize, ScriptFault>
    requires { at ≤ length bytes.now }
    ensures value { GivesField (λ next. (line.new, next)) result (other_from kind hosts lanes bytes.now at) }
    ensures within { IfOk result (λ next. next ≤ length bytes.now) }
    ensures fault { IfErr result (IsWithin (length bytes.now)) }
{
    match kind {
        2 => fill_load(hosts, lanes, bytes, at, line),
        3 => fill_store(hosts, lanes, bytes, at, line),
        4 => fill_scrub(bytes, at, line),
        _ => {
            *line = Line::Mark;
            Ok(at)
        }
    }
}

/// Makes the line the rest of one of this kind, 1 to 5, and answers the place behind it. A command that the line was leaves
/// its memory to the next; at a fault the line may be any.
#[inline(always)]
pub fn fill_line(
    alloc: Global,
    kind: u8,
    hosts: u8,
    lanes: u8,
    bytes: &[u8],
    at: usize,
    line: &mut Line,
) -> Result<usize, ScriptFault>
    requires { at ≤ length bytes.now }
    ensures value { GivesField (λ next. (line.new, next)) result (line_from kind hosts lanes bytes.now at) }
    ensures within { IfOk result (λ next. next ≤ length bytes.now) }
    ensures fault { IfErr result (IsWithin (length bytes.now)) }
{
    if kind == 1 {
        return fill_command(alloc, hosts, lanes, bytes, at, line);
    }
    fill_other(kind, hosts, lanes, bytes, at, line)
}

/// The rest of a line of this kind, 1 to 5.
pub fn line_at(
    alloc: Global,
    kind: u8,
    hosts: u8,
    lanes: u8,
    bytes: &[u8],
    at: usize,
) -> Result<(Line, usize), ScriptFault>
    requires { at ≤ length bytes.now }
    ensures value { GivesField (λ x. x) result (line_from kind hosts lanes bytes.now at) }
    ensures within { IfOk result (λ x. x.1 ≤ length bytes.now) }
    ensures fault { IfErr result (IsWithin (length bytes.now)) }
{
    let mut line = Line::Mark;
    let next = fill_line(alloc, kind, hosts, lanes, bytes, at, &mut line)?;
    Ok((line, next))
}
