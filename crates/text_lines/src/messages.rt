//! Messages, byte by byte or by the names of their commands.

ghost use Rattle.fm_payloads.specs.ManagerPayloads.{ManagerCountsFit, manager_opcode};
ghost use Rattle.host_payloads.specs.HostPayloads.{HostCountsFit, host_opcode, lists_untagged};
ghost use Rattle.std.specs.Prelude.{◌≡◌, ◌≤◌, IfOk, IsTrue, OnOk, length};
ghost use Rattle.text_lines.specs.Fields.{GivesWords, GivesLast};
ghost use Rattle.text_lines.specs.Lines.{bytes_at, bytes_ahead, command_ahead, host_asked_ahead, host_message as message_of_host, line_by as line_of_speaker, manager_asked_ahead, manager_message as message_of_manager, message_said};

use crate::actors::{Frame, Speaker, actor};
use crate::commands::{HostCommand, ManagerCommand};
use crate::faults::{Cause, TextFault, Wanted};
use crate::fields::{may, refused};
use crate::host_reading::host_request;
use crate::keywords::Keyword;
use crate::manager_reading::manager_request;
use crate::{Words, write_pairs_of};
use cci_codec::{MessageFault, Payload, Request, decode};
use dcd_base::{Actor, Bytes, HostId, NoMemory};
use fm_payloads::FmRequest;
use host_payloads::HostRequest;
use journal_core::Act;
use script_codec::Line;
use std::alloc::Global;

/// Puts the bytes of the words that are left behind those that are there.
fn fill_bytes(words: &mut Words<'_>, bytes: &mut Bytes) -> Result<(), TextFault>
    ensures value { GivesWords (λ _. bytes.new) result words.new (bytes_at bytes.old words.old.line words.old.word words.old.words) }
    ensures short { length bytes.old ≤ 65535 → OnOk result (length bytes.new ≤ 65535) }
{
    while !words.is_done() {
        if !write_pairs_of(words.next(), bytes)? {
            return Err(refused(words, Cause::OutOfForm(Wanted::Bytes)));
        }
        if bytes.len() > 65535 {
            return Err(refused(words, Cause::MessageTooLong));
        }
        words.advance();
    }
    Ok(())
}

/// Pairs of digits up to the end of the line.
#[tactic(auto, unfolding(crate::specs::Lines::bytes_ahead))]
fn bytes(alloc: Global, words: &mut Words<'_>) -> Result<Bytes, TextFault>
    ensures value { GivesWords (λ bytes. bytes) result words.new (bytes_ahead words.old) }
    ensures short { IfOk result (λ bytes. length bytes ≤ 65535) }
{
    let mut bytes = Bytes::new(alloc);
    if words.is_done() {
        return Err(refused(words, Cause::Wanted(Wanted::Bytes)));
    }
    fill_bytes(words, &mut bytes)?;
    Ok(bytes)
}

/// The request that a message is which begins with a word of that line.
fn request_of(alloc: Global, line: u64, word: u64, bytes: &[u8]) -> Result<Request, TextFault>
    ensures { GivesLast (λ request. request) result (message_said line word bytes.now) }
{
    match decode(alloc, bytes) {
        Ok(request) => Ok(request),
        Err(MessageFault::NoMemory) => Err(TextFault::NoMemory),
        Err(fault) => Err(TextFault::Refused {
            line,
            word,
            cause: Cause::BadMessage(fault),
        }),
    }
}

/// The line of an act of an actor.
pub fn line_by(speaker: Speaker, act: Act) -> Line
    ensures { result ≡ line_of_speaker speaker act }
{
    match speaker {
        Speaker::Host { host, lane } => Line::Do {
            actor: Actor::Host(HostId(host)),
            lane,
            act,
        },
        Speaker::Manager => Line::Do {
            actor: Actor::Manager,
            lane: 0,
            act,
        },
    }
}

/// A message byte by byte, behind its actor.
#[tactic(auto, unfolding(crate::specs::Lines::command_ahead))]
pub fn command(alloc: Global, words: &mut Words<'_>, frame: Frame) -> Result<Line, TextFault>
    ensures { GivesWords (λ line. line) result words.new (command_ahead frame words.old) }
{
    let speaker = actor(words, frame)?;
    let line = words.line();
    let word = words.word();
    let bytes = bytes(alloc, words)?;
    let request = request_of(alloc, line, word, bytes.as_slice())?;
    Ok(line_by(speaker, Act::Command(request)))
}

fn host_opcode_of(request: &HostRequest) -> u16
    ensures { result ≡ host_opcode request.now }
{
    match request {
        HostRequest::GetEvents { .. } => 0x0100,
        HostRequest::ClearEvents { .. } => 0x0101,
        HostRequest::GetConfiguration { .. } => 0x4800,
        HostRequest::GetExtents { .. } => 0x4801,
        HostRequest::AddResponse { .. } => 0x4802,
        HostRequest::GiveBack { .. } => 0x4803,
    }
}

/// The message that says a request of a host.
fn host_message(alloc: Global, tag: u8, request: &HostRequest) -> Result<Request, NoMemory>
    requires counts { HostCountsFit request.now }
    requires untagged { IsTrue (lists_untagged request.now) }
    ensures { IfOk result (λ message. message ≡ message_of_host tag request.now) }
{
    let mut payload = Bytes::new(alloc);
    host_payloads::encode(request, &mut payload)?;
    Ok(Request {
        tag,
        opcode: host_opcode_of(request),
        payload: Payload::from_slice(alloc, payload.as_slice())?,
    })
}

fn manager_opcode_of(request: &FmRequest) -> u16
    ensures { result ≡ manager_opcode request.now }
{
    match request {
        FmRequest::GetEvents { .. } => 0x0100,
        FmRequest::ClearEvents { .. } => 0x0101,
        FmRequest::GetInfo => 0x5600,
        FmRequest::GetRegions { .. } => 0x5601,
        FmRequest::SetRegion { .. } => 0x5602,
        FmRequest::GetExtentLists { .. } => 0x5603,
        FmRequest::Add { .. } => 0x5604,
        FmRequest::Remove { .. } => 0x5605,
        FmRequest::AddReference { .. } => 0x5606,
        FmRequest::RemoveReference { .. } => 0x5607,
        FmRequest::ListTags { .. } => 0x5608,
    }
}

/// The message that says a request of the manager.
fn manager_message(alloc: Global, tag: u8, request: &FmRequest) -> Result<Request, NoMemory>
    requires { ManagerCountsFit request.now }
    ensures { IfOk result (λ message. message ≡ message_of_manager tag request.now) }
{
    let mut payload = Bytes::new(alloc);
    fm_payloads::encode(request, &mut payload)?;
    Ok(Request {
        tag,
        opcode: manager_opcode_of(request),
        payload: Payload::from_slice(alloc, payload.as_slice())?,
    })
}

/// What a host asks, and the message tag behind it.
#[tactic(auto, unfolding(crate::specs::Lines::host_asked_ahead))]
pub fn host_asked(
    alloc: Global,
    command: HostCommand,
    words: &mut Words<'_>,
) -> Result<Act, TextFault>
    ensures { GivesWords (λ act. act) result words.new (host_asked_ahead command words.old) }
{
    let request = host_request(alloc, command, words)?;
    let tag = may(words, Keyword::MessageTag, 255)? as u8;
    let message = host_message(alloc, tag, &request)?;
    Ok(Act::Command(message))
}

/// What the manager asks, and the message tag behind it.
#[tactic(auto, unfolding(crate::specs::Lines::manager_asked_ahead))]
pub fn manager_asked(
    alloc: Global,
    command: ManagerCommand,
    words: &mut Words<'_>,
) -> Result<Act, TextFault>
    ensures { GivesWords (λ act. act) result words.new (manager_asked_ahead command words.old) }
{
    let request = manager_request(alloc, command, words)?;
    let tag = may(words, Keyword::MessageTag, 255)? as u8;
    let message = manager_message(alloc, tag, &request)?;
    Ok(Act::Command(message))
}
