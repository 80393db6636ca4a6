//! Lines of a script, printed.

ghost use Rattle.cci_codec.specs.Messages.{ReadsRequest, request_bytes};
ghost use Rattle.journal_core.specs.declared.acts.Act.{Act};
ghost use Rattle.text_lines.specs.script_codec.specs.declared.script_line.Line.{Line};
ghost use Rattle.text_lines.specs.script_codec.specs.Scripts.{are_lanes, is_sound_line};
ghost use Rattle.text_lines.specs.script_codec.specs.Writing.{has_short_message};
ghost use Rattle.std.specs.Prelude.{◌++◌, ◌∷◌, ◌≤◌, [], IsTrue, OnOk, codes, length};
ghost use Rattle.text_lines.specs.Layouts.{command_line, host_fits_line, host_request_parts, load_parts, manager_fits_line, manager_request_parts, store_parts, tag_part};
ghost use Rattle.text_lines.specs.Parts.{Form, Part};
ghost use Rattle.script_text.specs.LinePrinting.{AddsLine, AddsParts, PrintsAct, PrintsHostCommand, PrintsLine, PrintsManagerCommand, has_word};

use crate::actors::{begin_actor, write_actor};
use crate::host_requests::write_host_request;
use crate::lists::write_bytes;
use crate::manager_requests::write_manager_request;
use crate::naming::{named_by_host, named_by_manager};
use crate::words::{
    begin_fixed, end_line, write_count, write_fixed, write_may_count, write_number,
};
use cci_codec::{Request, encode_request, law_request_is_spelled};
use dcd_base::{Actor, Bytes, NoMemory};
use fm_payloads::FmRequest;
use host_payloads::HostRequest;
use journal_core::Act;
use std::alloc::Global;
use text_lines::script_codec::Line;
use text_lines::{Frame, Keyword};

/// Appends a mark.
fn write_mark(out: &mut Bytes) -> Result<(), NoMemory>
    ensures { OnOk result (AddsLine out.old out.new (Part.Fixed (codes "mark") ∷ [])) }
{
    begin_fixed(b"mark".as_slice(), out)?;
    end_line(out)?;
    Ok(())
}

/// Appends a turn of the sanitizer.
fn write_scrub(most: u16, out: &mut Bytes) -> Result<(), NoMemory>
    ensures { OnOk result (AddsLine out.old out.new (Part.Fixed (codes "scrub") ∷ Part.Number Form.Count 65535 most ∷ [])) }
{
    begin_fixed(b"scrub".as_slice(), out)?;
    write_count(65535, most as u64, out)?;
    end_line(out)?;
    Ok(())
}

/// Appends a load.
fn write_load(
    frame: Frame,
    actor: &Actor,
    lane: u8,
    dpa: u64,
    out: &mut Bytes,
) -> Result<(), NoMemory>
    requires lanes { IsTrue (are_lanes frame.version frame.lanes) }
    requires word { IsTrue (has_word frame actor.now lane) }
    ensures { OnOk result (AddsLine out.old out.new (load_parts frame actor.now lane dpa)) }
{
    begin_actor(frame, actor, lane, out)?;
    write_fixed(b"load".as_slice(), out)?;
    write_number(dpa, out)?;
    end_line(out)?;
    Ok(())
}

/// Appends a store.
fn write_store(
    frame: Frame,
    actor: &Actor,
    lane: u8,
    dpa: u64,
    value: u64,
    out: &mut Bytes,
) -> Result<(), NoMemory>
    requires lanes { IsTrue (are_lanes frame.version frame.lanes) }
    requires word { IsTrue (has_word frame actor.now lane) }
    ensures { OnOk result (AddsLine out.old out.new (store_parts frame actor.now lane dpa value)) }
{
    begin_actor(frame, actor, lane, out)?;
    write_fixed(b"store".as_slice(), out)?;
    write_number(dpa, out)?;
    write_number(value, out)?;
    end_line(out)?;
    Ok(())
}

/// Appends the bytes of a message.
fn write_message(alloc: Global, message: &Request, out: &mut Bytes) -> Result<(), NoMemory>
    requires { length message.now.payload ≤ 65523 }
    ensures { OnOk result (AddsParts out.old out.new (Part.Pairs (request_bytes message.now) ∷ [])) }
{
    let mut bytes = Bytes::new(alloc);
    encode_request(message, &mut bytes)?;
    write_bytes(bytes.as_slice(), out)?;
    Ok(())
}

/// The bytes that are printed of a message read as it.
fn law_message_reads(message: &Request)
    requires { length message.now.payload ≤ 65523 }
    ensures { ReadsRequest (request_bytes message.now) message.now }
{
    law_request_is_spelled(message);
}

/// Appends a message byte by byte.
fn write_command_line(
    alloc: Global,
    frame: Frame,
    actor: &Actor,
    lane: u8,
    message: &Request,
    out: &mut Bytes,
) -> Result<(), NoMemory>
    requires lanes { IsTrue (are_lanes frame.version frame.lanes) }
    requires word { IsTrue (has_word frame actor.now lane) }
    requires short { length message.now.payload ≤ 65523 }
    ensures { OnOk result (AddsLine out.old out.new (command_line frame actor.now lane (request_bytes message.now))) }
{
    begin_fixed(b"command".as_slice(), out)?;
    write_actor(frame, actor, lane, out)?;
    write_message(alloc, message, out)?;
    end_line(out)?;
    Ok(())
}

/// Appends what a host asks and the message tag.
fn write_host_named(
    frame: Frame,
    actor: &Actor,
    lane: u8,
    tag: u8,
    request: &HostRequest,
    out: &mut Bytes,
) -> Result<(), NoMemory>
    requires lanes { IsTrue (are_lanes frame.version frame.lanes) }
    requires word { IsTrue (has_word frame actor.now lane) }
    requires fits { IsTrue (host_fits_line request.now) }
    ensures { OnOk result (AddsLine out.old out.new (Part.ActorOf frame actor.now lane ∷ host_request_parts request.now ++ tag_part tag ∷ [])) }
{
    begin_actor(frame, actor, lane, out)?;
    write_host_request(request, out)?;
    write_may_count(Keyword::MessageTag, 255, tag as u64, out)?;
    end_line(out)?;
    Ok(())
}

/// Appends what the manager asks and the message tag.
fn write_manager_named(
    frame: Frame,
    actor: &Actor,
    lane: u8,
    tag: u8,
    request: &FmRequest,
    out: &mut Bytes,
) -> Result<(), NoMemory>
    requires lanes { IsTrue (are_lanes frame.version frame.lanes) }
    requires word { IsTrue (has_word frame actor.now lane) }
    requires fits { IsTrue (manager_fits_line request.now) }
    ensures { OnOk result (AddsLine out.old out.new (Part.ActorOf frame actor.now lane ∷ manager_request_parts request.now ++ tag_part tag ∷ [])) }
{
    begin_actor(frame, actor, lane, out)?;
    write_manager_request(request, out)?;
    write_may_count(Keyword::MessageTag, 255, tag as u64, out)?;
    end_line(out)?;
    Ok(())
}

/// Appends a message of a host.
fn write_host_command(
    alloc: Global,
    frame: Frame,
    actor: &Actor,
    lane: u8,
    message: &Request,
    out: &mut Bytes,
) -> Result<(), NoMemory>
    requires lanes { IsTrue (are_lanes frame.version frame.lanes) }
    requires word { IsTrue (has_word frame actor.now lane) }
    requires short { length message.now.payload ≤ 65523 }
    ensures { OnOk result (PrintsHostCommand frame actor.now lane message.now out.old out.new) }
{
    law_message_reads(message);
    match named_by_host(alloc, message)? {
        Some(request) => write_host_named(frame, actor, lane, message.tag, &request, out),
        None => write_command_line(alloc, frame, actor, lane, message, out),
    }
}

/// Appends a message of the manager.
fn write_manager_command(
    alloc: Global,
    frame: Frame,
    actor: &Actor,
    lane: u8,
    message: &Request,
    out: &mut Bytes,
) -> Result<(), NoMemory>
    requires lanes { IsTrue (are_lanes frame.version frame.lanes) }
    requires word { IsTrue (has_word frame actor.now lane) }
    requires short { length message.now.payload ≤ 65523 }
    ensures { OnOk result (PrintsManagerCommand frame actor.now lane message.now out.old out.new) }
{
    law_message_reads(message);
    match named_by_manager(alloc, message)? {
        Some(request) => write_manager_named(frame, actor, lane, message.tag, &request, out),
        None => write_command_line(alloc, frame, actor, lane, message, out),
    }
}

/// Appends a message.
fn write_command(
    alloc: Global,
    frame: Frame,
    actor: &Actor,
    lane: u8,
    message: &Request,
    out: &mut Bytes,
) -> Result<(), NoMemory>
    requires lanes { IsTrue (are_lanes frame.version frame.lanes) }
    requires word { IsTrue (has_word frame actor.now lane) }
    requires short { length message.now.payload ≤ 65523 }
    ensures { OnOk result (PrintsAct frame actor.now lane (Act.Command message.now) out.old out.new) }
{
    match actor {
        Actor::Manager => write_manager_command(alloc, frame, actor, lane, message, out),
        _ => write_host_command(alloc, frame, actor, lane, message, out),
    }
}

/// Appends what an actor does.
fn write_act(
    alloc: Global,
    frame: Frame,
    actor: &Actor,
    lane: u8,
    act: &Act,
    out: &mut Bytes,
) -> Result<(), NoMemory>
    requires lanes { IsTrue (are_lanes frame.version frame.lanes) }
    requires sound { IsTrue (is_sound_line frame.hosts frame.lanes (Line.Do actor.now lane act.now)) }
    requires short { IsTrue (has_short_message (Line.Do actor.now lane act.now)) }
    ensures { OnOk result (PrintsAct frame actor.now lane act.now out.old out.new) }
{
    match act {
        Act::Command(message) => write_command(alloc, frame, actor, lane, message, out),
        Act::Load(dpa) => write_load(frame, actor, lane, *dpa, out),
        Act::Store(dpa, value) => write_store(frame, actor, lane, *dpa, *value, out),
        Act::Scrub(most) => write_scrub(*most, out),
    }
}

/// Appends a line of a script: the words that say it, with one space between them, and a line feed.
#[tactic(auto, unfolding(text_lines::specs::Layouts::line_parts))]
pub fn write_line(alloc: Global, frame: Frame, line: &Line, out: &mut Bytes) -> Result<(), NoMemory>
    requires lanes { IsTrue (are_lanes frame.version frame.lanes) }
    requires sound { IsTrue (is_sound_line frame.hosts frame.lanes line.now) }
    requires short { IsTrue (has_short_message line.now) }
    ensures { OnOk result (PrintsLine frame line.now out.old out.new) }
{
    match line {
        Line::Mark => write_mark(out),
        Line::Do { actor, lane, act } => write_act(alloc, frame, actor, *lane, act, out),
    }
}
