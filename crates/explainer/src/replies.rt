//! Replies in words.

ghost use Rattle.explainer.specs.CodeWords.{return_code_words};
ghost use Rattle.explainer.specs.PartWords.{detail};
ghost use Rattle.explainer.specs.ReplyKinds.{has_kind, item_length, tail_length, head_length};
ghost use Rattle.explainer.specs.ReplyWords.{answer_lines, body_lines, heading, kind_lines, payload_lines, plain_lines};
ghost use Rattle.std.specs.Prelude.{◌≡◌, ◌+◌, ◌*◌, ◌≤◌, ◌++◌, IsTrue, OnOk, Some, length};

use crate::codes::write_code;
use crate::headings::write_heading;
use crate::items::{write_items, write_tail};
use crate::kinds::{ReplyKind, has_kind, head_length, item_count, item_length, kind_answered};
use crate::parts::{begin_detail, end_detail, write_bytes};
use dcd_base::{Bytes, NoMemory};

/// Appends the line of a return code.
fn write_code_line(code: u16, out: &mut Bytes) -> Result<(), NoMemory>
    ensures { OnOk result (out.new ≡ out.old ++ detail (return_code_words code)) }
{
    begin_detail(out)?;
    write_code(code, out)?;
    end_detail(out)
}

/// Appends the line of the head of a reply.
fn write_heading_line(kind: ReplyKind, payload: &[u8], out: &mut Bytes) -> Result<(), NoMemory>
    requires { head_length kind ≤ length payload.now }
    ensures { OnOk result (out.new ≡ out.old ++ detail (heading kind payload.now)) }
{
    begin_detail(out)?;
    write_heading(kind, payload, out)?;
    end_detail(out)
}

/// Appends what stands behind the head of a reply: so many items, and what stands behind them.
fn write_body(kind: ReplyKind, count: usize, body: &[u8], out: &mut Bytes) -> Result<(), NoMemory>
    requires { item_length kind * count + tail_length kind ≤ length body.now }
    ensures { OnOk result (out.new ≡ out.old ++ body_lines kind count body.now) }
{
    let (_, tail) = body.split_at(item_length(kind) * count);
    write_items(kind, count, body, out)?;
    write_tail(kind, tail, out)
}

/// Appends the lines of a payload of this kind.
#[tactic(auto, unfolding(crate::specs::ReplyWords::kind_lines))]
fn write_kind(kind: ReplyKind, payload: &[u8], out: &mut Bytes) -> Result<(), NoMemory>
    requires { IsTrue (has_kind kind payload.now) }
    ensures { OnOk result (out.new ≡ out.old ++ kind_lines kind payload.now) }
{
    let (_, body) = payload.split_at(head_length(kind));
    let count = item_count(kind, payload);
    write_heading_line(kind, payload, out)?;
    write_body(kind, count, body, out)
}

/// Appends the line of bytes that have no words, where there are any.
fn write_plain(payload: &[u8], out: &mut Bytes) -> Result<(), NoMemory>
    ensures { OnOk result (out.new ≡ out.old ++ plain_lines payload.now) }
{
    if payload.is_empty() {
        return Ok(());
    }
    begin_detail(out)?;
    write_bytes(payload, out)?;
    end_detail(out)
}

/// Appends the lines of a payload that may be of this kind.
fn write_known(kind: ReplyKind, payload: &[u8], out: &mut Bytes) -> Result<(), NoMemory>
    ensures { OnOk result (out.new ≡ out.old ++ payload_lines (Some kind) payload.now) }
{
    if has_kind(kind, payload) {
        write_kind(kind, payload, out)
    } else {
        write_plain(payload, out)
    }
}

/// Appends the lines of a payload.
fn write_payload(kind: Option<ReplyKind>, payload: &[u8], out: &mut Bytes) -> Result<(), NoMemory>
    ensures { OnOk result (out.new ≡ out.old ++ payload_lines kind payload.now) }
{
    match kind {
        Some(kind) => write_known(kind, payload, out),
        None => write_plain(payload, out),
    }
}

/// Appends an answer to a command, a line for each part, each with four spaces before it: the return code by its name in the
/// specification (CXL 3.1, 8.2.8.4.5.1), and what the payload says, by the opcode. A payload that does not read as the reply
/// to that command is shown byte by byte.
#[tactic(auto, unfolding(crate::specs::ReplyWords::answer_lines))]
pub fn write_answer(opcode: u16, code: u16, payload: &[u8], out: &mut Bytes) -> Result<(), NoMemory>
    ensures { OnOk result (out.new ≡ out.old ++ answer_lines opcode code payload.now) }
{
    let kind = kind_answered(opcode, code);
    write_code_line(code, out)?;
    write_payload(kind, payload, out)
}
