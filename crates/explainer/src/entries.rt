//! Entries in words.

ghost use Rattle.dcd_base.specs.declared.failures.AccessFault.{AccessFault};
ghost use Rattle.explainer.specs.Explanations.{access_refusal, entries_explained, entry_explained, line_explained, reply_explained, script_frame, step_explained};
ghost use Rattle.journal_check.specs.kept_journal.specs.Lending.{lent_entry};
ghost use Rattle.journal_core.specs.Seen.{seen_reply};
ghost use Rattle.journal_core.specs.declared.acts.Reply.{Reply};
ghost use Rattle.explainer.specs.PartWords.{detail, labelled};
ghost use Rattle.script_text.specs.script_codec.specs.Scripts.{are_lanes, is_sound_line};
ghost use Rattle.script_text.specs.script_codec.specs.Writing.{IsWritable, has_short_message};
ghost use Rattle.std.specs.Prelude.{◌≡◌, ◌-◌, ◌++◌, ◌∷◌, [], IsTrue, OnOk, codes, slice_get};
ghost use Rattle.script_text.specs.LinePrinting.{printed_words};
ghost use Rattle.script_text.specs.text_lines.specs.Words.{line_text};

use crate::{write_answer, write_labelled, write_labelled_size};
use dcd_base::{AccessFault, Bytes, NoMemory};
use journal_check::kept_journal::{Lender, Lent};
use journal_core::ReplySeen;
use script_text::script_codec::{Line, Script};
use script_text::text_lines::Frame;
use script_text::write_line;
use std::alloc::Global;

/// Why a load or a store was refused.
fn refusal_of(fault: AccessFault) -> &'static [u8]
    ensures { result.now ≡ access_refusal fault }
{
    match fault {
        AccessFault::Misaligned => b"refused: the address is no multiple of 8".as_slice(),
        AccessFault::OutsideRegions => {
            b"refused: no region of the host has the address".as_slice()
        }
        AccessFault::NotGranted => b"refused: the host does not hold the address".as_slice(),
    }
}

/// Appends words as a line of their own.
fn write_words(words: &[u8], out: &mut Bytes) -> Result<(), NoMemory>
    ensures { OnOk result (out.new ≡ out.old ++ detail words.now) }
{
    out.extend_from_slice(b"    ")?;
    out.extend_from_slice(words)?;
    out.push(b'\n')
}

/// Appends the word that a load read.
fn write_word(word: u64, out: &mut Bytes) -> Result<(), NoMemory>
    ensures { OnOk result (out.new ≡ out.old ++ reply_explained (Reply.Word word)) }
{
    out.extend_from_slice(b"    ")?;
    write_labelled_size(b"word ", word, out)?;
    out.push(b'\n')
}

/// Appends how many granules were zeroed.
fn write_zeroed(count: u32, out: &mut Bytes) -> Result<(), NoMemory>
    ensures { OnOk result (out.new ≡ out.old ++ reply_explained (Reply.Scrubbed count)) }
{
    out.extend_from_slice(b"    ")?;
    write_labelled(b"granules zeroed ", u64::from(count), out)?;
    out.push(b'\n')
}

/// Appends a reply.
fn write_reply(reply: &ReplySeen<'_>, out: &mut Bytes) -> Result<(), NoMemory>
    ensures { OnOk result (out.new ≡ out.old ++ reply_explained (seen_reply reply.now)) }
{
    match reply {
        ReplySeen::Answer(response) => {
            write_answer(response.opcode, response.code, response.payload, out)
        }
        ReplySeen::Word(word) => write_word(*word, out),
        ReplySeen::Stored => write_words(b"stored", out),
        ReplySeen::Refused(fault) => write_words(refusal_of(*fault), out),
        ReplySeen::Scrubbed(count) => write_zeroed(*count, out),
    }
}

/// What the head of the script says to its lines.
fn frame_of(script: &Script) -> Frame
    ensures { result ≡ script_frame script.now }
{
    Frame {
        version: script.version,
        hosts: script.config.hosts(),
        lanes: script.lanes,
    }
}

/// Appends a line of a script in the readable form.
fn write_known_line(
    alloc: Global,
    frame: Frame,
    line: &Line,
    out: &mut Bytes,
) -> Result<(), NoMemory>
    requires lanes { IsTrue (are_lanes frame.version frame.lanes) }
    requires sound { IsTrue (is_sound_line frame.hosts frame.lanes line.now) }
    requires short { IsTrue (has_short_message line.now) }
    ensures { OnOk result (out.new ≡ out.old ++ line_text (printed_words frame line.now)) }
{
    write_line(alloc, frame, line, out)?;
    Ok(())
}

/// Appends the line of the script of this number in the readable form.
fn write_line_of(
    alloc: Global,
    script: &Script,
    number: u32,
    out: &mut Bytes,
) -> Result<(), NoMemory>
    requires { IsWritable script.now }
    ensures { OnOk result (out.new ≡ out.old ++ line_explained (script_frame script.now) (slice_get script.now.lines (number - 1))) }
{
    let frame = frame_of(script);
    match script.lines.get((number as usize).saturating_sub(1)) {
        Some(line) => write_known_line(alloc, frame, line, out),
        None => out.push(b'\n'),
    }
}

/// Appends the number of a line.
fn write_number(number: u32, out: &mut Bytes) -> Result<(), NoMemory>
    ensures { OnOk result (out.new ≡ out.old ++ labelled [] number) }
{
    write_labelled(b"", u64::from(number), out)
}

/// Appends the line of the script of this number, and a reply to it.
#[tactic(auto, unfolding(crate::specs::Explanations::step_explained))]
fn write_step(
    alloc: Global,
    script: &Script,
    number: u32,
    reply: &ReplySeen<'_>,
    out: &mut Bytes,
) -> Result<(), NoMemory>
    requires { IsWritable script.now }
    ensures { OnOk result (out.new ≡ out.old ++ step_explained script.now number (seen_reply reply.now)) }
{
    write_number(number, out)?;
    out.extend_from_slice(b"  ")?;
    write_line_of(alloc, script, number, out)?;
    write_reply(reply, out)
}

/// Appends an entry, which is lent.
fn write_entry(
    alloc: Global,
    script: &Script,
    entry: &Lent<'_>,
    out: &mut Bytes,
) -> Result<(), NoMemory>
    requires { IsWritable script.now }
    ensures { OnOk result (out.new ≡ out.old ++ entry_explained script.now (lent_entry entry.now)) }
{
    let step = entry.seen();
    write_step(alloc, script, step.line, &step.reply, out)
}

/// Appends the entries that are lent. None is left then.
#[tactic(auto, unfolding(crate::specs::Explanations::entries_explained))]
pub(crate) fn write_entries<J: Lender>(
    alloc: Global,
    script: &Script,
    journal: &mut J,
    out: &mut Bytes,
) -> Result<(), NoMemory>
    requires { IsWritable script.now }
    ensures { OnOk result (out.new ≡ out.old ++ entries_explained script.now (J.rest journal.old)) }
{
    while let Some(entry) = journal.peek() {
        write_entry(alloc, script, &entry, out)?;
        journal.skip();
    }
    Ok(())
}
