//! The lines of entries.

ghost use Rattle.control_core.specs.Deciding.{AreShort, IsShort};
ghost use Rattle.control_core.specs.kept_journal.specs.Lending.{lent_entry};
ghost use Rattle.journal_core.specs.Seen.{seen_reply, seen_response};
ghost use Rattle.journal_core.specs.declared.acts.Reply.{Reply};
ghost use Rattle.report.specs.Printing.{Puts};
ghost use Rattle.report.specs.Texts.{entry_line, entry_lines, fault_number, kind_name, next_word, reply_words, rest_of_line};
ghost use Rattle.std.specs.Prelude.{◌≡◌, ◌<◌, ◌^◌, length};

use crate::printing::Printer;
use cci_codec::response_head;
use control_core::kept_journal::{Lender, Lent};
use dcd_base::{AccessFault, Sink};
use journal_core::{ActKind, ReplySeen, ResponseSeen};

/// The number of a fault of a load or store.
fn fault_number(fault: AccessFault) -> u64
    ensures { result ≡ fault_number fault }
{
    match fault {
        AccessFault::Misaligned => 1,
        AccessFault::OutsideRegions => 2,
        AccessFault::NotGranted => 3,
    }
}

/// Puts a space and the name of a kind of act.
fn write_kind<K: Sink>(printer: &mut Printer, sink: &mut K, kind: ActKind)
    ensures { Puts K.taken K.faults sink.old printer.old sink.new printer.new (next_word (kind_name kind)) }
{
    match kind {
        ActKind::Command => printer.write_word(sink, b"cmd"),
        ActKind::Load => printer.write_word(sink, b"ld"),
        ActKind::Store => printer.write_word(sink, b"st"),
        ActKind::Scrub => printer.write_word(sink, b"sc"),
    }
}

/// Puts the digits of a response: its header, then its payload.
#[tactic(auto, using(crate::proofs::Parts::prints_then))]
fn write_response<K: Sink>(printer: &mut Printer, sink: &mut K, response: &ResponseSeen<'_>)
    requires { length response.now.payload.now < 2 ^ 21 }
    ensures { Puts K.taken K.faults sink.old printer.old sink.new printer.new (rest_of_line (reply_words (Reply.Answer (seen_response response.now)))) }
{
    let head = response_head(
        response.tag,
        response.opcode,
        response.code,
        response.payload.len() as u32,
    );
    printer.put(sink, b" ");
    printer.write_hex(sink, head.as_slice());
    printer.write_hex(sink, response.payload);
    printer.end_line(sink);
}

/// Puts the sixteen digits of a word, the most significant first.
#[tactic(auto, using(crate::proofs::Parts::prints_then))]
fn write_loaded<K: Sink>(printer: &mut Printer, sink: &mut K, word: u64)
    ensures { Puts K.taken K.faults sink.old printer.old sink.new printer.new (rest_of_line (reply_words (Reply.Word word))) }
{
    printer.put(sink, b" ");
    printer.write_hex(sink, word.to_be_bytes().as_slice());
    printer.end_line(sink);
}

/// Says that a store was done.
#[tactic(auto, using(crate::proofs::Parts::prints_then))]
fn write_stored<K: Sink>(printer: &mut Printer, sink: &mut K)
    ensures { Puts K.taken K.faults sink.old printer.old sink.new printer.new (rest_of_line (reply_words Reply.Stored)) }
{
    printer.write_word(sink, b"ok");
    printer.end_line(sink);
}

/// Says that a load or a store was refused, and why.
#[tactic(auto, using(crate::proofs::Parts::prints_then))]
fn write_refused<K: Sink>(printer: &mut Printer, sink: &mut K, fault: AccessFault)
    ensures { Puts K.taken K.faults sink.old printer.old sink.new printer.new (rest_of_line (reply_words (Reply.Refused fault))) }
{
    printer.write_counted(sink, b"refused", fault_number(fault));
    printer.end_line(sink);
}

/// Says how many granules were zeroed.
#[tactic(auto, using(crate::proofs::Parts::prints_then))]
fn write_scrubbed<K: Sink>(printer: &mut Printer, sink: &mut K, count: u32)
    ensures { Puts K.taken K.faults sink.old printer.old sink.new printer.new (rest_of_line (reply_words (Reply.Scrubbed count))) }
{
    printer.write_count(sink, u64::from(count));
    printer.end_line(sink);
}

/// Puts a reply and ends the line.
fn write_reply<K: Sink>(printer: &mut Printer, sink: &mut K, reply: &ReplySeen<'_>)
    requires { IsShort (seen_reply reply.now) }
    ensures { Puts K.taken K.faults sink.old printer.old sink.new printer.new (rest_of_line (reply_words (seen_reply reply.now))) }
{
    match reply {
        ReplySeen::Answer(response) => write_response(printer, sink, response),
        ReplySeen::Word(word) => write_loaded(printer, sink, *word),
        ReplySeen::Stored => write_stored(printer, sink),
        ReplySeen::Refused(fault) => write_refused(printer, sink, *fault),
        ReplySeen::Scrubbed(count) => write_scrubbed(printer, sink, *count),
    }
}

/// Puts the line of an entry, which is lent: its number, its line in the script, its actor, and its answer.
#[tactic(auto, using(crate::proofs::Parts::prints_then), unfolding(crate::specs::Texts::entry_line))]
fn write_entry<K: Sink>(printer: &mut Printer, sink: &mut K, number: u64, entry: &Lent<'_>)
    requires { IsShort (lent_entry entry.now).reply }
    ensures { Puts K.taken K.faults sink.old printer.old sink.new printer.new (entry_line (number, lent_entry entry.now)) }
{
    let step = entry.seen();
    printer.write_number(sink, number);
    printer.write_count(sink, u64::from(step.line));
    printer.write_actor(sink, step.actor);
    write_kind(printer, sink, step.kind);
    write_reply(printer, sink, &step.reply);
}

/// Puts a line for each entry that is lent, numbered from 1, and answers how many there are. None is left then.
#[tactic(auto, unfolding(crate::specs::Texts::entry_lines))]
pub fn write_entries<K: Sink, J: Lender>(
    printer: &mut Printer,
    sink: &mut K,
    journal: &mut J,
) -> u64
    requires short { AreShort (J.rest journal.old) }
    requires few { length (J.rest journal.old) < 2 ^ 64 }
    ensures count { result ≡ length (J.rest journal.old) }
    ensures lines { Puts K.taken K.faults sink.old printer.old sink.new printer.new (entry_lines (J.rest journal.old)) }
{
    let mut count = 0;
    while let Some(entry) = journal.peek() {
        count += 1;
        write_entry(printer, sink, count, &entry);
        journal.skip();
    }
    count
}
