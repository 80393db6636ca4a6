//! The printed text of a journal.

ghost use Rattle.control_core.specs.Deciding.{AreShort};
ghost use Rattle.dcd_base.specs.Streams.{HasRisen, Passes};
ghost use Rattle.journal_core.specs.Entries.{effects};
ghost use Rattle.report.specs.Printing.{Puts};
ghost use Rattle.report.specs.Texts.{first_line, summary, text};
ghost use Rattle.std.specs.Prelude.{◌≡◌, ◌<◌, ◌≤◌, ◌^◌, [], List, OnErr, OnOk, length, ℕ};

use crate::entry_lines::write_entries;
use crate::printing::Printer;
use crate::state_lines::{write_records, write_state};
use control_core::Control;
use control_core::kept_journal::Lender;
use dcd_base::{Failed, Sink};

/// Puts the first line, with the version of the form.
#[tactic(auto, unfolding(crate::specs::Texts::first_line))]
fn write_first_line<K: Sink>(printer: &mut Printer, sink: &mut K)
    ensures { Puts K.taken K.faults sink.old printer.old sink.new printer.new first_line }
{
    printer.put(sink, b"dcd 1\n");
}

/// Puts the whole text.
#[tactic(auto, using(crate::proofs::Parts::prints_then), unfolding(crate::specs::Texts::text))]
fn write_text<K: Sink, J: Lender>(
    printer: &mut Printer,
    sink: &mut K,
    control: &Control,
    journal: &mut J,
)
    requires effects { effects control.now.entries ≡ effects (J.rest journal.old) }
    requires short { AreShort (J.rest journal.old) }
    requires few { length (J.rest journal.old) < 2 ^ 64 }
    ensures { Puts K.taken K.faults sink.old printer.old sink.new printer.new (text control.now.config (J.rest journal.old)) }
{
    write_first_line(printer, sink);
    let count = write_entries(printer, sink, journal);
    write_records(printer, sink, control);
    write_state(printer, sink, control, count);
}

/// Puts the summary.
#[tactic(auto, using(crate::proofs::Parts::prints_then), unfolding(crate::specs::Texts::summary))]
fn write_summary<K: Sink, J: Lender>(
    printer: &mut Printer,
    sink: &mut K,
    control: &Control,
    journal: &J,
)
    requires effects { effects control.now.entries ≡ effects (J.rest journal.now) }
    requires few { length (J.rest journal.now) < 2 ^ 64 }
    ensures { Puts K.taken K.faults sink.old printer.old sink.new printer.new (summary control.now.config (J.rest journal.now)) }
{
    write_first_line(printer, sink);
    write_state(printer, sink, control, journal.len());
}

/// Writes the text of a journal that is lent: a first line, a line for each entry, one for each record that is left in a
/// log, and the lines of the state. No entry is left to lend then.
///
/// The control's entries have the effects of the journal's. The payload of each response in the journal has a length
/// that the message can say. The text goes out in pieces of 4,096 bytes, the last one of 1 to 4,096; what a write leaves
/// of a piece is handed in next. It takes no memory. `Failed` comes only where the sink's count of faults has risen; the
/// sink has then taken a front of the text.
pub fn render<K: Sink, J: Lender>(
    control: &Control,
    journal: &mut J,
    sink: &mut K,
) -> Result<(), Failed>
    requires effects { effects control.now.entries ≡ effects (J.rest journal.old) }
    requires short { AreShort (J.rest journal.old) }
    requires few { length (J.rest journal.old) < 2 ^ 64 }
    ensures whole { OnOk result (Passes (K.taken sink.old) (K.taken sink.new) [] (text control.now.config (J.rest journal.old))) }
    ensures front { OnErr result ((rest : List ℕ) × Passes (K.taken sink.old) (K.taken sink.new) rest (text control.now.config (J.rest journal.old))) }
    ensures failed { OnErr result (HasRisen (K.faults sink.old) (K.faults sink.new)) }
    ensures never_falls { K.faults sink.old ≤ K.faults sink.new }
{
    let mut printer = Printer::new();
    write_text(&mut printer, sink, control, journal);
    printer.finish(sink)
}

/// Writes the summary of a journal that is lent: the first line and the lines of the state, without entries and records.
///
/// The control's entries have the effects of the journal's. It goes out as the text does, takes no memory, and fails
/// as `render` does.
pub fn summary<K: Sink, J: Lender>(
    control: &Control,
    journal: &J,
    sink: &mut K,
) -> Result<(), Failed>
    requires effects { effects control.now.entries ≡ effects (J.rest journal.now) }
    requires few { length (J.rest journal.now) < 2 ^ 64 }
    ensures whole { OnOk result (Passes (K.taken sink.old) (K.taken sink.new) [] (summary control.now.config (J.rest journal.now))) }
    ensures front { OnErr result ((rest : List ℕ) × Passes (K.taken sink.old) (K.taken sink.new) rest (summary control.now.config (J.rest journal.now))) }
    ensures failed { OnErr result (HasRisen (K.faults sink.old) (K.faults sink.new)) }
    ensures never_falls { K.faults sink.old ≤ K.faults sink.new }
{
    let mut printer = Printer::new();
    write_summary(&mut printer, sink, control, journal);
    printer.finish(sink)
}
