//! The lines of scripts and words that are refused.

ghost use Rattle.dcd_base.specs.Streams.{HasRisen, Passes};
ghost use Rattle.report.specs.Printing.{Puts};
ghost use Rattle.report.specs.Refusals.{refusal_line, refused_at, usage_line};
ghost use Rattle.script_codec.specs.declared.faults.ScriptFault.{ScriptFault};
ghost use Rattle.std.specs.Prelude.{◌≢◌, ◌≤◌, [], List, OnErr, OnOk, ℕ};

use crate::printing::Printer;
use dcd_base::{Failed, Sink, write_all};
use script_codec::ScriptFault;

/// Puts the line of a refused script.
#[tactic(auto, using(crate::proofs::Parts::prints_then), unfolding(crate::specs::Refusals::refused_at))]
fn write_refused_line<K: Sink>(printer: &mut Printer, sink: &mut K, number: u64, place: u64)
    ensures { Puts K.taken K.faults sink.old printer.old sink.new printer.new (refused_at number place) }
{
    printer.put(sink, b"script");
    printer.write_counted(sink, b"refused:", number);
    printer.write_counted(sink, b"at", place);
    printer.end_line(sink);
}

/// Writes the line of a refused script.
fn write_refused_at<K: Sink>(number: u64, place: u64, sink: &mut K) -> Result<(), Failed>
    ensures whole { OnOk result (Passes (K.taken sink.old) (K.taken sink.new) [] (refused_at number place)) }
    ensures front { OnErr result ((rest : List ℕ) × Passes (K.taken sink.old) (K.taken sink.new) rest (refused_at number place)) }
    ensures failed { OnErr result (HasRisen (K.faults sink.old) (K.faults sink.new)) }
    ensures never_falls { K.faults sink.old ≤ K.faults sink.new }
{
    let mut printer = Printer::new();
    write_refused_line(&mut printer, sink, number, place);
    printer.finish(sink)
}

/// Writes the line that says why bytes are no script: `script refused: `, the fault's number, ` at ` and its place.
///
/// The fault is not `NoMemory`. It takes no memory. `Failed` comes only where the sink's count of faults has risen; the
/// sink has then taken a front of the line.
pub fn refusal<K: Sink>(fault: &ScriptFault, sink: &mut K) -> Result<(), Failed>
    requires { fault.now ≢ ScriptFault.NoMemory }
    ensures whole { OnOk result (Passes (K.taken sink.old) (K.taken sink.new) [] (refusal_line fault.now)) }
    ensures front { OnErr result ((rest : List ℕ) × Passes (K.taken sink.old) (K.taken sink.new) rest (refusal_line fault.now)) }
    ensures failed { OnErr result (HasRisen (K.faults sink.old) (K.faults sink.new)) }
    ensures never_falls { K.faults sink.old ≤ K.faults sink.new }
{
    write_refused_at(u64::from(fault.number()), fault.place(), sink)
}

/// Writes the line that says which words the program takes.
///
/// It takes no memory, and fails as `refusal` does.
#[tactic(auto, unfolding(crate::specs::Refusals::usage_line))]
pub fn usage<K: Sink>(sink: &mut K) -> Result<(), Failed>
    ensures whole { OnOk result (Passes (K.taken sink.old) (K.taken sink.new) [] usage_line) }
    ensures front { OnErr result ((rest : List ℕ) × Passes (K.taken sink.old) (K.taken sink.new) rest usage_line) }
    ensures failed { OnErr result (HasRisen (K.faults sink.old) (K.faults sink.new)) }
    ensures never_falls { K.faults sink.old ≤ K.faults sink.new }
{
    write_all(sink, b"usage: dcdsim [--mode serial|threads] [--gen N]\n")
}
