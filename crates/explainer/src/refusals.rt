//! The lines on inputs that are refused.

ghost use Rattle.journal_check.specs.report.specs.Refusals.{refusal_line};
ghost use Rattle.script_text.specs.script_codec.specs.declared.faults.ScriptFault.{ScriptFault};
ghost use Rattle.std.specs.Prelude.{◌≢◌};
ghost use Rattle.explainer.specs.Faults.{cut_line, fault_line, stopped_line};
ghost use Rattle.explainer.specs.Runs.{EndsLine, long_frame_line, long_line, long_text_line};

use crate::columns::Place;
use crate::converting::Task;
use crate::faults::{write_cut, write_fault, write_stopped};
use crate::status::Status;
use dcd_base::{Bytes, Failed, NoMemory, Sink, write_all};
use journal_check::report::refusal;
use script_text::Cause;
use script_text::script_codec::ScriptFault;
use std::alloc::Global;

/// Writes a line that says why.
fn refuse<K: Sink>(line: &[u8], sink: &mut K) -> Status
    ensures { EndsLine line.now (K.taken sink.old) (K.faults sink.old) (K.taken sink.new) (K.faults sink.new) result }
{
    match write_all(sink, line) {
        Ok(()) => Status::Refused,
        Err(Failed) => Status::WriteFault,
    }
}

/// Writes the line on the fault of a text of this name.
pub(crate) fn refuse_text<K: Sink>(
    alloc: Global,
    name: &[u8],
    at: Place,
    cause: &Cause,
    sink: &mut K,
) -> Status
    ensures { EndsLine (fault_line name.now at.line at.column cause.now) (K.taken sink.old) (K.faults sink.old) (K.taken sink.new) (K.faults sink.new) result }
{
    let mut out = Bytes::new(alloc);
    match write_fault(name, at, cause, &mut out) {
        Ok(()) => refuse(out.as_slice(), sink),
        Err(NoMemory) => Status::NoMemory,
    }
}

/// Writes the line on a frame that is cut short of its script.
pub(crate) fn refuse_cut<K: Sink>(alloc: Global, need: u64, have: u64, sink: &mut K) -> Status
    ensures { EndsLine (cut_line need have) (K.taken sink.old) (K.faults sink.old) (K.taken sink.new) (K.faults sink.new) result }
{
    let mut out = Bytes::new(alloc);
    match write_cut(need, have, &mut out) {
        Ok(()) => refuse(out.as_slice(), sink),
        Err(NoMemory) => Status::NoMemory,
    }
}

/// Writes which line of a text no run prints.
pub(crate) fn refuse_from<K: Sink>(alloc: Global, line: u32, sink: &mut K) -> Status
    ensures { EndsLine (stopped_line line) (K.taken sink.old) (K.faults sink.old) (K.taken sink.new) (K.faults sink.new) result }
{
    let mut out = Bytes::new(alloc);
    match write_stopped(line, &mut out) {
        Ok(()) => refuse(out.as_slice(), sink),
        Err(NoMemory) => Status::NoMemory,
    }
}

/// Writes the line on bytes that are no script.
pub(crate) fn refuse_script<K: Sink>(fault: ScriptFault, sink: &mut K) -> Status
    requires { fault ≢ ScriptFault.NoMemory }
    ensures { EndsLine (refusal_line fault) (K.taken sink.old) (K.faults sink.old) (K.taken sink.new) (K.faults sink.new) result }
{
    match refusal(&fault, sink) {
        Ok(()) => Status::Refused,
        Err(Failed) => Status::WriteFault,
    }
}

/// Writes the line on a text that is too long.
#[tactic(auto, unfolding(crate::specs::Runs::long_text_line))]
fn refuse_long_text<K: Sink>(sink: &mut K) -> Status
    ensures { EndsLine long_text_line (K.taken sink.old) (K.faults sink.old) (K.taken sink.new) (K.faults sink.new) result }
{
    refuse(
        b"text refused: more than 268435456 bytes\n".as_slice(),
        sink,
    )
}

/// Writes the line on a frame that is too long.
#[tactic(auto, unfolding(crate::specs::Runs::long_frame_line))]
fn refuse_long_frame<K: Sink>(sink: &mut K) -> Status
    ensures { EndsLine long_frame_line (K.taken sink.old) (K.faults sink.old) (K.taken sink.new) (K.faults sink.new) result }
{
    refuse(
        b"frame refused: more than 402653184 bytes\n".as_slice(),
        sink,
    )
}

/// Writes the line on an input that is too long.
pub(crate) fn refuse_long<K: Sink>(task: Task, sink: &mut K) -> Status
    ensures { EndsLine (long_line task) (K.taken sink.old) (K.faults sink.old) (K.taken sink.new) (K.faults sink.new) result }
{
    match task {
        Task::ToScript => refuse_long_text(sink),
        Task::ToText => refuse_script(ScriptFault::TooLong, sink),
        Task::Explain => refuse_long_frame(sink),
    }
}
