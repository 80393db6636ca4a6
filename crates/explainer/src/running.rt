//! The run of the program, from the bytes of a source to the bytes of a sink.

ghost use Rattle.edge_io.specs.Words.{words_of};
ghost use Rattle.std.specs.Prelude.{◌≡◌};
ghost use Rattle.explainer.specs.Runs.{EndsLine, EndsOf, EndsRun, EndsTurned, EndsUsage, IsSaid, most_of as most, over, refusal_text};

use crate::asking::{name_of, task_of};
use crate::converting::{Refusal, Task, convert};
use crate::refusals::{refuse_cut, refuse_from, refuse_long, refuse_script, refuse_text};
use crate::status::Status;
use dcd_base::{Failed, Sink, Source, write_all};
use edge_io::{ReadEnd, read_all};
use std::alloc::Global;

/// The most bytes of an input.
fn most_of(task: Task) -> usize
    ensures { result ≡ most task }
{
    match task {
        Task::ToScript => 268_435_456,
        Task::ToText => 16_777_216,
        Task::Explain => 402_653_184,
    }
}

/// Writes the line on a refusal.
fn refuse<K: Sink>(alloc: Global, name: &[u8], refusal: Refusal, sink: &mut K) -> Status
    requires { IsSaid refusal }
    ensures { EndsLine (refusal_text name.now refusal) (K.taken sink.old) (K.faults sink.old) (K.taken sink.new) (K.faults sink.new) result }
{
    match refusal {
        Refusal::Text { place, cause } => refuse_text(alloc, name, place, &cause, sink),
        Refusal::Script(fault) => refuse_script(fault, sink),
        Refusal::Cut { need, have } => refuse_cut(alloc, need, have, sink),
        Refusal::Stopped(line) => refuse_from(alloc, line, sink),
        Refusal::NoMemory => unreachable!(),
    }
}

/// Turns the input and writes what comes of it, or the line on its first fault.
fn turn<K: Sink>(alloc: Global, task: Task, name: &[u8], input: &[u8], sink: &mut K) -> Status
    ensures { EndsOf name.now task input.now (K.taken sink.old) (K.faults sink.old) (K.taken sink.new) (K.faults sink.new) result }
{
    match convert(alloc, task, input) {
        Ok(output) => match write_all(sink, output.as_slice()) {
            Ok(()) => Status::Done,
            Err(Failed) => Status::WriteFault,
        },
        Err(Refusal::NoMemory) => Status::NoMemory,
        Err(refusal) => refuse(alloc, name, refusal, sink),
    }
}

/// Turns what is left in the source.
fn turn_source<S: Source, K: Sink>(
    alloc: Global,
    task: Task,
    name: &[u8],
    source: &mut S,
    sink: &mut K,
) -> Status
    ensures { EndsTurned name.now task (over S.left S.faults source.old source.new) (over K.taken K.faults sink.old sink.new) result }
{
    match read_all(alloc, source, most_of(task)) {
        Ok(input) => turn(alloc, task, name, input.as_slice(), sink),
        Err(ReadEnd::TooLong) => refuse_long(task, sink),
        Err(ReadEnd::ReadFault) => Status::ReadFault,
        Err(ReadEnd::NoMemory) => Status::NoMemory,
    }
}

/// Writes the line on the words that are taken.
#[tactic(auto, unfolding(crate::specs::Runs::usage_text))]
fn usage<K: Sink>(sink: &mut K) -> Status
    ensures { EndsUsage (K.taken sink.old) (K.faults sink.old) (K.taken sink.new) (K.faults sink.new) result }
{
    let line = b"usage: dcdtext to-script [NAME] | to-text | explain\n";
    match write_all(sink, line.as_slice()) {
        Ok(()) => Status::Usage,
        Err(Failed) => Status::WriteFault,
    }
}

/// Turns what is left in the source: a text into a script with the word `to-script`, which the name of the text may follow, a
/// script into its text with `to-text`, and with `explain` a frame, which is the number of bytes of a script in four bytes,
/// the script and the text that a run of it printed, into its explanation.
///
/// A text has 268,435,456 bytes at most, a script 16,777,216 and a frame 402,653,184. A fault of a text is told as
/// `NAME:LINE:COLUMN: ` and what is wrong there; the name is `text` where none or `-` is told. All memory is taken before the
/// first write.
pub fn run<S: Source, K: Sink>(
    alloc: Global,
    words: &[String],
    source: &mut S,
    sink: &mut K,
) -> Status
    ensures { EndsRun (words_of words.now) (over S.left S.faults source.old source.new) (over K.taken K.faults sink.old sink.new) result }
{
    match task_of(words) {
        Some(task) => turn_source(alloc, task, name_of(words), source, sink),
        None => usage(sink),
    }
}
