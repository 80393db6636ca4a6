//! The run of a program.

ghost use Rattle.edge_io.specs.Runs.{Ran};

use crate::deciding::settle;
use crate::ends::Stop;
use crate::program::Program;
use dcd_base::{Failed, Sink, Source, write_all};
use std::alloc::Global;

/// Runs a program by the words of its command line, from a source to a sink.
///
/// The words are tried first, then the source is read, if the task has an input, then the end is decided, then it is printed.
/// The first failed read or write ends the run. All memory is taken before the first write.
pub fn run<P: Program, S: Source, K: Sink>(
    program: &P,
    alloc: Global,
    words: &[String],
    source: &mut S,
    sink: &mut K,
) -> P::Status
    requires { P.able program.now }
    ensures { Ran (P.means program.now) words.now S.left S.faults K.taken K.faults source.old source.new sink.old sink.new result }
{
    match program.asked(words) {
        Some(task) => match settle(program, alloc, task, source) {
            Ok((status, text)) => match program.print(&text, sink) {
                Ok(()) => status,
                Err(Failed) => program.stopped(Stop::WriteFault),
            },
            Err(stop) => program.stopped(stop),
        },
        None => match write_all(sink, program.usage()) {
            Ok(()) => program.stopped(Stop::Usage),
            Err(Failed) => program.stopped(Stop::WriteFault),
        },
    }
}
