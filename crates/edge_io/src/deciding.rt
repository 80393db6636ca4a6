//! What comes of a task before anything is written.

ghost use Rattle.edge_io.specs.ReadEnds.{TakesAtMost};
ghost use Rattle.edge_io.specs.Settling.{Settles, or_stop};
ghost use Rattle.std.specs.Prelude.{◌≡◌, ◌+◌, IfOk, None, Some, ℕ};

use crate::ends::Stop;
use crate::program::Program;
use crate::reading::{ReadEnd, read_all};
use dcd_base::{Bytes, NoMemory, Source};
use std::alloc::Global;

/// Reads the input of the task, if it has one, and decides how the run ends and what is printed.
pub(crate) fn settle<P: Program, S: Source>(
    program: &P,
    alloc: Global,
    task: P::Task,
    source: &mut S,
) -> Result<(P::Status, P::Text), Stop>
    requires { P.able program.now }
    ensures settles { Settles (P.means program.now) P.bytes task (S.left source.old) (S.left source.new) (S.faults source.old) (S.faults source.new) result }
    ensures ready { IfOk result (λ end. P.ready end.1) }
    ensures taken { (most : ℕ) → (P.means program.now).most task ≡ Some most → TakesAtMost (most + 1) (S.left source.old) (S.left source.new) }
    ensures untouched { (P.means program.now).most task ≡ None → source.new ≡ source.old }
{
    match program.most(&task) {
        None => or_stop(program.decide(alloc, task, Bytes::new(alloc))),
        Some(most) => match read_all(alloc, source, most) {
            Ok(input) => or_stop(program.decide(alloc, task, input)),
            Err(ReadEnd::TooLong) => or_stop(program.decide_long(alloc, task)),
            Err(ReadEnd::ReadFault) => Err(Stop::ReadFault),
            Err(ReadEnd::NoMemory) => Err(Stop::NoMemory),
        },
    }
}

/// What was decided, or for want of memory nothing.
fn or_stop<T>(decided: Result<T, NoMemory>) -> Result<T, Stop>
    ensures { result ≡ or_stop decided }
{
    match decided {
        Ok(decided) => Ok(decided),
        Err(NoMemory) => Err(Stop::NoMemory),
    }
}
