//! The top call.

ghost use Rattle.pool_planner.specs.PlanEnds.{planner};
ghost use Rattle.edge_io.specs.Runs.{Ran};

use crate::deciding::decide;
use crate::status::PlanStatus;
use dcd_base::{Bytes, Failed, NoMemory, Sink, Source, write_all};
use edge_io::{Program, Stop, no_words, run};
use std::alloc::Global;

/// The most bytes of an input.
const MOST_INPUT: usize = 33_554_432;

/// The program.
#[derive(Clone, Copy, Debug, PartialEq, Eq)]
struct Planner;

impl Program for Planner {
    ghost use Rattle.pool_planner.specs.PlanEnds.{planner};

    type Task = ();

    type Status = PlanStatus;

    type Text = Bytes;

    ghost means = { λ _. planner };

    ghost bytes = { λ text. text };

    ghost ready = { λ _. Unit {0} };

    fn asked(&self, words: &[String]) -> Option<()> {
        no_words(words)
    }

    #[tactic(auto, unfolding(crate::specs::PlanPrinting::planner_usage_line))]
    fn usage(&self) -> &[u8] {
        b"usage: pool_planner\n".as_slice()
    }

    fn most(&self, _task: &()) -> Option<usize> {
        Some(MOST_INPUT)
    }

    #[tactic(auto, using(crate::proofs::PlanCompleted::all_short))]
    fn decide(
        &self,
        alloc: Global,
        _task: (),
        input: Bytes,
    ) -> Result<(PlanStatus, Bytes), NoMemory> {
        decide(alloc, input.as_slice())
    }

    #[tactic(auto, using(crate::proofs::PlanCompleted::long_decides))]
    fn decide_long(&self, alloc: Global, _task: ()) -> Result<(PlanStatus, Bytes), NoMemory> {
        Ok((PlanStatus::InputLong, Bytes::new(alloc)))
    }

    fn print<K: Sink>(&self, text: &Bytes, sink: &mut K) -> Result<(), Failed> {
        write_all(sink, text.as_slice())
    }

    fn stopped(&self, stop: Stop) -> PlanStatus {
        match stop {
            Stop::Usage => PlanStatus::Usage,
            Stop::NoMemory => PlanStatus::NoMemory,
            Stop::ReadFault => PlanStatus::ReadFault,
            Stop::WriteFault => PlanStatus::WriteFault,
        }
    }
}

/// Reads a frame, which is the number of bytes of a script in four bytes, the script and demands in JSON, runs the script on a
/// fresh device, and writes the list that leads from what hosts hold to what is demanded, an act a line, and the state behind
/// it; or one line that says why not. It takes no words.
///
/// The words are tried first, then the source is read, then the input's length is tried, then the script, the demands and the
/// plan. All memory is taken before the first write.
pub fn run_plan<S: Source, K: Sink>(
    alloc: Global,
    words: &[String],
    source: &mut S,
    sink: &mut K,
) -> PlanStatus
    ensures { Ran planner words.now S.left S.faults K.taken K.faults source.old source.new sink.old sink.new result }
{
    run(&Planner, alloc, words, source, sink)
}
