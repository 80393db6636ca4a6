//! The top call.

ghost use Rattle.dcd_base.specs.Streams.{IsAtEnd};
ghost use Rattle.edge_io.specs.ReadEnds.{TakesAtMost};
ghost use Rattle.edge_io.specs.Words.{words_of};
ghost use Rattle.edge_io.specs.Meanings.{Decides};
ghost use Rattle.edge_io.specs.Runs.{Ran};
ghost use Rattle.script_runner.specs.Planning.{IsPrintable, bytes_of, most_for, most_read, runner};
ghost use Rattle.script_runner.specs.Statuses.{OnDone};
ghost use Rattle.script_runner.specs.Words.{AskForSource};
ghost use Rattle.std.specs.Prelude.{◌≤◌, IfOk, IfSome, length};

use crate::outcome::Printed;
use crate::printing::{print_merged_summary, print_merged_text, print_summary, print_text};
use crate::status::Status;
use crate::summaries::summary_in;
use crate::texts::decide_input;
use crate::words::{Choice, chosen};
use dcd_base::{Bytes, Failed, Gate, NoMemory, Sink, Source};
use edge_io::{Program, Stop};
use report::refusal;
use script_gen::script_codec::{MOST_BYTES, ScriptFault};
use std::alloc::{AllocGlobal, Global};
use std::sync::Wait;
use std::thread::Threads;

/// The program, with what decides how a choice over an input ends: a closure, since what goes to a thread cannot rest on the
/// bounds of an impl.
#[derive(Drop)]
struct Runner<F> {
    decide: F,
}

impl<F: Fn(Global, Choice, Bytes) -> Result<(Status, Printed), NoMemory>> Program for Runner<F> {
    ghost use Rattle.edge_io.specs.Meanings.{Decides};
    ghost use Rattle.script_runner.specs.Planning.{IsPrintable, bytes_of, most_for, runner};
    ghost use Rattle.std.specs.Prelude.{◌≤◌, IfOk, IfSome, length};

    type Task = Choice;

    type Status = Status;

    type Text = Printed;

    ghost means = { λ _. runner };

    ghost bytes = { bytes_of };

    ghost ready = { IsPrintable };

    ghost able = { λ program. (alloc : _) (choice : _) (input : _) → IfSome (most_for choice.seed) (λ most. length input ≤ most) → F.pre program.decide alloc choice input × ((decided : _) → F.post program.decide alloc choice input decided → IfOk decided (λ end. Decides runner choice input end.0 (bytes_of end.1) × IsPrintable end.1)) };

    #[tactic(auto, using(crate::proofs::Choices::one_answer))]
    fn asked(&self, words: &[String]) -> Option<Choice> {
        chosen(words)
    }

    #[tactic(auto, unfolding(report::specs::Refusals::usage_line))]
    fn usage(&self) -> &[u8] {
        b"usage: dcdsim [--mode serial|threads] [--gen N]\n".as_slice()
    }

    fn most(&self, task: &Choice) -> Option<usize> {
        match task.seed {
            None => Some(MOST_BYTES),
            Some(_) => None,
        }
    }

    fn decide(
        &self,
        alloc: Global,
        task: Choice,
        input: Bytes,
    ) -> Result<(Status, Printed), NoMemory> {
        (self.decide)(alloc, task, input)
    }

    fn decide_long(&self, _alloc: Global, _task: Choice) -> Result<(Status, Printed), NoMemory> {
        let fault = ScriptFault::TooLong;
        Ok((Status::ScriptRefused(fault), Printed::Fault(fault)))
    }

    fn print<K: Sink>(&self, text: &Printed, sink: &mut K) -> Result<(), Failed> {
        match text {
            Printed::Text(device) => print_text(device, sink),
            Printed::Summary(device) => print_summary(device, sink),
            Printed::MergedText(control, shards) => {
                print_merged_text(control, shards.as_slice(), sink)
            }
            Printed::MergedSummary(control, shards) => {
                print_merged_summary(control, shards.as_slice(), sink)
            }
            Printed::Fault(fault) => refusal(fault, sink),
        }
    }

    fn stopped(&self, stop: Stop) -> Status {
        match stop {
            Stop::Usage => Status::Usage,
            Stop::NoMemory => Status::NoMemory,
            Stop::ReadFault => Status::ReadFault,
            Stop::WriteFault => Status::WriteFault,
        }
    }
}

/// How a choice over an input ends, and what is printed then.
#[tactic(auto, using(crate::proofs::Decisions::input_decides, crate::proofs::Decisions::input_short, crate::proofs::Decisions::summary_decides))]
fn decide<R: Threads + Wait + Sync + AllocGlobal, G: Gate>(
    rt: &R,
    alloc: Global,
    choice: Choice,
    input: Bytes,
    gate: &G,
) -> Result<(Status, Printed), NoMemory>
    requires { IfSome (most_for choice.seed) (λ most. length input ≤ most) }
    ensures decides { IfOk result (λ end. Decides runner choice input end.0 (bytes_of end.1)) }
    ensures printable { IfOk result (λ end. IsPrintable end.1) }
{
    match choice.seed {
        None => decide_input(rt, alloc, choice.mode, input, gate),
        Some(seed) => Ok((
            Status::Done,
            summary_in(rt, alloc, choice.mode, seed, gate)?,
        )),
    }
}

/// Does what the words ask for: runs the script that is left in the source and writes its text, or one line that says why
/// not. With `--gen N` or `--gen=N`, where N is 1 to 18 decimal digits, it runs the generated script of that seed and writes
/// its summary, and the source is not read. With `--mode serial` or `--mode=serial` the lines are done in their order by one
/// thread, and with `--mode threads`, or without a mode, those of each lane by a worker of its own.
///
/// The words are tried first, then the source is read, at most 16,777,217 bytes of it, then the lines of the script are
/// run, then the text is written. All memory is taken before the first write of the text or the summary, and all of it goes
/// back. In threads mode the gate is called before each line that is no mark, and once more inside each load and store.
#[tactic(auto, using(crate::proofs::Takings::takes, crate::proofs::Takings::to_the_end))]
pub fn run<R: Threads + Wait + Sync + AllocGlobal, S: Source, K: Sink, G: Gate>(
    rt: &R,
    alloc: Global,
    words: &[String],
    source: &mut S,
    sink: &mut K,
    gate: &G,
) -> Status
    // At Done the text or the summary is that of a journal that is legal and numbered and has each line of the script once,
    // those of each lane in order, and in serial mode all in rising order; in it no granule of a region that is not shareable
    // ever has two hosts, and each reply to a host (granted loads in shareable or unsanitized regions aside) is what a device
    // with that host alone replies to its own steps and deliveries.
    ensures ran { Ran runner words.now S.left S.faults K.taken K.faults source.old source.new sink.old sink.new result }
    ensures taken { TakesAtMost most_read (S.left source.old) (S.left source.new) }
    ensures to_the_end { OnDone result (AskForSource (words_of words.now) → IsAtEnd (S.left source.new)) }
{
    let decide = |alloc: Global, choice: Choice, input: Bytes| -> Result<
        (Status, Printed),
        NoMemory,
    >
        requires { IfSome (most_for choice.seed) (λ most. length input ≤ most) }
        ensures { IfOk result (λ end. Decides runner choice input end.0 (bytes_of end.1) × IsPrintable end.1) }
    { decide(rt, alloc, choice, input, gate) };
    edge_io::run(&Runner { decide }, alloc, words, source, sink)
}
