//! The top call.

ghost use Rattle.journal_check.specs.CheckPlanning.{IsAnswer, IsAnswered, IsCheckPlannedFor, IsPrintable, bytes_of, checker};
ghost use Rattle.journal_check.specs.Frames.{IsFrame};
ghost use Rattle.edge_io.specs.Runs.{Ran};
ghost use Rattle.report.specs.script_codec.specs.Writing.{IsWritable};
ghost use Rattle.std.specs.Prelude.{◌≤◌, IfOk, length};

use crate::checking::check;
use crate::printing::{Printed, no_at, yes};
use crate::status::CheckStatus;
use dcd_base::{Bytes, Failed, NoMemory, Sink, Source, write_all};
use edge_io::{Program, Stop, no_words, run};
use report::refusal;
use report::script_codec::frames::{need_of, parts_of};
use report::script_codec::{Script, ScriptFault, read};
use std::alloc::Global;

/// The most bytes of an input.
const MOST_INPUT: usize = 402_653_184;

/// The program.
#[derive(Clone, Copy, Debug, PartialEq, Eq)]
struct Checker;

impl Program for Checker {
    ghost use Rattle.journal_check.specs.CheckPlanning.{IsPrintable, bytes_of, checker};

    type Task = ();

    type Status = CheckStatus;

    type Text = Printed;

    ghost means = { λ _. checker };

    ghost bytes = { bytes_of };

    ghost ready = { IsPrintable };

    fn asked(&self, words: &[String]) -> Option<()> {
        no_words(words)
    }

    #[tactic(auto, unfolding(crate::specs::CheckPlanning::check_usage_line))]
    fn usage(&self) -> &[u8] {
        b"usage: journal_check\n".as_slice()
    }

    fn most(&self, _task: &()) -> Option<usize> {
        Some(MOST_INPUT)
    }

    #[tactic(auto, using(crate::proofs::CheckEndings::all_short))]
    fn decide(
        &self,
        alloc: Global,
        _task: (),
        input: Bytes,
    ) -> Result<(CheckStatus, Printed), NoMemory> {
        check_input(alloc, input.as_slice())
    }

    #[tactic(auto, using(crate::proofs::CheckEndings::long_decides))]
    fn decide_long(&self, alloc: Global, _task: ()) -> Result<(CheckStatus, Printed), NoMemory> {
        Ok((CheckStatus::InputLong, Printed::Line(Bytes::new(alloc))))
    }

    fn print<K: Sink>(&self, text: &Printed, sink: &mut K) -> Result<(), Failed> {
        match text {
            Printed::Line(line) => write_all(sink, line.as_slice()),
            Printed::Fault(fault) => refusal(fault, sink),
        }
    }

    fn stopped(&self, stop: Stop) -> CheckStatus {
        match stop {
            Stop::Usage => CheckStatus::Usage,
            Stop::NoMemory => CheckStatus::NoMemory,
            Stop::ReadFault => CheckStatus::ReadFault,
            Stop::WriteFault => CheckStatus::WriteFault,
        }
    }
}

/// Reads a frame, which is the number of bytes of a script in four bytes, the script and a text, and writes whether the
/// text is that of a legal journal of the script, or which line is the first wrong one. It takes no words.
///
/// The words are tried first, then the source is read, then the input's length is tried, at last the script. All memory is
/// taken before the first write.
pub fn run_check<S: Source, K: Sink>(
    alloc: Global,
    words: &[String],
    source: &mut S,
    sink: &mut K,
) -> CheckStatus
    ensures { Ran checker words.now S.left S.faults K.taken K.faults source.old source.new sink.old sink.new result }
{
    run(&Checker, alloc, words, source, sink)
}

/// Checks an input, where it has all bytes that it needs.
fn check_input(alloc: Global, input: &[u8]) -> Result<(CheckStatus, Printed), NoMemory>
    requires { length input.now ≤ 402653184 }
    ensures decides { IfOk result (λ end. IsCheckPlannedFor input.now end.0 (bytes_of end.1)) }
    ensures printable { IfOk result (λ end. IsPrintable end.1) }
{
    let need = need_of(input);
    let have = input.len() as u64;
    if have < need {
        let status = CheckStatus::InputShort { need, have };
        Ok((status, Printed::Line(Bytes::new(alloc))))
    } else {
        check_frame(alloc, input)
    }
}

/// Checks the text of a frame against its script, or answers the script's first fault.
#[tactic(auto, using(crate::proofs::CheckEndings::answered_ends))]
fn check_frame(alloc: Global, input: &[u8]) -> Result<(CheckStatus, Printed), NoMemory>
    requires { IsFrame input.now }
    ensures decides { IfOk result (λ end. IsCheckPlannedFor input.now end.0 (bytes_of end.1)) }
    ensures printable { IfOk result (λ end. IsPrintable end.1) }
{
    let (script, text) = parts_of(input);
    match read(alloc, script) {
        Ok(script) => answer(alloc, &script, text),
        Err(ScriptFault::NoMemory) => Err(NoMemory),
        Err(fault) => Ok((CheckStatus::ScriptRefused(fault), Printed::Fault(fault))),
    }
}

fn answer(alloc: Global, script: &Script, text: &[u8]) -> Result<(CheckStatus, Printed), NoMemory>
    requires { IsWritable script.now }
    ensures answered { IfOk result (λ end. IsAnswered script.now text.now end.0 (bytes_of end.1)) }
    ensures printable { IfOk result (λ end. IsPrintable end.1) }
{
    let first = check(alloc, script, text)?;
    tell(alloc, first)
}

/// Tells that all is right, or which line is the first wrong one.
fn tell(alloc: Global, first: Option<u32>) -> Result<(CheckStatus, Printed), NoMemory>
    ensures answer { IfOk result (λ end. IsAnswer first end.0 (bytes_of end.1)) }
    ensures printable { IfOk result (λ end. IsPrintable end.1) }
{
    match first {
        None => Ok((CheckStatus::Yes, Printed::Line(yes(alloc)?))),
        Some(line) => Ok((CheckStatus::No(line), Printed::Line(no_at(alloc, line)?))),
    }
}
