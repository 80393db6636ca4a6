//! The top call.

ghost use Rattle.edge_io.specs.Meanings.{Decides};
ghost use Rattle.edge_io.specs.Runs.{Ran};
ghost use Rattle.std.specs.Prelude.{◌≡◌, ◌≤◌, IfOk, length};
ghost use Rattle.tunnel_fabric.specs.Planning.{HasFewDevices, IsTextOfRun, bytes_of, fabric_program};
ghost use Rattle.tunnel_fabric.specs.Printing.{fabric_refusal, fabric_usage_line};
ghost use Rattle.tunnel_fabric.specs.Sending.{CanRun};
ghost use Rattle.tunnel_fabric.specs.declared.texts.FabricText.{FabricText};
ghost use Rattle.tunnel_fabric.specs.declared.status.FabricStatus.{FabricStatus};

use crate::printing::{print_fabric, reply_lines};
use crate::reading::MOST_BYTES;
use crate::refusals::refusal;
use crate::running::run_lines;
use crate::status::FabricStatus;
use crate::texts::FabricText;
use crate::{FabricFault, FabricScript, read_fabric};
use dcd_base::{Bytes, Failed, NoMemory, Sink, Source, write_all};
use edge_io::{Program, Stop, no_words, run};
use std::alloc::Global;

/// The program.
#[derive(Clone, Copy, Debug, PartialEq, Eq)]
struct Tunnels;

impl Program for Tunnels {
    ghost use Rattle.tunnel_fabric.specs.Planning.{HasFewDevices, bytes_of, fabric_program};

    type Task = ();

    type Status = FabricStatus;

    type Text = FabricText;

    ghost means = { λ _. fabric_program };

    ghost bytes = { bytes_of };

    ghost ready = { HasFewDevices };

    fn asked(&self, words: &[String]) -> Option<()> {
        no_words(words)
    }

    #[tactic(auto, unfolding(crate::specs::Printing::fabric_usage_line))]
    fn usage(&self) -> &[u8] {
        b"usage: tunnel_fabric\n".as_slice()
    }

    fn most(&self, _task: &()) -> Option<usize> {
        Some(MOST_BYTES)
    }

    #[tactic(auto, using(crate::proofs::FabricEndings::all_decide, crate::proofs::FabricEndings::all_short))]
    fn decide(
        &self,
        alloc: Global,
        _task: (),
        input: Bytes,
    ) -> Result<(FabricStatus, FabricText), NoMemory> {
        decide(alloc, input.as_slice())
    }

    fn decide_long(
        &self,
        alloc: Global,
        _task: (),
    ) -> Result<(FabricStatus, FabricText), NoMemory> {
        refused(alloc, FabricFault::TooLong)
    }

    fn print<K: Sink>(&self, text: &FabricText, sink: &mut K) -> Result<(), Failed> {
        match text {
            FabricText::Ran { lines, fabric } => {
                print_fabric(lines.as_slice(), fabric.devices(), sink)
            }
            FabricText::Line(line) => write_all(sink, line.as_slice()),
        }
    }

    fn stopped(&self, stop: Stop) -> FabricStatus {
        match stop {
            Stop::Usage => FabricStatus::Usage,
            Stop::NoMemory => FabricStatus::NoMemory,
            Stop::ReadFault => FabricStatus::ReadFault,
            Stop::WriteFault => FabricStatus::WriteFault,
        }
    }
}

/// Runs the fabric that is left in the source, and writes the replies to its messages to the tunnel and the text of each device,
/// or one line that says why not. No words are taken.
///
/// The words are tried first, then the source is read, at most 16,777,217 bytes of it, then the fabric is read and run, then the
/// text is written. The first failed read or write ends the run. All memory is taken before the first write.
pub fn run_fabric<S: Source, K: Sink>(
    alloc: Global,
    words: &[String],
    source: &mut S,
    sink: &mut K,
) -> FabricStatus
    ensures { Ran fabric_program words.now S.left S.faults K.taken K.faults source.old source.new sink.old sink.new result }
{
    run(&Tunnels, alloc, words, source, sink)
}

/// How a run over an input ends, and what is printed.
#[tactic(auto, using(crate::proofs::FabricEndings::can_run, crate::proofs::FabricEndings::ran_decided))]
fn decide(alloc: Global, input: &[u8]) -> Result<(FabricStatus, FabricText), NoMemory>
    requires { length input.now ≤ 16777216 }
    ensures decides { IfOk result (λ end. Decides fabric_program tt input.now end.0 (bytes_of end.1)) }
    ensures ready { IfOk result (λ end. HasFewDevices end.1) }
{
    match read_fabric(alloc, input) {
        Ok(script) => ran(alloc, script),
        Err(FabricFault::NoMemory) => Err(NoMemory),
        Err(fault) => refused(alloc, fault),
    }
}

/// The line on the first fault of an input.
fn refused(alloc: Global, fault: FabricFault) -> Result<(FabricStatus, FabricText), NoMemory>
    ensures { IfOk result (λ end. end ≡ (FabricStatus.Refused fault, FabricText.Line (fabric_refusal fault))) }
{
    let line = refusal(alloc, &fault)?;
    Ok((FabricStatus::Refused(fault), FabricText::Line(line)))
}

/// The text of a run of the fabric.
fn ran(alloc: Global, script: FabricScript) -> Result<(FabricStatus, FabricText), NoMemory>
    requires { CanRun script }
    ensures done { IfOk result (λ end. end.0 ≡ FabricStatus.Done) }
    ensures text { IfOk result (λ end. IsTextOfRun script end.1) }
    ensures ready { IfOk result (λ end. HasFewDevices end.1) }
{
    let fabric = run_lines(alloc, &script)?;
    let lines = reply_lines(alloc, fabric.replies().as_slice())?;
    Ok((FabricStatus::Done, FabricText::Ran { lines, fabric }))
}
