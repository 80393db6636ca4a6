//! The text of an input, in either mode, or the line on its first fault.

ghost use Rattle.edge_io.specs.Meanings.{Decides};
ghost use Rattle.script_gen.specs.script_codec.specs.Reading.{first_fault};
ghost use Rattle.script_runner.specs.Planning.{IsPrintable, IsTextOf, bytes_of, runner};
ghost use Rattle.script_runner.specs.declared.words.Mode.{Mode};
ghost use Rattle.std.specs.Prelude.{◌≡◌, ◌≢◌, ◌≤◌, IfErr, IfOk, None, Some, length};

use crate::in_threads::run_input_in_threads;
use crate::outcome::Printed;
use crate::script::run_script;
use crate::status::Status;
use crate::words::Mode;
use dcd_base::{Bytes, Gate, NoMemory};
use script_gen::script_codec::ScriptFault;
use std::alloc::{AllocGlobal, Global};
use std::sync::Wait;
use std::thread::Threads;

/// Runs the script that the input is in the mode, or answers its first fault.
#[tactic(auto, using(crate::proofs::Decisions::text_decides))]
pub(crate) fn decide_input<R: Threads + Wait + Sync + AllocGlobal, G: Gate>(
    rt: &R,
    alloc: Global,
    mode: Mode,
    input: Bytes,
    gate: &G,
) -> Result<(Status, Printed), NoMemory>
    requires { length input ≤ 16777216 }
    ensures decides { IfOk result (λ end. Decides runner (record { mode = mode; seed = None }) input end.0 (bytes_of end.1)) }
    ensures printable { IfOk result (λ end. IsPrintable end.1) }
{
    match text_in(rt, alloc, mode, input, gate) {
        Ok(text) => Ok((Status::Done, text)),
        Err(ScriptFault::NoMemory) => Err(NoMemory),
        Err(fault) => Ok((Status::ScriptRefused(fault), Printed::Fault(fault))),
    }
}

/// The text of a run of the script that the input is, in the mode.
fn text_in<R: Threads + Wait + Sync + AllocGlobal, G: Gate>(
    rt: &R,
    alloc: Global,
    mode: Mode,
    input: Bytes,
    gate: &G,
) -> Result<Printed, ScriptFault>
    ensures text { IfOk result (λ text. IsTextOf mode input (bytes_of text)) }
    ensures printable { IfOk result IsPrintable }
    ensures fault { IfErr result (λ fault. fault ≢ ScriptFault.NoMemory → first_fault input ≡ Some fault) }
{
    match mode {
        Mode::Serial => text_serially(alloc, input),
        Mode::Threads => text_in_threads(rt, alloc, input, gate),
    }
}

/// The text of a run on the serial device.
#[tactic(auto, using(crate::proofs::Printed::text_of_input))]
fn text_serially(alloc: Global, input: Bytes) -> Result<Printed, ScriptFault>
    ensures text { IfOk result (λ text. IsTextOf Mode.Serial input (bytes_of text)) }
    ensures printable { IfOk result IsPrintable }
    ensures fault { IfErr result (λ fault. fault ≢ ScriptFault.NoMemory → first_fault input ≡ Some fault) }
{
    match run_script(alloc, input) {
        Ok(device) => Ok(Printed::Text(device)),
        Err(fault) => Err(fault),
    }
}

/// The text of a run in threads.
#[tactic(auto, using(crate::proofs::Printed::text_of_threads))]
fn text_in_threads<R: Threads + Wait + Sync + AllocGlobal, G: Gate>(
    rt: &R,
    alloc: Global,
    input: Bytes,
    gate: &G,
) -> Result<Printed, ScriptFault>
    ensures text { IfOk result (λ text. IsTextOf Mode.Threads input (bytes_of text)) }
    ensures printable { IfOk result IsPrintable }
    ensures fault { IfErr result (λ fault. fault ≢ ScriptFault.NoMemory → first_fault input ≡ Some fault) }
{
    match run_input_in_threads(rt, alloc, input, gate) {
        Ok((control, shards)) => Ok(Printed::MergedText(control, shards)),
        Err(fault) => Err(fault),
    }
}
