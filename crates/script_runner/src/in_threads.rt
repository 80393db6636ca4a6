//! A script in threads: all of it is read or made first.

ghost use Rattle.script_gen.specs.script_codec.specs.Reading.{first_fault};
ghost use Rattle.script_gen.specs.script_codec.specs.Scripts.{IsScript, ReadsScript};
ghost use Rattle.script_gen.specs.Generated.{generated};
ghost use Rattle.script_runner.specs.Threads.{RanInThreads, RanInput};
ghost use Rattle.std.specs.Prelude.{◌≡◌, ◌≢◌, IfErr, IfOk, Some};

use crate::run_in_threads;
use dcd_base::{Bytes, Gate, NoMemory};
use device_plain::control_core::Control;
use journal_core::Accesses;
use script_gen::generate;
use script_gen::script_codec::{Script, ScriptFault, read};
use std::alloc::{AllocGlobal, Global};
use std::sync::Wait;
use std::thread::Threads;

/// Runs the script that the input is, or answers the first fault of the input. `NoMemory` may come in place of any answer.
/// The bytes are let go once they are read.
pub(crate) fn run_input_in_threads<R: Threads + Wait + Sync + AllocGlobal, G: Gate>(
    rt: &R,
    alloc: Global,
    input: Bytes,
    gate: &G,
) -> Result<(Control, Vec<Accesses>), ScriptFault>
    ensures ran { IfOk result (λ left. RanInput input left.0.config left.0.entries left.1.items) }
    ensures fault { IfErr result (λ fault. fault ≢ ScriptFault.NoMemory → first_fault input ≡ Some fault) }
{
    match script_of(alloc, input) {
        Ok(script) => match run_owned(rt, script, gate) {
            Ok(left) => Ok(left),
            Err(NoMemory) => Err(ScriptFault::NoMemory),
        },
        Err(fault) => Err(fault),
    }
}

/// Runs the generated script of the seed.
pub(crate) fn run_seed_in_threads<R: Threads + Wait + Sync + AllocGlobal, G: Gate>(
    rt: &R,
    alloc: Global,
    seed: u64,
    gate: &G,
) -> Result<(Control, Vec<Accesses>), NoMemory>
    ensures { IfOk result (λ left. RanInThreads (generated seed) left.0.config left.0.entries left.1.items) }
{
    match generate(alloc, seed) {
        Ok(script) => run_owned(rt, script, gate),
        Err(NoMemory) => Err(NoMemory),
    }
}

/// The script that the input is. The bytes are let go.
fn script_of(alloc: Global, input: Bytes) -> Result<Script, ScriptFault>
    ensures reads { IfOk result (λ script. ReadsScript input script) }
    ensures fault { IfErr result (λ fault. fault ≢ ScriptFault.NoMemory → first_fault input ≡ Some fault) }
{
    read(alloc, input.as_slice())
}

/// Runs a script, which is let go then.
fn run_owned<R: Threads + Wait + Sync + AllocGlobal, G: Gate>(
    rt: &R,
    script: Script,
    gate: &G,
) -> Result<(Control, Vec<Accesses>), NoMemory>
    requires { IsScript script }
    ensures { IfOk result (λ left. RanInThreads script left.0.config left.0.entries left.1.items) }
{
    run_in_threads(rt, &script, gate)
}
