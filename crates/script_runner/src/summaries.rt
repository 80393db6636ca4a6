//! The summary of a generated script, in either mode.

ghost use Rattle.script_runner.specs.Planning.{IsPrintable, IsSummaryOf, bytes_of};
ghost use Rattle.script_runner.specs.declared.words.Mode.{Mode};
ghost use Rattle.std.specs.Prelude.{IfOk};

use crate::generated::run_rounds;
use crate::in_threads::run_seed_in_threads;
use crate::outcome::Printed;
use crate::words::Mode;
use dcd_base::{Gate, NoMemory};
use std::alloc::{AllocGlobal, Global};
use std::sync::Wait;
use std::thread::Threads;

/// The summary of a run of the generated script of the seed, in the mode.
pub(crate) fn summary_in<R: Threads + Wait + Sync + AllocGlobal, G: Gate>(
    rt: &R,
    alloc: Global,
    mode: Mode,
    seed: u64,
    gate: &G,
) -> Result<Printed, NoMemory>
    ensures summary { IfOk result (λ text. IsSummaryOf mode seed (bytes_of text)) }
    ensures printable { IfOk result IsPrintable }
{
    match mode {
        Mode::Serial => summary_serially(alloc, seed),
        Mode::Threads => summary_in_threads(rt, alloc, seed, gate),
    }
}

/// That of a run on the serial device.
#[tactic(auto, using(crate::proofs::Printed::summary_of_seed))]
fn summary_serially(alloc: Global, seed: u64) -> Result<Printed, NoMemory>
    ensures summary { IfOk result (λ text. IsSummaryOf Mode.Serial seed (bytes_of text)) }
    ensures printable { IfOk result IsPrintable }
{
    match run_rounds(alloc, seed) {
        Ok(device) => Ok(Printed::Summary(device)),
        Err(NoMemory) => Err(NoMemory),
    }
}

/// That of a run in threads.
#[tactic(auto, using(crate::proofs::Printed::summary_of_threads))]
fn summary_in_threads<R: Threads + Wait + Sync + AllocGlobal, G: Gate>(
    rt: &R,
    alloc: Global,
    seed: u64,
    gate: &G,
) -> Result<Printed, NoMemory>
    ensures summary { IfOk result (λ text. IsSummaryOf Mode.Threads seed (bytes_of text)) }
    ensures printable { IfOk result IsPrintable }
{
    match run_seed_in_threads(rt, alloc, seed, gate) {
        Ok((control, shards)) => Ok(Printed::MergedSummary(control, shards)),
        Err(NoMemory) => Err(NoMemory),
    }
}
