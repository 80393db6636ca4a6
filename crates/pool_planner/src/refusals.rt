//! The lines that say why there is no list.

ghost use Rattle.pool_planner.specs.PlanPrinting.{demand_fault_number, demands_refused, plan_fault_line, plan_refused, plan_short};
ghost use Rattle.report.specs.Refusals.{refusal_line};
ghost use Rattle.report.specs.script_codec.specs.declared.faults.ScriptFault.{ScriptFault};
ghost use Rattle.std.specs.Prelude.{◌≡◌, ◌≢◌, IfOk};

use crate::printing::write_number;
use dcd_base::{Bytes, Failed, MemSink, NoMemory};
use plan_rules::{DemandFault, PlanFault};
use report::refusal;
use report::script_codec::ScriptFault;
use std::alloc::Global;

/// The line on the first fault of a script.
pub(crate) fn script_refusal(alloc: Global, fault: &ScriptFault) -> Result<Bytes, NoMemory>
    requires { fault.now ≢ ScriptFault.NoMemory }
    ensures { IfOk result (λ line. line ≡ refusal_line fault.now) }
{
    let mut sink = MemSink::new(alloc, usize::MAX, Vec::new(alloc));
    match refusal(fault, &mut sink) {
        Ok(()) => sink.taken().copy(),
        Err(Failed) => Err(NoMemory),
    }
}

/// The number of a fault of demands, 0 for want of memory.
fn number_of(fault: &DemandFault) -> u64
    ensures { result ≡ demand_fault_number fault.now }
{
    match fault {
        DemandFault::NotJson => 1,
        DemandFault::BadShape => 2,
        DemandFault::NoMemory => 0,
    }
}

/// The line on demands that are refused.
#[tactic(auto, unfolding(crate::specs::PlanPrinting::demands_refused))]
pub(crate) fn demands_refusal(alloc: Global, fault: &DemandFault) -> Result<Bytes, NoMemory>
    ensures { IfOk result (λ line. line ≡ demands_refused fault.now) }
{
    let mut line = Bytes::from_slice(alloc, b"demands refused: ")?;
    write_number(&mut line, number_of(fault))?;
    line.push(b'\n')?;
    Ok(line)
}

/// The line with the number of a fault of a plan.
#[tactic(auto, unfolding(crate::specs::PlanPrinting::plan_refused))]
fn refused_line(alloc: Global, number: u64) -> Result<Bytes, NoMemory>
    ensures { IfOk result (λ line. line ≡ plan_refused number) }
{
    let mut line = Bytes::from_slice(alloc, b"plan refused: ")?;
    write_number(&mut line, number)?;
    line.push(b'\n')?;
    Ok(line)
}

/// The line on a region that has too few free blocks.
#[tactic(auto, unfolding(crate::specs::PlanPrinting::plan_short))]
fn short_line(alloc: Global, region: u8, need: u64, have: u64) -> Result<Bytes, NoMemory>
    ensures { IfOk result (λ line. line ≡ plan_short region need have) }
{
    let mut line = Bytes::from_slice(alloc, b"short ")?;
    write_number(&mut line, u64::from(region))?;
    line.extend_from_slice(b" need ")?;
    write_number(&mut line, need)?;
    line.extend_from_slice(b" have ")?;
    write_number(&mut line, have)?;
    line.push(b'\n')?;
    Ok(line)
}

/// The line that says why there is no list.
pub(crate) fn plan_refusal(alloc: Global, fault: &PlanFault) -> Result<Bytes, NoMemory>
    ensures { IfOk result (λ line. line ≡ plan_fault_line fault.now) }
{
    match fault {
        PlanFault::BadDemand(_) => refused_line(alloc, 1),
        PlanFault::BadDead(_) => refused_line(alloc, 2),
        PlanFault::Open(_) => refused_line(alloc, 3),
        PlanFault::Short { region, need, have } => short_line(alloc, region.0, *need, *have),
        PlanFault::Refused { .. } => refused_line(alloc, 5),
        PlanFault::NoMemory => refused_line(alloc, 0),
    }
}
