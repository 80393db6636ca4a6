//! What a run over an input comes to.

ghost use Rattle.pool_planner.specs.PlanEnds.{IsDemandsEnd, IsPlanEnd, IsPlanFrame, IsPlannedEnd, IsScriptEnd};
ghost use Rattle.pool_planner.specs.PlanPrinting.{plan_text};
ghost use Rattle.pool_planner.specs.declared.status.PlanStatus.{PlanStatus};
ghost use Rattle.report.specs.script_codec.specs.Scripts.{IsScript};
ghost use Rattle.std.specs.Prelude.{◌≡◌, ◌≤◌, IfOk, length};

use crate::plan;
use crate::printing::act_lines;
use crate::refusals::{demands_refusal, plan_refusal, script_refusal};
use crate::running::{are_sound, run_lines, take_steps, write_state};
use crate::status::PlanStatus;
use dcd_base::{Actor, Bytes, NoMemory};
use device_plain::Device;
use journal_core::Act;
use plan_rules::{DemandFault, Demands, PlanFault, read_demands};
use report::script_codec::frames::{need_of, parts_of};
use report::script_codec::{Script, ScriptFault, read};
use std::alloc::Global;

/// How a run ends, and what it writes.
type Ending = (PlanStatus, Bytes);

/// How a run over an input ends, and what it writes.
pub(crate) fn decide(alloc: Global, input: &[u8]) -> Result<Ending, NoMemory>
    requires { length input.now ≤ 33554432 }
    ensures { IfOk result (λ e. IsPlanEnd input.now e.0 e.1) }
{
    let need = need_of(input);
    let have = input.len() as u64;
    if have < need {
        Ok((PlanStatus::InputShort { need, have }, Bytes::new(alloc)))
    } else {
        decide_frame(alloc, input)
    }
}

/// How it ends over a frame.
fn decide_frame(alloc: Global, input: &[u8]) -> Result<Ending, NoMemory>
    requires { IsPlanFrame input.now }
    ensures { IfOk result (λ e. IsPlanEnd input.now e.0 e.1) }
{
    let (script, rest) = parts_of(input);
    match read(alloc, script) {
        Ok(script) => decide_script(alloc, script, rest),
        Err(ScriptFault::NoMemory) => Err(NoMemory),
        Err(fault) => Ok((
            PlanStatus::ScriptRefused(fault),
            script_refusal(alloc, &fault)?,
        )),
    }
}

/// How it ends where the frame has this script, and this behind it.
fn decide_script(alloc: Global, script: Script, rest: &[u8]) -> Result<Ending, NoMemory>
    requires { IsScript script }
    ensures { IfOk result (λ e. IsScriptEnd script rest.now e.0 e.1) }
{
    match read_demands(alloc, rest) {
        Ok(demands) => decide_demands(alloc, script, &demands),
        Err(DemandFault::NoMemory) => Err(NoMemory),
        Err(fault) => Ok((PlanStatus::Demands(fault), demands_refusal(alloc, &fault)?)),
    }
}

/// How it ends for these demands behind a script.
fn decide_demands(alloc: Global, script: Script, demands: &Demands) -> Result<Ending, NoMemory>
    requires { IsScript script }
    ensures { IfOk result (λ e. IsDemandsEnd script demands.now e.0 e.1) }
{
    let Script {
        version: _,
        lanes,
        config,
        lines,
    } = script;
    let mut device = Device::new(alloc, config)?;
    run_lines(&mut device, lanes, lines.as_slice())?;
    // The journal is legal.
    let _journal = device.journal();
    decide_plan(alloc, &mut device, demands)
}

/// How it ends for these demands on a device.
fn decide_plan(alloc: Global, device: &mut Device, demands: &Demands) -> Result<Ending, NoMemory>
    ensures { IfOk result (λ e. IsPlannedEnd device.old.config device.old.journal demands.now e.0 e.1) }
{
    // The journal is legal.
    let _journal = device.journal();
    let control = device.control();
    match plan(alloc, control.first_config(), control, demands) {
        Ok(acts) => take_list(alloc, device, acts.as_slice()),
        Err(PlanFault::NoMemory) => Err(NoMemory),
        Err(fault) => Ok((PlanStatus::Plan(fault), plan_refusal(alloc, &fault)?)),
    }
}

/// Takes a list, and answers its lines and those of the state behind it. Each act of a plan fits its actor, and its message
/// can be written; since no clause says so, it is tried, and a list that is not so ends as where memory is wanted.
fn take_list(alloc: Global, device: &mut Device, acts: &[(Actor, Act)]) -> Result<Ending, NoMemory>
    ensures status { IfOk result (λ e. e.0 ≡ PlanStatus.Done) }
    ensures text { IfOk result (λ e. e.1 ≡ plan_text device.old.config device.old.journal acts.now) }
{
    let hosts = device.control().first_config().hosts();
    if !are_sound(hosts, acts) {
        return Err(NoMemory);
    }
    let mut text = act_lines(alloc, hosts, acts)?;
    take_steps(device, acts)?;
    write_state(&mut text, device)?;
    Ok((PlanStatus::Done, text))
}
