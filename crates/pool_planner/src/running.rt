//! The device behind a script, and behind a list; the lines of its state.

ghost use Rattle.device_plain.specs.Devices.{Enters};
ghost use Rattle.pool_planner.specs.PlanRuns.{AddsScriptLine, IsBehind, IsBehindList};
ghost use Rattle.pool_planner.specs.PlanPrinting.{IsShortAct, IsSoundStep, plan_state};
ghost use Rattle.report.specs.script_codec.specs.Covering.{Runs};
ghost use Rattle.report.specs.script_codec.specs.Scripts.{is_sound_line};
ghost use Rattle.std.specs.List.{All, list_all};
ghost use Rattle.std.specs.Prelude.{◌≡◌, ◌≤◌, ◌++◌, [], IsTrue, OnOk, length};

use dcd_base::{Actor, Bytes, Failed, MemSink, NoMemory};
use device_plain::Device;
use journal_core::{Act, fits};
use report::script_codec::{Line, pass_of};
use report::summary;

/// How many bytes the first line of a summary has.
const FIRST_LINE: usize = 6;

/// Does a line: a step of its actor, or nothing for a mark.
fn run_line(device: &mut Device, lanes: u8, number: u32, line: &Line) -> Result<(), NoMemory>
    requires { IsTrue (is_sound_line device.old.config.hosts lanes line.now) }
    ensures config { OnOk result (device.new.config ≡ device.old.config) }
    ensures ran { OnOk result (AddsScriptLine device.old.config.hosts lanes number line.now device.old.journal device.new.journal) }
{
    match line {
        Line::Do { actor, lane, act } => {
            let hosts = device.control().first_config().hosts();
            let pass = pass_of(hosts, lanes, actor, *lane);
            let _reply = device.step(pass, number, *actor, act)?;
            Ok(())
        }
        Line::Mark => Ok(()),
    }
}

/// Does the lines of a script in their order on the fresh device.
pub(crate) fn run_lines(device: &mut Device, lanes: u8, lines: &[Line]) -> Result<(), NoMemory>
    requires fresh { device.old.journal ≡ [] }
    requires sound { IsTrue (list_all (is_sound_line device.old.config.hosts lanes) lines.now) }
    requires few { length lines.now ≤ 65536 }
    ensures config { OnOk result (device.new.config ≡ device.old.config) }
    ensures ran { OnOk result (Runs device.old.config.hosts lanes 1 lines.now device.new.journal) }
{
    let mut number = 0;
    for line in lines {
        number += 1;
        run_line(device, lanes, number, line)?;
    }
    Ok(())
}

/// Whether the message of an act can be written.
fn is_short(act: &Act) -> bool
    ensures { IsTrue result → IsShortAct act.now }
{
    match act {
        Act::Command(request) => request.payload.as_slice().len() < 2_097_152,
        Act::Load(_) => true,
        Act::Store(_, _) => true,
        Act::Scrub(_) => true,
    }
}

/// Whether the actor may do the act on a device of so many hosts, and its message can be written.
fn is_sound(hosts: u8, step: &(Actor, Act)) -> bool
    ensures { IsTrue result → IsSoundStep hosts step.now }
{
    fits(hosts, &step.0, &step.1) && is_short(&step.1)
}

pub(crate) fn are_sound(hosts: u8, acts: &[(Actor, Act)]) -> bool
    ensures { IsTrue result → All (IsSoundStep hosts) acts.now }
{
    for step in acts {
        if !is_sound(hosts, step) {
            return false;
        }
    }
    true
}

/// Does an act of a list.
fn take_step(device: &mut Device, step: &(Actor, Act)) -> Result<(), NoMemory>
    requires { IsSoundStep device.old.config.hosts step.now }
    ensures { OnOk result (IsBehind device.old device.new step.now) }
{
    let _reply = device.step(0, 0, step.0, &step.1)?;
    // The journal is legal.
    let _journal = device.journal();
    Ok(())
}

/// Does the acts of a list in their order.
pub(crate) fn take_steps(device: &mut Device, acts: &[(Actor, Act)]) -> Result<(), NoMemory>
    requires { All (IsSoundStep device.old.config.hosts) acts.now }
    ensures { OnOk result (IsBehindList device.old device.new acts.now) }
{
    // The journal is legal.
    let _journal = device.journal();
    for step in acts {
        take_step(device, step)?;
    }
    Ok(())
}

/// Puts the lines of the state of a device, which are its summary without the first line.
pub(crate) fn write_state(text: &mut Bytes, device: &Device) -> Result<(), NoMemory>
    ensures { OnOk result (text.new ≡ text.old ++ plan_state device.now.config device.now.journal) }
{
    let alloc = text.allocator();
    let mut sink = MemSink::new(alloc, usize::MAX, Vec::new(alloc));
    let journal = device.journal();
    match summary(device.control(), &journal, &mut sink) {
        Ok(()) => {
            let (_, state) = sink.taken().as_slice().split_at(FIRST_LINE);
            text.extend_from_slice(state)
        }
        Err(Failed) => Err(NoMemory),
    }
}
