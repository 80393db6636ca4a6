//! The lines of a fabric, one after another.

ghost use Rattle.tunnel_fabric.specs.declared.fabric_lines.FabricLine.{FabricLine};
ghost use Rattle.std.specs.Prelude.{◌≡◌, ◌≤◌, IfOk, IsTrue, OnOk, length};
ghost use Rattle.std.specs.List.{All};
ghost use Rattle.tunnel_fabric.specs.Sending.{CanRun, IsFabricRun, IsShortReply};
ghost use Rattle.tunnel_fabric.specs.Stepping.{IsOpened, LineDone, RanFront, Reached, line_fits};
ghost use Rattle.tunnel_fabric.specs.declared.opening.Opened.{Opened};

use crate::fabrics::Fabric;
use crate::opening::{Opened, open};
use crate::replies::{Replied, Replies};
use crate::replying::wrap;
use crate::rules::refused;
use crate::stepping::{answer_one, are_sound, enter_one, fresh};
use crate::{FabricLine, FabricScript};
use cci_codec::{Request, Response};
use dcd_base::NoMemory;
use device_plain::Device;
use std::alloc::Global;

/// Takes the command to the device that its message reaches, and answers the message.
fn reach(
    alloc: Global,
    devices: &mut [Device],
    number: u32,
    outer: &Request,
    device: u8,
    inner: Request,
) -> Result<Response, NoMemory>
    requires { IsOpened (length devices.old) outer.now (Opened.Reaches device inner) }
    ensures { IfOk result (Reached number outer.now devices.old devices.new) }
{
    let response = answer_one(devices, device, number, inner)?;
    wrap(alloc, outer, device, &response)
}

/// Answers a message to the tunnel, and puts the reply at the end.
#[tactic(auto, using(crate::proofs::Fronts::line_reached, crate::proofs::Fronts::line_refused))]
fn run_tunnel(
    alloc: Global,
    devices: &mut [Device],
    replies: &mut Replies,
    number: u32,
    outer: &Request,
) -> Result<(), NoMemory>
    requires few { length devices.old ≤ 8 }
    ensures { OnOk result (LineDone number (FabricLine.Tunnel outer.now) devices.old devices.new replies.old replies.new) }
{
    let response = match open(alloc, devices.len() as u8, outer)? {
        Opened::Breaks(rule) => refused(alloc, outer, &rule),
        Opened::Reaches(device, inner) => reach(alloc, devices, number, outer, device, inner)?,
    };
    replies.push(Replied {
        line: number,
        response,
    })
}

#[tactic(auto, using(crate::proofs::Fronts::line_local))]
fn run_line(
    alloc: Global,
    devices: &mut [Device],
    replies: &mut Replies,
    number: u32,
    line: &FabricLine,
) -> Result<(), NoMemory>
    requires few { length devices.old ≤ 8 }
    requires fits { IsTrue (line_fits devices.old line.now) }
    ensures { OnOk result (LineDone number line.now devices.old devices.new replies.old replies.new) }
{
    match line {
        FabricLine::Local { device, actor, act } => {
            enter_one(devices, *device, number, *actor, act)
        }
        FabricLine::Tunnel(outer) => run_tunnel(alloc, devices, replies, number, outer),
    }
}

/// Runs all lines in order.
#[tactic(auto, using(crate::proofs::Fronts::fits_now, crate::proofs::Fronts::front_next))]
fn run_all(
    alloc: Global,
    script: &FabricScript,
    devices: &mut [Device],
    replies: &mut Replies,
) -> Result<(), NoMemory>
    requires can { CanRun script.now }
    requires fresh { RanFront script.now 0 devices.old replies.old }
    ensures { OnOk result (RanFront script.now (length script.now.lines) devices.new replies.new) }
{
    let lines = script.lines.as_slice();
    for i in 0..lines.len() {
        run_line(alloc, devices, replies, i as u32 + 1, &lines[i])?;
    }
    Ok(())
}

/// Runs all lines in order, each on the device that it is for.
///
/// Each device's journal is legal and has what the device is sent, in order, each once, with the numbers of the lines:
/// its local lines, and the messages that reach it through the tunnel, as commands of the Fabric Manager. The reply to a
/// message to the tunnel is the code of the rule that it breaks, or wraps the response of its device; its payload has at most
/// 2,064 bytes.
#[tactic(auto, using(crate::proofs::Fronts::front_fresh, crate::proofs::Fronts::run_is))]
pub fn run_lines(alloc: Global, script: &FabricScript) -> Result<Fabric, NoMemory>
    requires { CanRun script.now }
    ensures ran { IfOk result (λ fabric. IsFabricRun script.now fabric) }
    ensures short { IfOk result (λ fabric. All IsShortReply fabric.replies) }
{
    let mut devices = fresh(alloc, script.configs.as_slice())?;
    let mut replies = Replies::new(alloc);
    run_all(alloc, script, &mut devices, &mut replies)?;
    are_sound(&devices);
    Ok(Fabric::new(devices, replies))
}
