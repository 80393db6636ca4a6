//! The shared device as the workers use it.

ghost use Rattle.journal_core.specs.Entries.{fits};
ghost use Rattle.shared_device.specs.Passing.{IsOneOf, IsSamePass, pass_actor, pass_calls};
ghost use Rattle.std.specs.Prelude.{◌≡◌, ◌^◌, ◌<◌, IfOk, IsTrue, OnErr, length};
ghost use Rattle.workers.specs.Handling.{AddsCall};

use crate::inside::Inside;
use dcd_base::{Gate, NoMemory};
use journal_core::{Act, Reply};
use shared_device::{Moment, Pass, Shared};
use std::sync::Wait;
use workers::Handler;

/// Does an act: a command or a scrub, or a load or a store with this moment inside.
fn perform<R: Wait, M: Moment>(
    rt: &R,
    device: &Shared,
    pass: &mut Pass,
    line: u32,
    act: &Act,
    moment: &M,
) -> Result<Reply, NoMemory>
    requires of { IsOneOf device.now pass.old }
    requires fits { IsTrue (fits device.now.config.hosts (pass_actor pass.old) act.now) }
    requires room { length (pass_calls pass.old) < 2 ^ 32 }
    ensures same { IsSamePass device.now pass.old pass.new }
    ensures added { IfOk result (λ reply. AddsCall line act.now reply (pass_calls pass.old) (pass_calls pass.new)) }
    ensures kept { OnErr result (pass_calls pass.new ≡ pass_calls pass.old) }
{
    match act {
        Act::Command(_) | Act::Scrub(_) => device.command(rt, pass, line, act),
        Act::Load(_) | Act::Store(..) => device.access(rt, pass, line, act, moment),
    }
}

/// A shared device and the gate of a run.
#[derive(Clone, Copy)]
pub(crate) struct Gated<'a, G> {
    pub(crate) device: &'a Shared,
    pub(crate) gate: &'a G,
}

impl<'a, G: Gate> Handler for Gated<'a, G> {
    type Pass = Pass;

    ghost use Rattle.script_runner.specs.SharedPasses.{shared_reads};

    ghost reads = { shared_reads (λ handler. handler.device.now) };

    fn handle<R: Wait>(
        &self,
        rt: &R,
        pass: &mut Pass,
        line: u32,
        act: &Act,
    ) -> Result<Reply, NoMemory> {
        let moment = Inside { gate: self.gate };
        perform(rt, self.device, pass, line, act, &moment)
    }
}
