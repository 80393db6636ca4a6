//! A step of a device, and what it changed.

ghost use Rattle.dcd_base.specs.declared.steps.Actor.{Actor};
ghost use Rattle.dcd_c.specs.Sessions.{IsIdle, Steps};
ghost use Rattle.device_plain.specs.control_core.specs.Deciding.{IsShort};
ghost use Rattle.device_plain.specs.Lives.{IsReplyTo, IsTooLong, payload_length};
ghost use Rattle.journal_core.specs.Entries.{fits};
ghost use Rattle.journal_core.specs.declared.acts.Act.{Act};
ghost use Rattle.std.specs.Prelude.{◌≤◌, IfErr, IfOk, IsTrue, OnErr};

use crate::sessions::Session;
use dcd_base::{Actor, NoMemory};
use device_plain::StepFault;
use journal_core::{Act, Reply};

/// The most bytes that the payload of a response has.
const LONGEST: usize = 2_048;

impl Session {
    /// Takes a step and answers its reply, unless that has more than so many bytes. Where it takes none, nothing has changed.
    ///
    /// The act fits its actor.
    pub(crate) fn step_within(
        &mut self,
        actor: Actor,
        act: &Act,
        most: usize,
    ) -> Result<Reply, StepFault>
        requires { IsTrue (fits self.old.device.config.hosts actor act.now) }
        ensures steps { IfOk result (Steps self.old self.new actor act.now) }
        ensures kind { IfOk result (IsReplyTo act.now) }
        ensures short { IfOk result IsShort }
        ensures within { IfOk result (λ reply. payload_length reply ≤ most) }
        ensures too_long { IfErr result (IsTooLong self.old.device actor act.now most) }
        ensures idle { OnErr result (IsIdle self.old self.new) }
    {
        self.device.step_telling(actor, act, most, &mut self.last)
    }

    /// Takes a step and answers its reply. Without memory nothing has changed.
    ///
    /// The act fits its actor.
    pub(crate) fn step(&mut self, actor: Actor, act: &Act) -> Result<Reply, NoMemory>
        requires { IsTrue (fits self.old.device.config.hosts actor act.now) }
        ensures steps { IfOk result (Steps self.old self.new actor act.now) }
        ensures kind { IfOk result (IsReplyTo act.now) }
        ensures idle { OnErr result (IsIdle self.old self.new) }
    {
        match self.step_within(actor, act, LONGEST) {
            Ok(reply) => Ok(reply),
            Err(StepFault::NoMemory) => Err(NoMemory),
            Err(StepFault::TooLong(_)) => unreachable!(),
        }
    }

    /// A call took no step.
    pub(crate) fn rest(&mut self)
        ensures { IsIdle self.old self.new }
    {
        self.last.clear();
    }
}
