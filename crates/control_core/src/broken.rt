//! Which rule a command would break.

ghost use Rattle.control_core.specs.Broken.{HasRow};
ghost use Rattle.control_core.specs.Pasts.{ByEveryPast};
ghost use Rattle.control_core.specs.Steps.{MayStep};
ghost use Rattle.cci_codec.specs.dcd_base.specs.declared.steps.Actor.{Actor};
ghost use Rattle.extent_list.specs.dcd_codes.specs.declared.rules.Rule.{Rule as BrokenRule};
ghost use Rattle.device_commands.specs.device_rules.specs.Answers.{broken as broken_by};
ghost use Rattle.journal_core.specs.declared.acts.Act.{Act};
ghost use Rattle.std.specs.Prelude.{◌≡◌, ◌<◌, IfOk, Option};

use crate::control::Control;
use crate::live::LiveControl;
use cci_codec::Request;
use cci_codec::dcd_base::{Actor, HostId, NoMemory};
use device_commands::Draft;
use extent_list::dcd_codes::{Refusal, Rule};
use fm_payloads::{PayloadFault, decode};
use host_commands::host_draft;
use journal_core::Act;
use manager_commands::manager_draft;

impl Control {
    /// The first rule that the act would break, were it the next step; None exactly where it breaks none, as a scrub.
    ///
    /// The act is a command or a scrub that fits its actor. `NoMemory` may come in place of any answer.
    pub fn broken(&self, actor: &Actor, act: &Act) -> Result<Option<Rule>, NoMemory>
        requires { MayStep self.now.config actor.now act.now }
        ensures { IfOk result (λ rule. rule ≡ broken_by self.now.config self.now.entries actor.now act.now) }
    {
        self.live.broken(actor, act)
    }
}

impl LiveControl {
    /// The first rule that the act would break, were it the next step; None exactly where it breaks none, as a scrub.
    ///
    /// The act is a command or a scrub that fits its actor. `NoMemory` may come in place of any answer.
    pub fn broken(&self, actor: &Actor, act: &Act) -> Result<Option<Rule>, NoMemory>
        requires { MayStep self.now.config actor.now act.now }
        ensures { IfOk result (λ rule. ByEveryPast self.now (λ past. rule ≡ broken_by self.now.config past actor.now act.now)) }
    {
        match actor {
            Actor::Host(host) => match act {
                Act::Command(request) => self.broken_by_host(*host, request),
                _ => unreachable!(),
            },
            Actor::Manager => match act {
                Act::Command(request) => self.broken_by_manager(request),
                _ => unreachable!(),
            },
            Actor::Sanitizer => Ok(None),
        }
    }

    /// The first rule that a host's message would break.
    fn broken_by_host(&self, host: HostId, request: &Request) -> Result<Option<Rule>, NoMemory>
        requires { host < self.now.config.hosts }
        ensures { IfOk result (λ rule. ByEveryPast self.now (λ past. rule ≡ broken_by self.now.config past (Actor.Host host) (Act.Command request.now))) }
    {
        let (config, state) = (&self.config, &self.state);
        let part = state.part(host);
        rule_of(host_draft(
            self.alloc,
            config,
            &state.present,
            host,
            &part.lists,
            &part.log,
            request,
        ))
    }

    /// The first rule that a message of the manager would break.
    fn broken_by_manager(&self, request: &Request) -> Result<Option<Rule>, NoMemory>
        ensures { IfOk result (λ rule. ByEveryPast self.now (λ past. rule ≡ broken_by self.now.config past Actor.Manager (Act.Command request.now))) }
    {
        match decode(self.alloc, request.opcode, request.payload.as_slice()) {
            Ok(asked) => rule_of(manager_draft(self.alloc, &self.config, &self.state, &asked)),
            Err(PayloadFault::UnknownOpcode(opcode)) => Ok(Some(Rule::UnknownOpcode(opcode))),
            Err(PayloadFault::WrongLength { need, have }) => {
                Ok(Some(Rule::WrongLength { need, have }))
            }
            Err(PayloadFault::NoMemory) => Err(NoMemory),
        }
    }
}

/// The rule that a command was refused for.
fn rule_of(drafted: Result<Draft, Refusal>) -> Result<Option<Rule>, NoMemory>
    ensures { (row : Option BrokenRule) → HasRow row drafted → IfOk result (λ rule. rule ≡ row) }
{
    match drafted {
        Ok(_draft) => Ok(None),
        Err(Refusal::Broken(rule)) => Ok(Some(rule)),
        Err(Refusal::NoMemory) => Err(NoMemory),
    }
}
