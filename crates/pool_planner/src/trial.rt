//! The acts of a plan as they are tried, one after another.

ghost use Rattle.device_plain.specs.control_core.specs.Steps.{MayStep};
ghost use Rattle.dcd_base.specs.Words.{◌or◌};
ghost use Rattle.device_plain.specs.device_rules.specs.Legal.{Legal};
ghost use Rattle.journal_core.specs.Merging.{Rising};
ghost use Rattle.pool_planner.specs.Trials.{IsTried, TriesMore};
ghost use Rattle.plan_rules.specs.PlanAlike.{replayed as taken_again};
ghost use Rattle.std.specs.Prelude.{◌≡◌, ◌∷◌, [], IfOk, OnOk, option_map};

use crate::PlanStep;
use crate::replaying::replayed;
use dcd_base::{NoMemory, Seq};
use dcd_codes::Rule;
use device_plain::control_core::Control;
use device_plain::kept_journal::KeptEntries;
use plan_rules::PlanFault;
use region_config::Config;
use std::alloc::Global;

/// Acts with who does them, in order.
pub type Planned = Seq<PlanStep>;

/// A control on which acts are tried, the acts so far, and the first of them that was refused.
#[derive(Drop)]
pub(crate) struct Trial {
    pub(crate) control: Control,
    pub(crate) acts: Planned,
    pub(crate) refused: Option<PlanFault>,
}

/// The first refusal, where the act of this index breaks this rule.
fn first_refusal(refused: Option<PlanFault>, index: u64, broken: Option<Rule>) -> Option<PlanFault>
    ensures { result ≡ (refused or option_map (PlanFault.Refused index) broken) }
{
    match (refused, broken) {
        (Some(fault), _) => Some(fault),
        (None, Some(rule)) => Some(PlanFault::Refused { index, rule }),
        (None, None) => None,
    }
}

impl Trial {
    /// Nothing is tried yet, on a fresh control with the commands and scrubs of the entries.
    pub(crate) fn new(
        alloc: Global,
        config: &Config,
        entries: &KeptEntries,
    ) -> Result<Trial, NoMemory>
        requires legal { Legal config.now entries.now.entries }
        requires rising { Rising entries.now.entries }
        ensures config { IfOk result (λ trial. trial.control.config ≡ config.now) }
        ensures tried { IfOk result (IsTried config.now (taken_again config.now entries.now.entries) []) }
    {
        let control = replayed(alloc, config, entries)?;
        Ok(Trial {
            control,
            acts: Planned::new(alloc),
            refused: None,
        })
    }

    /// Tries an act, which is a command or a scrub that fits its actor. Without memory the trial is good for nothing.
    pub(crate) fn take(&mut self, step: PlanStep) -> Result<(), NoMemory>
        requires { MayStep self.old.control.config step.0 step.1 }
        ensures { OnOk result (TriesMore self.old self.new (step ∷ [])) }
    {
        let (actor, act) = &step;
        let broken = self.control.broken(actor, act)?;
        let index = self.acts.as_slice().len() as u64;
        self.refused = first_refusal(self.refused, index, broken);
        self.control.step(0, 0, *actor, act)?;
        self.acts.push(step)?;
        Ok(())
    }
}
