//! The plan.

ghost use Rattle.journal_core.specs.Entries.{effects};
ghost use Rattle.pool_planner.specs.Naming.{ArePlaced};
ghost use Rattle.pool_planner.specs.Trials.{IsFinished, IsPrepared};
ghost use Rattle.plan_rules.specs.Holding.{stepped};
ghost use Rattle.plan_rules.specs.Meeting.{MeetsDemands};
ghost use Rattle.plan_rules.specs.Planning.{AllSucceed, IsOfRoom, IsPlan};
ghost use Rattle.std.specs.Prelude.{◌≡◌, IfErr, IfOk};

use crate::gaining::gain_all;
use crate::losing::{lose, zero_dirty};
use crate::naming::named_fault;
use crate::opening::open_host;
use crate::shortness::short_region;
pub use crate::trial::Planned;
use crate::trial::Trial;
use dcd_base::NoMemory;
use device_plain::control_core::Control;
use plan_rules::{Demands, PlanFault, law_meets, law_of_room};
use region_config::Config;
use std::alloc::Global;

/// What is to be lost is lost on a fresh control that has done the same, and all that is dirty then is zeroed.
fn prepared(
    alloc: Global,
    config: &Config,
    control: &Control,
    demands: &Demands,
) -> Result<Trial, NoMemory>
    requires made { control.now.config ≡ config.now }
    requires placed { ArePlaced config.now demands.now }
    ensures { IfOk result (IsPrepared config.now control.now.entries demands.now) }
{
    let mut trial = Trial::new(alloc, config, control.entries())?;
    lose(alloc, &mut trial, control, demands)?;
    zero_dirty(&mut trial)?;
    Ok(trial)
}

/// The list where nothing of it is refused, and else the first refusal.
fn finished(trial: Trial) -> Result<Planned, PlanFault>
    ensures { IsFinished trial result }
{
    let Trial {
        control: _,
        acts,
        refused,
    } = trial;
    match refused {
        Some(fault) => Err(fault),
        None => Ok(acts),
    }
}

/// The list, tried on a fresh control, or the first fault.
fn list_or_fault(
    alloc: Global,
    config: &Config,
    control: &Control,
    demands: &Demands,
) -> Result<Planned, PlanFault>
    requires made { control.now.config ≡ config.now }
    ensures { IsPlan config.now control.now.entries demands.now result }
{
    if let Some(fault) = named_fault(config, demands) {
        return Err(fault);
    }
    if let Some(host) = open_host(control, demands) {
        return Err(PlanFault::Open(host));
    }
    let mut trial = prepared(alloc, config, control, demands)?;
    if let Some(fault) = short_region(alloc, control, &trial.control, demands)? {
        return Err(fault);
    }
    gain_all(alloc, &mut trial, control, demands.demands.as_slice())?;
    finished(trial)
}

/// The acts that lead from the holdings of the control to the demanded ones, each of which is answered Success, or the
/// first fault: dead hosts let all go; hosts give back what they have above their demands, from their last extents
/// backwards; all that is dirty is zeroed; and hosts are offered what they have below their demands, and take it (profile).
/// Whom the demands do not name loses and gains nothing.
///
/// The control was made from the configuration, and stays as it is: the list is tried on a fresh one. `NoMemory` may come
/// in place of any answer.
pub fn plan(
    alloc: Global,
    config: &Config,
    control: &Control,
    demands: &Demands,
) -> Result<Planned, PlanFault>
    requires made { control.now.config ≡ config.now }
    ensures planned { IsPlan config.now control.now.entries demands.now result }
    ensures succeeds { IfOk result (λ acts. AllSucceed config.now control.now.entries acts) }
    ensures meets { IfOk result (λ acts. MeetsDemands config.now (effects control.now.entries)
        (effects (stepped config.now control.now.entries acts)) demands.now) }
    ensures of_room { IfErr result (λ fault. IsOfRoom fault) }
{
    law_meets();
    law_of_room();
    // The configuration is sound, and the entries are legal.
    let _hosts = config.hosts();
    let _entries = control.entries();
    list_or_fault(alloc, config, control, demands)
}
