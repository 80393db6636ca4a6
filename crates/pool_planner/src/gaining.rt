//! What is gained: hosts are offered what they have below their demands, and take it.

ghost use Rattle.plan_rules.specs.declared.demands.Demand.{Demand};
ghost use Rattle.journal_core.specs.Entries.{effects};
ghost use Rattle.pool_planner.specs.Naming.{IsPlaced};
ghost use Rattle.pool_planner.specs.Trials.{TriesMore};
ghost use Rattle.plan_rules.specs.Listing.{gained, gaining, offer_taken};
ghost use Rattle.std.specs.Prelude.{◌≡◌, ◌∷◌, ◌<◌, [], IfOk, OnOk, get_or, length, ℕ};

use crate::held::block_size;
use crate::shortness::gain;
use crate::trial::Trial;
use crate::{PlanStep, accept_step, add_step};
use dcd_base::{HostId, NoMemory, RegionId};
use device_plain::control_core::Control;
use plan_rules::Demand;
use std::alloc::Global;

/// The response that takes all extents of the host's oldest offer.
fn taking_step(alloc: Global, control: &Control, host: HostId) -> Result<PlanStep, NoMemory>
    requires { host < control.now.config.hosts }
    ensures { IfOk result (λ step. step ≡ offer_taken host (effects control.now.entries)) }
{
    // What every legal journal keeps bounds the extents.
    let _entries = control.entries();
    let _hosts = control.first_config().hosts();
    if control.offers(host) == 0 {
        return accept_step(alloc, host, &[]);
    }
    accept_step(alloc, host, control.offer(host, 0))
}

/// The host takes its oldest offer.
fn take_offer(alloc: Global, trial: &mut Trial, host: HostId) -> Result<(), NoMemory>
    requires { host < trial.old.control.config.hosts }
    ensures { OnOk result (TriesMore trial.old trial.new (offer_taken host (effects trial.old.control.entries) ∷ [])) }
{
    let step = taking_step(alloc, &trial.control, host)?;
    trial.take(step)
}

/// The host is offered what it has below the demand, and takes it.
fn gain_one(
    alloc: Global,
    trial: &mut Trial,
    control: &Control,
    demand: &Demand,
) -> Result<(), NoMemory>
    requires same { trial.old.control.config ≡ control.now.config }
    requires placed { IsPlaced control.now.config demand.now }
    ensures { OnOk result (TriesMore trial.old trial.new (gained control.now.config (effects control.now.entries) trial.old.control.entries demand.now)) }
{
    // There are 16 hosts and 8 regions at most.
    let _hosts = control.first_config().hosts();
    let gain = gain(alloc, control, demand)?;
    if gain == 0 {
        return Ok(());
    }
    let host = HostId(demand.host as u8);
    let region = RegionId(demand.region as u8);
    // A message has 64 bits of it.
    let bytes = gain.wrapping_mul(block_size(control, region));
    trial.take(add_step(alloc, host, region, bytes)?)?;
    take_offer(alloc, trial, host)
}

/// Hosts are offered what they have below their demands, and take it.
pub(crate) fn gain_all(
    alloc: Global,
    trial: &mut Trial,
    control: &Control,
    demands: &[Demand],
) -> Result<(), NoMemory>
    requires same { trial.old.control.config ≡ control.now.config }
    requires placed { (k : ℕ) (d : Demand) → k < length demands.now → IsPlaced control.now.config (get_or demands.now k d) }
    ensures { OnOk result (TriesMore trial.old trial.new
        (gaining control.now.config (effects control.now.entries) trial.old.control.entries demands.now)) }
{
    for i in 0..demands.len() {
        gain_one(alloc, trial, control, &demands[i])?;
    }
    Ok(())
}
