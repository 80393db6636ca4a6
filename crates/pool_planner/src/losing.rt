//! What is lost before anything is gained, and what of it is zeroed.

ghost use Rattle.journal_core.specs.Entries.{effects};
ghost use Rattle.pool_planner.specs.Naming.{ArePlaced, IsPlaced};
ghost use Rattle.pool_planner.specs.Trials.{TriesMore};
ghost use Rattle.plan_rules.specs.Listing.{give_back_surplus, let_go as let_go_by, losing as lost_by, zeroing};
ghost use Rattle.std.specs.List.{flat_map};
ghost use Rattle.std.specs.Prelude.{◌≡◌, ◌<◌, OnOk, get_or, length, ℕ};

use crate::held::{block_size, blocks_held, held_extents};
use crate::letting_go::let_go;
use crate::return_step;
use crate::trial::Trial;
use dcd_base::{Actor, HostId, NoMemory, RegionId};
use device_plain::control_core::Control;
use journal_core::Act;
use plan_rules::{Demand, Demands};
use std::alloc::Global;

/// The host gives back what it has above the demand.
fn give_back(
    alloc: Global,
    trial: &mut Trial,
    control: &Control,
    demand: &Demand,
) -> Result<(), NoMemory>
    requires same { trial.old.control.config ≡ control.now.config }
    requires placed { IsPlaced control.now.config demand.now }
    ensures { OnOk result (TriesMore trial.old trial.new (give_back_surplus control.now.config (effects control.now.entries) demand.now)) }
{
    // There are 16 hosts and 8 regions at most.
    let _hosts = control.first_config().hosts();
    let surplus = blocks_held(alloc, control, demand)?.saturating_sub(u128::from(demand.blocks));
    if surplus == 0 {
        return Ok(());
    }
    let host = HostId(demand.host as u8);
    let region = RegionId(demand.region as u8);
    let extents = held_extents(alloc, control, host, region)?;
    let bytes = surplus * u128::from(block_size(control, region));
    trial.take(return_step(alloc, host, bytes, extents.as_slice())?)
}

/// Dead hosts let all go.
fn all_let_go(
    alloc: Global,
    trial: &mut Trial,
    control: &Control,
    dead: &[u32],
) -> Result<(), NoMemory>
    requires same { trial.old.control.config ≡ control.now.config }
    requires known { (k d : ℕ) → k < length dead.now → get_or dead.now k d < control.now.config.hosts }
    ensures { OnOk result (TriesMore trial.old trial.new (flat_map (let_go_by control.now.config (effects control.now.entries)) dead.now)) }
{
    // There are 16 hosts at most.
    let _hosts = control.first_config().hosts();
    for i in 0..dead.len() {
        let_go(alloc, trial, control, HostId(dead[i] as u8))?;
    }
    Ok(())
}

/// Hosts give back what they have above their demands.
fn all_give_back(
    alloc: Global,
    trial: &mut Trial,
    control: &Control,
    demands: &[Demand],
) -> Result<(), NoMemory>
    requires same { trial.old.control.config ≡ control.now.config }
    requires known { (k : ℕ) (d : Demand) → k < length demands.now → IsPlaced control.now.config (get_or demands.now k d) }
    ensures { OnOk result (TriesMore trial.old trial.new (flat_map (give_back_surplus control.now.config (effects control.now.entries)) demands.now)) }
{
    for i in 0..demands.len() {
        give_back(alloc, trial, control, &demands[i])?;
    }
    Ok(())
}

/// Tries what is lost: dead hosts let all go, and others give back what they have above their demands.
pub(crate) fn lose(
    alloc: Global,
    trial: &mut Trial,
    control: &Control,
    demands: &Demands,
) -> Result<(), NoMemory>
    requires same { trial.old.control.config ≡ control.now.config }
    requires placed { ArePlaced control.now.config demands.now }
    ensures { OnOk result (TriesMore trial.old trial.new (lost_by control.now.config (effects control.now.entries) demands.now)) }
{
    all_let_go(alloc, trial, control, demands.dead.as_slice())?;
    all_give_back(alloc, trial, control, demands.demands.as_slice())
}

/// Zeroes all that is dirty on the trial, where anything is.
pub(crate) fn zero_dirty(trial: &mut Trial) -> Result<(), NoMemory>
    ensures { OnOk result (TriesMore trial.old trial.new (zeroing trial.old.control.config (effects trial.old.control.entries))) }
{
    // There are 4,096 granules at most.
    let _granules = trial.control.first_config().granules();
    let dirty = trial.control.dirty();
    if dirty == 0 {
        return Ok(());
    }
    trial.take((Actor::Sanitizer, Act::Scrub(dirty as u16)))
}
