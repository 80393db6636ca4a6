//! What is to be gained, and whether so much is free.

ghost use Rattle.plan_rules.specs.declared.demands.Demand.{Demand};
ghost use Rattle.journal_core.specs.Entries.{effects};
ghost use Rattle.pool_planner.specs.Naming.{ArePlaced, IsPlaced};
ghost use Rattle.pool_planner.specs.Trials.{gain_in_region, short_between};
ghost use Rattle.plan_rules.specs.Holding.{gain as gain_of};
ghost use Rattle.plan_rules.specs.Planning.{need_in as needed_in};
ghost use Rattle.std.specs.Prelude.{◌≡◌, ◌==◌, ◌^◌, ◌<◌, ◌≤◌, IfOk, if◌then◌else◌, length, get_or, sum_by, ℕ};

use crate::held::blocks_held;
use dcd_base::{NoMemory, RegionId};
use device_plain::control_core::Control;
use plan_rules::{Demand, Demands, PlanFault};
use std::alloc::Global;

/// How many blocks the demanded host is to gain.
pub(crate) fn gain(alloc: Global, control: &Control, demand: &Demand) -> Result<u64, NoMemory>
    requires { IsPlaced control.now.config demand.now }
    ensures value { IfOk result (λ blocks. blocks ≡ gain_of control.now.config (effects control.now.entries) demand.now) }
    ensures few { IfOk result (λ blocks. blocks < 2 ^ 32) }
{
    let held = blocks_held(alloc, control, demand)?;
    Ok(u128::from(demand.blocks).saturating_sub(held) as u64)
}

/// How many blocks the demanded host is to gain, if it is in this region.
fn gain_in(alloc: Global, control: &Control, demand: &Demand, region: u8) -> Result<u64, NoMemory>
    requires { IsPlaced control.now.config demand.now }
    ensures value { IfOk result (λ blocks. blocks ≡ gain_in_region control.now.config (effects control.now.entries) region demand.now) }
    ensures few { IfOk result (λ blocks. blocks < 2 ^ 32) }
{
    if demand.region == u32::from(region) {
        gain(alloc, control, demand)
    } else {
        Ok(0)
    }
}

/// How many blocks are to be gained in a region.
fn need_in(
    alloc: Global,
    control: &Control,
    demands: &[Demand],
    region: u8,
) -> Result<u64, NoMemory>
    requires few { length demands.now ≤ 128 }
    requires placed { (k : ℕ) (d : Demand) → k < length demands.now → IsPlaced control.now.config (get_or demands.now k d) }
    ensures { IfOk result (λ need. need ≡ sum_by (gain_in_region control.now.config (effects control.now.entries) region) demands.now) }
{
    let mut need = 0;
    for i in 0..demands.len() {
        need += gain_in(alloc, control, &demands[i], region)?;
    }
    Ok(need)
}

/// The lowest region in which more is to be gained, by what the control has, than is free on the trial's control.
pub(crate) fn short_region(
    alloc: Global,
    control: &Control,
    tried: &Control,
    demands: &Demands,
) -> Result<Option<PlanFault>, NoMemory>
    requires same { tried.now.config ≡ control.now.config }
    requires placed { ArePlaced control.now.config demands.now }
    ensures { IfOk result (λ fault. fault
        ≡ short_between control.now.config (effects control.now.entries) (effects tried.now.entries) demands.now) }
{
    for region in 0..control.first_config().regions() {
        let need = need_in(alloc, control, demands.demands.as_slice(), region)?;
        let have = u64::from(tried.free_blocks(RegionId(region)));
        if have < need {
            let region = RegionId(region);
            return Ok(Some(PlanFault::Short { region, need, have }));
        }
    }
    Ok(None)
}
