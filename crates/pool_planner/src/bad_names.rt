//! Demands and dead hosts that are named wrongly.

ghost use Rattle.plan_rules.specs.Planning.{has_number, is_bad_dead as bad_dead_at, is_bad_demand as bad_demand_at, lowest_below, same_place};
ghost use Rattle.std.specs.List.{list_any};
ghost use Rattle.std.specs.Prelude.{◌≡◌, ◌<◌, ◌||◌, length, nat_le, take};
ghost use Rattle.region_config.specs.Granules.{region_spec};

use dcd_base::RegionId;
use plan_rules::{Demand, Demands};
use region_config::Config;

/// Whether the number is among those.
fn has_number(numbers: &[u32], number: u32) -> bool
    ensures { result ≡ has_number numbers.now number }
{
    numbers.iter().any(|n| *n == number)
}

/// Whether one of the demands names the host and region of this one.
fn is_repeated(before: &[Demand], demand: &Demand) -> bool
    ensures { result ≡ list_any (same_place demand.now) before.now }
{
    before
        .iter()
        .any(|x| demand.host == x.host && demand.region == x.region)
}

/// Whether the demand names no host of the device, no region, or a shareable one.
fn is_nowhere(config: &Config, demand: &Demand) -> bool
    ensures { result ≡ (nat_le config.now.hosts demand.now.host || nat_le (length config.now.regions) demand.now.region
        || (region_spec config.now demand.now.region).shareable) }
{
    if demand.host >= u32::from(config.hosts()) || demand.region >= u32::from(config.regions()) {
        return true;
    }
    config.region(RegionId(demand.region as u8)).shareable
}

/// Whether the demand of this index is bad, beside those before it and the dead hosts.
fn is_bad_demand(config: &Config, demands: &Demands, index: usize) -> bool
    requires { index < length demands.now.demands }
    ensures { result ≡ bad_demand_at config.now demands.now index }
{
    let all = demands.demands.as_slice();
    let demand = &all[index];
    is_nowhere(config, demand)
        || is_repeated(&all[..index], demand)
        || has_number(demands.dead.as_slice(), demand.host)
}

/// Whether the dead host of this index is none of the device, or comes before.
fn is_bad_dead(config: &Config, demands: &Demands, index: usize) -> bool
    requires { index < length demands.now.dead }
    ensures { result ≡ bad_dead_at config.now demands.now index }
{
    let dead = demands.dead.as_slice();
    dead[index] >= u32::from(config.hosts()) || has_number(&dead[..index], dead[index])
}

/// The index of the first demand that names no host, no region or a shareable one, repeats an earlier pair of both, or
/// names a dead host; None exactly where there is none.
pub fn bad_demand(config: &Config, demands: &Demands) -> Option<usize>
    ensures { result ≡ lowest_below (bad_demand_at config.now demands.now) (length demands.now.demands) }
{
    for index in 0..demands.demands.len() {
        if is_bad_demand(config, demands, index) {
            return Some(index);
        }
    }
    None
}

/// The index of the first dead host that is none of the device, or comes again; None exactly where there is none.
pub fn bad_dead(config: &Config, demands: &Demands) -> Option<usize>
    ensures { result ≡ lowest_below (bad_dead_at config.now demands.now) (length demands.now.dead) }
{
    for index in 0..demands.dead.len() {
        if is_bad_dead(config, demands, index) {
            return Some(index);
        }
    }
    None
}
