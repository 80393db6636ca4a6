//! The faults of what is named.

ghost use Rattle.pool_planner.specs.Naming.{ArePlaced};
ghost use Rattle.plan_rules.specs.Planning.{named_fault as fault_named};
ghost use Rattle.std.specs.Prelude.{◌≡◌, IfNone};

use crate::{bad_dead, bad_demand};
use plan_rules::{Demands, PlanFault};
use region_config::Config;

/// The first demand or dead host that is named wrongly. Where there is none, all name what the device has.
pub(crate) fn named_fault(config: &Config, demands: &Demands) -> Option<PlanFault>
    ensures fault { result ≡ fault_named config.now demands.now }
    ensures placed { IfNone result (ArePlaced config.now demands.now) }
{
    // There are 16 hosts and 8 regions at most.
    let _hosts = config.hosts();
    match bad_demand(config, demands) {
        Some(index) => Some(PlanFault::BadDemand(index as u64)),
        None => match bad_dead(config, demands) {
            Some(index) => Some(PlanFault::BadDead(index as u64)),
            None => None,
        },
    }
}
