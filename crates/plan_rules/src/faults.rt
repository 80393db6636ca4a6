//! Why there is no plan.

ghost use Rattle.plan_rules.specs.declared.faults.PlanFault.TheVariants.{NoMemory as OutOfMemory};
ghost use Rattle.std.specs.Prelude.{◌≡◌};

use dcd_base::{HostId, NoMemory, RegionId};
use dcd_codes::Rule;

/// Why there is no plan, in the order in which the faults are tried. Indices count from 0 (profile).
#[derive(Clone, Copy, Debug, PartialEq, Eq)]
pub enum PlanFault {
    /// The demand of this index is the first that names no host, no region or a shareable region, repeats an earlier
    /// pair of both, or names a dead host.
    BadDemand(u64),
    /// The member of this index is the first dead host that is none of the device, or that comes again.
    BadDead(u64),
    /// The lowest host with a held list among the dead and demanded ones, or with an unanswered offer among the demanded
    /// ones.
    Open(HostId),
    /// The lowest region where more blocks are to be gained than are free once all that is to be lost is lost and zeroed.
    Short {
        region: RegionId,
        need: u64,
        have: u64,
    },
    /// The act of this index in the list is the first that is refused, for this rule.
    Refused {
        index: u64,
        rule: Rule,
    },
    /// Memory was wanted and not to be had.
    NoMemory,
}

impl From<NoMemory> for PlanFault {
    ghost from_gives = { λ _ fault. fault ≡ OutOfMemory };

    fn from(_failure: NoMemory) -> PlanFault {
        PlanFault::NoMemory
    }
}
