//! Why bytes state no demands.

ghost use Rattle.plan_rules.specs.declared.demand_faults.DemandFault.TheVariants.{NoMemory as OutOfMemory};
ghost use Rattle.std.specs.Prelude.{◌≡◌};

use dcd_base::NoMemory;

/// Why bytes state no demands.
#[derive(Clone, Copy, Debug, PartialEq, Eq)]
pub enum DemandFault {
    /// They are no UTF-8, or no JSON text that has a value.
    NotJson,
    /// The value has not the shape of demands.
    BadShape,
    /// Memory was wanted and not to be had.
    NoMemory,
}

impl From<NoMemory> for DemandFault {
    ghost from_gives = { λ _ fault. fault ≡ OutOfMemory };

    fn from(_failure: NoMemory) -> DemandFault {
        DemandFault::NoMemory
    }
}
