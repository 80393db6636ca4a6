//! Why a command is refused.

use crate::rules::Rule;
use dcd_base::NoMemory;

/// Why a command is refused.
#[derive(Clone, Copy, Debug, PartialEq, Eq)]
pub enum Refusal {
    /// The first broken rule.
    Broken(Rule),
    /// Memory was wanted and not to be had; the device is as it was.
    NoMemory,
}

impl From<NoMemory> for Refusal {
    ghost use Rattle.std.specs.Prelude.{◌≡◌};
    ghost use Rattle.dcd_codes.specs.declared.refusals.Refusal.TheVariants.{NoMemory as OutOfMemory};

    ghost from_gives = { λ _ e. e ≡ OutOfMemory };

    fn from(_: NoMemory) -> Refusal {
        Refusal::NoMemory
    }
}
