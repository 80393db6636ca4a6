//! Why a step was not taken.

use dcd_base::NoMemory;

/// Why a step was not taken. The device is as it was.
#[derive(Clone, Copy, Debug, PartialEq, Eq)]
pub enum StepFault {
    /// The payload of the response has so many bytes, more than there is room for: 2,048 at most.
    TooLong(usize),
    /// Memory was wanted and not to be had.
    NoMemory,
}

impl From<NoMemory> for StepFault {
    ghost use Rattle.device_plain.specs.declared.faults.StepFault.TheVariants.{NoMemory as OutOfMemory};
    ghost use Rattle.std.specs.Prelude.{◌≡◌};

    ghost from_gives = { λ _ fault. fault ≡ OutOfMemory };

    fn from(_: NoMemory) -> StepFault {
        StepFault::NoMemory
    }
}
