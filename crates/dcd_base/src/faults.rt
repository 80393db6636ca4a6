//! Why a payload is refused.

use crate::failures::NoMemory;

/// Why a payload is no request, in the order in which the faults are tried.
#[derive(Clone, Copy, Debug, PartialEq, Eq)]
pub enum PayloadFault {
    /// The opcode is none of those that are read here.
    UnknownOpcode(u16),
    /// The payload has `have` bytes, and its command needs `need`. Where fewer bytes stand than the fixed part
    /// of the payload, `need` is the length of that part.
    WrongLength { need: u64, have: u64 },
    /// There was no memory for the request.
    NoMemory,
}

impl From<NoMemory> for PayloadFault {
    ghost use Rattle.std.specs.Prelude.{◌≡◌};
    ghost use Rattle.dcd_base.specs.declared.faults.PayloadFault.TheVariants.{NoMemory as OutOfMemory};

    ghost from_gives = { λ _ fault. fault ≡ OutOfMemory };

    fn from(_error: NoMemory) -> PayloadFault {
        PayloadFault::NoMemory
    }
}
