//! Why a driver gives no request or takes no reply.

ghost use Rattle.host_driver.specs.declared.faults.DriverFault.TheVariants.{NoMemory as OutOfMemory};
ghost use Rattle.std.specs.Prelude.{◌≡◌};

use dcd_base::NoMemory;
use event_records::RecordFault;

/// Why a driver gives no request or takes no reply. Nothing has changed then.
#[derive(Clone, Copy, Debug, PartialEq, Eq)]
pub enum DriverFault {
    /// A request of this opcode has had no reply.
    Outstanding(u16),
    /// No request is out.
    NoRequest,
    /// The reply is to the opcode `have`, and the request that is out has the opcode `want`.
    OtherOpcode { want: u16, have: u16 },
    /// The device refused, with this return code, what it never refuses to a driver: 0100h, 0101h or 4802h.
    Refused { opcode: u16, code: u16 },
    /// A page of event records has `have` bytes, and its count needs `need`; 32 are needed for the count itself.
    WrongLength { need: u64, have: u64 },
    /// The record of this index in its page, from 0, is the first that is none.
    BadRecord { index: u32, fault: RecordFault },
    /// Memory was wanted and not to be had.
    NoMemory,
}

impl From<NoMemory> for DriverFault {
    ghost from_gives = { λ _ e. e ≡ OutOfMemory };

    fn from(_failure: NoMemory) -> DriverFault {
        DriverFault::NoMemory
    }
}
