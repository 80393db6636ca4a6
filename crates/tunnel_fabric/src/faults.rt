//! Why bytes are no fabric.

ghost use Rattle.tunnel_fabric.specs.FabricFaults.{fabric_fault};
ghost use Rattle.tunnel_fabric.specs.declared.faults.FabricFault.TheVariants.{NoMemory as OutOfMemory};
ghost use Rattle.std.specs.Prelude.{◌≡◌};

use cci_codec::MessageFault;
use dcd_base::NoMemory;
use report::script_codec::ScriptFault;

/// Why bytes are no fabric. `TooLong` is tried first; then the fields are read in order, and the first fault is
/// answered. A place is the number of bytes before it.
#[derive(Clone, Copy, Debug, PartialEq, Eq)]
pub enum FabricFault {
    /// The first four bytes are not `DCDF`. Its place is 0.
    BadMagic,
    /// The version is that number, and not 1. Its place is 4.
    BadVersion(u16),
    /// That many devices are told, none or more than 8. Its place is 6.
    BadCount(u8),
    /// The field that comes next lacks bytes. The place is the number of bytes there are.
    Truncated(u64),
    /// The script of a device, which begins at the place, is refused. The places of its own fault are counted from there.
    BadScript { at: u64, fault: ScriptFault },
    /// The script of a device, which begins at the place, is of version 2, or has a line.
    HasLines(u64),
    /// The kind byte at the place names no line: the outer one is above 02h, or the inner one is not 01h to 04h.
    UnknownKind(u64),
    /// The byte at the place names no device, or no host of that device.
    UnknownTarget(u64),
    /// The message that begins at the place is no request.
    BadMessage { at: u64, fault: MessageFault },
    /// At the place stands a byte behind the end word.
    AfterEnd(u64),
    /// There are more than 16,777,216 bytes. Its place is 16777216.
    TooLong,
    /// Line 65,537 begins at the place.
    TooManyLines(u64),
    /// Memory was wanted and not to be had.
    NoMemory,
}

impl From<NoMemory> for FabricFault {
    ghost from_gives = { λ _ fault. fault ≡ OutOfMemory };

    fn from(_: NoMemory) -> FabricFault {
        FabricFault::NoMemory
    }
}

impl From<ScriptFault> for FabricFault {
    ghost from_gives = { λ told fault. fault ≡ fabric_fault told };

    /// The same fault of what is read as in a script.
    fn from(told: ScriptFault) -> FabricFault {
        match told {
            ScriptFault::BadMagic => FabricFault::BadMagic,
            ScriptFault::BadVersion(version) => FabricFault::BadVersion(version),
            ScriptFault::BadConfig(_) => FabricFault::BadScript { at: 0, fault: told },
            ScriptFault::Truncated(count) => FabricFault::Truncated(count),
            ScriptFault::UnknownKind(at) => FabricFault::UnknownKind(at),
            ScriptFault::UnknownActor(at) => FabricFault::UnknownTarget(at),
            ScriptFault::BadMessage { at, fault } => FabricFault::BadMessage { at, fault },
            ScriptFault::TooLong => FabricFault::TooLong,
            ScriptFault::AfterEnd(at) => FabricFault::AfterEnd(at),
            ScriptFault::TooManyLines(at) => FabricFault::TooManyLines(at),
            ScriptFault::BadLanes(_) => FabricFault::BadScript { at: 0, fault: told },
            ScriptFault::NoMemory => FabricFault::NoMemory,
        }
    }
}
