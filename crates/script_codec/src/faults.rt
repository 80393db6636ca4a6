//! Why bytes are no script.

ghost use Rattle.script_codec.specs.FaultNumbers.{fault_number, fault_place};
ghost use Rattle.script_codec.specs.Moving.{IsWithin, moved_fault};
ghost use Rattle.script_codec.specs.declared.faults.ScriptFault.TheVariants.{NoMemory as OutOfMemory};
ghost use Rattle.std.specs.Prelude.{◌≡◌, ◌≤◌};

use cci_codec::MessageFault;
use cci_codec::dcd_base::NoMemory;
use region_config::ConfigFault;
use std::alloc::AllocFailed;

/// Why bytes are no script. `TooLong` is tried first; then the fields are read in order, and the first fault is
/// answered. A place is the number of bytes before it.
#[derive(Clone, Copy, Debug, PartialEq, Eq)]
pub enum ScriptFault {
    /// The first four bytes are not `DCDS`. Its place is 0.
    BadMagic,
    /// The version is that number, neither 1 nor 2. Its place is 4.
    BadVersion(u16),
    /// The configuration is refused. Its place is 8. `Count` is answered before the regions are read, the other
    /// faults when all bases are read.
    BadConfig(ConfigFault),
    /// The field that comes next lacks bytes. The place is the number of bytes there are.
    Truncated(u64),
    /// The kind byte at the place is above 05h.
    UnknownKind(u64),
    /// The actor byte at the place names no actor and lane of that line.
    UnknownActor(u64),
    /// The message that begins at the place is no request.
    BadMessage { at: u64, fault: MessageFault },
    /// There are more than 16,777,216 bytes. Its place is 16777216.
    TooLong,
    /// At the place stands a byte behind the end word.
    AfterEnd(u64),
    /// Line 65,537 begins at the place.
    TooManyLines(u64),
    /// Version 2 says that number of lanes, 0 or above 4. Its place is 10.
    BadLanes(u8),
    /// Memory was wanted and not to be had.
    NoMemory,
}

impl ScriptFault {
    /// Its number, as it is printed where a script is refused.
    pub fn number(&self) -> u32
        ensures { result ≡ fault_number self.now }
    {
        match self {
            ScriptFault::BadMagic => 1,
            ScriptFault::BadVersion(_) => 2,
            ScriptFault::BadConfig(_) => 3,
            ScriptFault::Truncated(_) => 4,
            ScriptFault::UnknownKind(_) => 5,
            ScriptFault::UnknownActor(_) => 6,
            ScriptFault::BadMessage { .. } => 7,
            ScriptFault::TooLong => 8,
            ScriptFault::AfterEnd(_) => 9,
            ScriptFault::TooManyLines(_) => 10,
            ScriptFault::NoMemory => 11,
            ScriptFault::BadLanes(_) => 12,
        }
    }

    /// Its place: how many bytes of the script stand before it.
    pub fn place(&self) -> u64
        ensures { result ≡ fault_place self.now }
    {
        match self {
            ScriptFault::BadMagic | ScriptFault::NoMemory => 0,
            ScriptFault::BadVersion(_) => 4,
            ScriptFault::BadConfig(_) => 8,
            ScriptFault::Truncated(place)
            | ScriptFault::UnknownKind(place)
            | ScriptFault::UnknownActor(place)
            | ScriptFault::AfterEnd(place)
            | ScriptFault::TooManyLines(place) => *place,
            ScriptFault::BadMessage { at, .. } => *at,
            ScriptFault::TooLong => 16_777_216,
            ScriptFault::BadLanes(_) => 10,
        }
    }

    /// The same fault of bytes behind so many others, no more than a script may have.
    pub fn moved(self, before: u64) -> ScriptFault
        requires before { before ≤ 16777216 }
        requires within { IsWithin 16777216 self }
        ensures { result ≡ moved_fault before self }
    {
        match self {
            ScriptFault::Truncated(count) => ScriptFault::Truncated(before + count),
            ScriptFault::UnknownKind(at) => ScriptFault::UnknownKind(before + at),
            ScriptFault::UnknownActor(at) => ScriptFault::UnknownActor(before + at),
            ScriptFault::BadMessage { at, fault } => ScriptFault::BadMessage {
                at: before + at,
                fault,
            },
            ScriptFault::AfterEnd(at) => ScriptFault::AfterEnd(before + at),
            ScriptFault::TooManyLines(at) => ScriptFault::TooManyLines(before + at),
            _ => self,
        }
    }
}

impl From<NoMemory> for ScriptFault {
    ghost from_gives = { λ _ fault. fault ≡ OutOfMemory };

    fn from(_: NoMemory) -> ScriptFault {
        ScriptFault::NoMemory
    }
}

impl<T: Drop> From<AllocFailed<T>> for ScriptFault {
    ghost from_gives = { λ _ fault. fault ≡ OutOfMemory };

    fn from(_: AllocFailed<T>) -> ScriptFault {
        ScriptFault::NoMemory
    }
}
