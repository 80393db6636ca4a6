//! Why a call did not do what was asked, and the number that says so.

ghost use Rattle.dcd_c.specs.Statuses.{fault_status};
ghost use Rattle.std.specs.Prelude.{◌≡◌};

use cci_codec::MessageFault;
use dcd_base::AccessFault;
use script_codec::ScriptFault;

/// Why a call did not do what was asked.
#[derive(Clone, Copy, Debug, PartialEq, Eq)]
pub enum Fault {
    /// Memory was wanted and not to be had.
    NoMemory,
    /// The handle has no device.
    Closed,
    /// The handle has a device already.
    Opened,
    /// The bytes begin with no head of a script.
    Head(ScriptFault),
    /// The device has no such actor.
    NoActor,
    /// The bytes are no request.
    Message(MessageFault),
    /// What is answered has so many bytes or items, and there is room for fewer.
    NoRoom(u64),
    /// The load or the store is refused.
    Access(AccessFault),
    /// The size in the caller's struct is less than that of the struct.
    BadSize,
    /// There are not as many bases as hosts times regions.
    BadCount,
    /// Nothing has this number.
    NoName,
}

impl Fault {
    /// Its number in the header.
    pub(crate) fn status(&self) -> u32
        ensures { result ≡ fault_status self.now }
    {
        match self {
            Fault::NoMemory => 1,
            Fault::Closed => 2,
            Fault::Opened => 3,
            Fault::Head(_) => 4,
            Fault::NoActor => 5,
            Fault::Message(MessageFault::Short(_)) => 6,
            Fault::Message(MessageFault::NotRequest(_)) => 7,
            Fault::Message(MessageFault::LengthDiffers { .. }) => 8,
            Fault::Message(MessageFault::NoMemory) => 1,
            Fault::NoRoom(_) => 9,
            Fault::Access(AccessFault::Misaligned) => 10,
            Fault::Access(AccessFault::OutsideRegions) => 11,
            Fault::Access(AccessFault::NotGranted) => 12,
            Fault::BadSize => 13,
            Fault::BadCount => 14,
            Fault::NoName => 15,
        }
    }
}
