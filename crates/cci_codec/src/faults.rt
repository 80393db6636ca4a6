//! Why bytes are no request.

use dcd_base::NoMemory;

/// Why bytes are no request. The first three are tried in this order, and the first that is met is answered.
#[derive(Clone, Copy, Debug, PartialEq, Eq)]
pub enum MessageFault {
    /// Fewer than the 12 bytes of a header; the value is how many bytes there are.
    Short(u64),
    /// The message category, bits 3:0 of byte 0, is that value and not 0, a request.
    NotRequest(u8),
    /// The header's payload length is `field`, and `rest` bytes stand behind the header.
    LengthDiffers {
        /// The payload length of the header, below 2,097,152.
        field: u32,
        /// How many bytes stand behind the header.
        rest: u64,
    },
    /// The bytes are a request, and there is no memory for its payload.
    NoMemory,
}

impl From<NoMemory> for MessageFault {
    ghost use Rattle.cci_codec.specs.declared.faults.MessageFault.TheVariants.{NoMemory as OutOfMemory};
    ghost use Rattle.std.specs.Prelude.{◌≡◌};

    ghost from_gives = { λ _ fault. fault ≡ OutOfMemory };

    fn from(_: NoMemory) -> MessageFault {
        MessageFault::NoMemory
    }
}
