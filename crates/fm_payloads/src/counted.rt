//! How long a payload has to be.

ghost use Rattle.fm_payloads.specs.ManagerPayloads.{placed_length};
ghost use Rattle.std.specs.Prelude.{◌≡◌, ◌+◌, ◌*◌};

use dcd_base::u32_at;

/// The length of a payload that places extents: 32 bytes and 40 for each extent of its count.
pub fn placed_length(payload: &[u8]) -> u64
    ensures { result ≡ placed_length payload.now }
{
    if payload.len() < 32 {
        32
    } else {
        32 + 40 * u64::from(u32_at(payload, 28))
    }
}
