//! Responses in the caller's room.

ghost use Rattle.cci_codec.specs.Messages.{response_bytes};
ghost use Rattle.std.specs.Prelude.{◌≡◌, ◌+◌, ◌++◌, ◌≤◌, drop, length};

use cci_codec::{Response, response_head};
use dcd_base::put_bytes;

/// Puts the response at the start of the room, and answers how many bytes it has.
pub(crate) fn put_response(response: &Response, room: &mut [u8]) -> u64
    requires short { length response.now.payload ≤ 2048 }
    requires within { 12 + length response.now.payload ≤ length room.old }
    ensures count { result ≡ length (response_bytes response.now) }
    ensures most { result ≤ 2060 }
    ensures bytes { room.new ≡ response_bytes response.now ++ drop result room.old }
{
    let payload = response.payload.as_slice();
    let head = response_head(
        response.tag,
        response.opcode,
        response.code,
        payload.len() as u32,
    );
    put_bytes(room, 0, head.as_slice());
    put_bytes(room, 12, payload);
    12 + payload.len() as u64
}
