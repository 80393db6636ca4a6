//! Replies to messages to the tunnel, in bytes.

ghost use Rattle.cci_codec.specs.Messages.{response_bytes};
ghost use Rattle.dcd_base.specs.Layouts.{spelling};
ghost use Rattle.std.specs.Prelude.{◌≡◌, ◌+◌, ◌++◌, ◌<◌, ◌≤◌, ◌^◌, IfOk, OnOk, length};
ghost use Rattle.tunnel_fabric.specs.Tunnels.{target_of, tunnel_wrapped, wrapped_fields};

use cci_codec::{Request, Response, response_head};
use dcd_base::{Bytes, NoMemory};
use std::alloc::Global;

/// Appends a response.
pub(crate) fn write_response(response: &Response, out: &mut Bytes) -> Result<(), NoMemory>
    requires { length response.now.payload < 2 ^ 21 }
    ensures { OnOk result (out.new ≡ out.old ++ response_bytes response.now) }
{
    let payload = response.payload.as_slice();
    let head = response_head(
        response.tag,
        response.opcode,
        response.code,
        payload.len() as u32,
    );
    out.extend_from_slice(head.as_slice())?;
    out.extend_from_slice(payload)
}

/// The payload around a device's response: the device's number, and the whole response.
fn wrapped_payload(alloc: Global, device: u8, inner: &Response) -> Result<Bytes, NoMemory>
    requires { length inner.now.payload ≤ 2048 }
    ensures { IfOk result (λ payload. payload ≡ spelling (wrapped_fields device inner.now)) }
{
    let mut payload = Bytes::with_capacity(alloc, 16 + inner.payload.len())?;
    payload.extend_from_slice([device, 0, 0, 0].as_slice())?;
    write_response(inner, &mut payload)?;
    Ok(payload)
}

/// The reply to a message that reached a device, around the device's own.
pub(crate) fn wrap(
    alloc: Global,
    outer: &Request,
    device: u8,
    inner: &Response,
) -> Result<Response, NoMemory>
    requires device { device ≡ target_of outer.now }
    requires short { length inner.now.payload ≤ 2048 }
    ensures { IfOk result (λ response. response ≡ tunnel_wrapped outer.now inner.now) }
{
    Ok(Response {
        tag: outer.tag,
        opcode: outer.opcode,
        code: 0,
        payload: wrapped_payload(alloc, device, inner)?,
    })
}
