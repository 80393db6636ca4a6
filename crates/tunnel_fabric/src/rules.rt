//! The rules of the tunnel.

ghost use Rattle.std.specs.Prelude.{◌≡◌};
ghost use Rattle.tunnel_fabric.specs.Tunnels.{tunnel_code as code_in_response, tunnel_refused};

use cci_codec::{MessageFault, Request, Response};
use dcd_base::Bytes;
use dcd_codes::{Code, number_of};
use std::alloc::Global;

/// A rule that a message to the tunnel breaks, with the values that say how (profile).
///
/// A message that breaks several is refused for the first in this order. It reaches no device.
#[derive(Clone, Copy, Debug, PartialEq, Eq)]
pub enum TunnelRule {
    /// The opcode is that one, and not 5300h.
    NotTunnel(u16),
    /// The payload has fewer than 4 bytes.
    TunnelLength { need: u64, have: u64 },
    /// The device's number is at or past the number of devices.
    NoSuchDevice(u16),
    /// What stands behind the first 4 bytes of the payload is no request.
    BadInner(MessageFault),
}

/// The return code of the response to a message that breaks the rule.
pub fn tunnel_code(rule: &TunnelRule) -> Code
    ensures { result ≡ code_in_response rule.now }
{
    match rule {
        TunnelRule::NotTunnel(_) => Code::Unsupported,
        TunnelRule::TunnelLength { .. } => Code::InvalidPayloadLength,
        TunnelRule::NoSuchDevice(_) => Code::InvalidInput,
        TunnelRule::BadInner(_) => Code::InvalidInput,
    }
}

/// The reply to a message that breaks a rule.
pub(crate) fn refused(alloc: Global, outer: &Request, rule: &TunnelRule) -> Response
    ensures { result ≡ tunnel_refused outer.now rule.now }
{
    Response {
        tag: outer.tag,
        opcode: outer.opcode,
        code: number_of(tunnel_code(rule)),
        payload: Bytes::new(alloc),
    }
}
