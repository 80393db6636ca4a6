//! Messages to the tunnel.

ghost use Rattle.std.specs.Prelude.{◌≤◌, IfOk};
ghost use Rattle.tunnel_fabric.specs.Stepping.{IsOpened};

use crate::rules::TunnelRule;
use cci_codec::{MessageFault, Request, decode};
use dcd_base::{NoMemory, u16_at};
use std::alloc::Global;

/// What a message to the tunnel comes to.
#[derive(Debug, Drop)]
pub(crate) enum Opened {
    /// It reaches the device of this number, as this command.
    Reaches(u8, Request),
    /// It breaks this rule.
    Breaks(TunnelRule),
}

/// What the message comes to, where there are so many devices.
pub(crate) fn open(alloc: Global, devices: u8, outer: &Request) -> Result<Opened, NoMemory>
    ensures { IfOk result (IsOpened devices outer.now) }
{
    if outer.opcode != 0x5300 {
        return Ok(Opened::Breaks(TunnelRule::NotTunnel(outer.opcode)));
    }
    let payload = outer.payload.as_slice();
    if payload.len() < 4 {
        return Ok(Opened::Breaks(TunnelRule::TunnelLength {
            need: 4,
            have: payload.len() as u64,
        }));
    }
    let number = u16_at(payload, 0);
    if number >= u16::from(devices) {
        return Ok(Opened::Breaks(TunnelRule::NoSuchDevice(number)));
    }
    let (_, inner) = payload.split_at(4);
    match decode(alloc, inner) {
        Ok(request) => Ok(Opened::Reaches(number as u8, request)),
        Err(MessageFault::NoMemory) => Err(NoMemory),
        Err(fault) => Ok(Opened::Breaks(TunnelRule::BadInner(fault))),
    }
}
