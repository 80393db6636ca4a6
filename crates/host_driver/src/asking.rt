//! The requests of a driver.

ghost use Rattle.host_driver.specs.Driving.{asked_by, bare, given_by, gives, driver_message, most_handles, taken_by};
ghost use Rattle.host_driver.specs.Keeping.{kept_in};
ghost use Rattle.host_payloads.specs.HostPayloads.{HostCountsFit, host_opcode, lists_untagged};
ghost use Rattle.std.specs.Prelude.{◌≡◌, ◌≤◌, IfOk, IsTrue, length, map, take, ℕ};

use crate::due::Due;
use crate::kept::Kept;
use crate::tables::listed;
use cci_codec::{Payload, Request};
use dcd_base::{Bytes, Extents, Handles, NoMemory, ShortList};
use host_payloads::{HostRequest, encode};
use std::alloc::Global;

/// The log of Dynamic Capacity events.
const LOG: u8 = 4;

/// How many handles one Clear Event Records has at most.
const MOST_HANDLES: usize = 255;

/// A request as a message of this opcode, which is its own.
fn driver_message(alloc: Global, opcode: u16, request: &HostRequest) -> Result<Request, NoMemory>
    requires opcode { opcode ≡ host_opcode request.now }
    requires counts { HostCountsFit request.now }
    requires untagged { IsTrue (lists_untagged request.now) }
    ensures { IfOk result (λ q. q ≡ driver_message request.now) }
{
    let mut payload = Bytes::new(alloc);
    encode(request, &mut payload)?;
    Ok(Request {
        tag: 0,
        opcode,
        payload: Payload::from_slice(alloc, payload.as_slice())?,
    })
}

/// The first handles of a page, as many as one request has.
fn first_handles(alloc: Global, handles: &Handles) -> Result<ShortList<u16>, NoMemory>
    ensures { IfOk result (λ first. first ≡ take most_handles handles.now) }
{
    let (front, _) = handles.as_slice().split_at(MOST_HANDLES.min(handles.len()));
    ShortList::of_slice(alloc, front)
}

impl Kept {
    /// The opcode of the request that is due.
    pub(crate) fn opcode(&self) -> u16
        ensures { (most : ℕ) → result ≡ (gives most (kept_in self.now)).opcode }
    {
        match self.due {
            Due::Page => 0x0100,
            Due::Clear => 0x0101,
            Due::Response => 0x4802,
            Due::Release => 0x4803,
        }
    }

    /// The extents that it takes of an offer, without tags and sequences.
    fn taken(&self, alloc: Global, most: u64) -> Result<Extents, NoMemory>
        ensures listed { IfOk result (λ list. list ≡ map bare (taken_by most (kept_in self.now))) }
        ensures few { IfOk result (λ list. length list ≤ 64) }
    {
        if self.can_take(most) {
            listed(alloc, self.offered.as_slice())
        } else {
            Ok(Extents::new(alloc))
        }
    }

    /// The extents that it gives back, without tags and sequences.
    fn given(&self, alloc: Global) -> Result<Extents, NoMemory>
        ensures listed { IfOk result (λ list. list ≡ map bare (given_by (kept_in self.now))) }
        ensures few { IfOk result (λ list. length list ≤ 64) }
    {
        if self.can_give() {
            listed(alloc, self.asked.as_slice())
        } else {
            Ok(Extents::new(alloc))
        }
    }

    /// The request that is due.
    fn asked(&self, alloc: Global, most: u64) -> Result<HostRequest, NoMemory>
        ensures asked { IfOk result (λ q. q ≡ asked_by most (kept_in self.now) self.now.due) }
        ensures counts { IfOk result (λ q. HostCountsFit q) }
        ensures untagged { IfOk result (λ q. IsTrue (lists_untagged q)) }
    {
        match self.due {
            Due::Page => Ok(HostRequest::GetEvents { log: LOG }),
            Due::Clear => Ok(HostRequest::ClearEvents {
                log: LOG,
                all: false,
                handles: first_handles(alloc, &self.handles)?,
            }),
            Due::Response => Ok(HostRequest::AddResponse {
                more: false,
                extents: self.taken(alloc, most)?,
            }),
            Due::Release => Ok(HostRequest::GiveBack {
                more: false,
                extents: self.given(alloc)?,
            }),
        }
    }

    /// The request that is due, as a message.
    pub(crate) fn request(&self, alloc: Global, most: u64) -> Result<Request, NoMemory>
        ensures { IfOk result (λ q. q ≡ gives most (kept_in self.now)) }
    {
        let asked = self.asked(alloc, most)?;
        driver_message(alloc, self.opcode(), &asked)
    }
}
