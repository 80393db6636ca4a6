//! A request as the act of who asks it.

ghost use Rattle.fm_payloads.specs.ManagerPayloads.{ManagerCountsFit, manager_opcode};
ghost use Rattle.host_payloads.specs.HostPayloads.{HostCountsFit, host_opcode, lists_untagged};
ghost use Rattle.plan_rules.specs.Listing.{by_host as host_message, by_manager as manager_message};
ghost use Rattle.std.specs.Prelude.{◌≡◌, IfOk, IsTrue};

use cci_codec::{Payload, Request};
use dcd_base::{Actor, Bytes, HostId, NoMemory};
use fm_payloads::FmRequest;
use host_payloads::HostRequest;
use journal_core::Act;
use std::alloc::Global;

/// An actor and what it does.
pub type PlanStep = (Actor, Act);

/// A host's request as a message of this opcode, which is its own.
pub(crate) fn by_host(
    alloc: Global,
    host: HostId,
    opcode: u16,
    request: &HostRequest,
) -> Result<PlanStep, NoMemory>
    requires opcode { opcode ≡ host_opcode request.now }
    requires counts { HostCountsFit request.now }
    requires untagged { IsTrue (lists_untagged request.now) }
    ensures { IfOk result (λ step. step ≡ host_message host request.now) }
{
    let mut payload = Bytes::new(alloc);
    host_payloads::encode(request, &mut payload)?;
    let message = message(alloc, opcode, &payload)?;
    Ok((Actor::Host(host), message))
}

/// A request of the manager as a message of this opcode, which is its own.
pub(crate) fn by_manager(
    alloc: Global,
    opcode: u16,
    request: &FmRequest,
) -> Result<PlanStep, NoMemory>
    requires opcode { opcode ≡ manager_opcode request.now }
    requires counts { ManagerCountsFit request.now }
    ensures { IfOk result (λ step. step ≡ manager_message request.now) }
{
    let mut payload = Bytes::new(alloc);
    fm_payloads::encode(request, &mut payload)?;
    let message = message(alloc, opcode, &payload)?;
    Ok((Actor::Manager, message))
}

/// The command of this opcode and payload, with the message tag 0.
fn message(alloc: Global, opcode: u16, payload: &Bytes) -> Result<Act, NoMemory>
    ensures { IfOk result (λ act. act ≡ Act.Command (record { tag = 0; opcode = opcode; payload = payload.now })) }
{
    let payload = Payload::from_slice(alloc, payload.as_slice())?;
    Ok(Act::Command(Request {
        tag: 0,
        opcode,
        payload,
    }))
}
