//! Messages of hosts and of the Fabric Manager.

ghost use Rattle.dcd_c.specs.Calls.{SendsMessage, SendsTo};
ghost use Rattle.dcd_c.specs.Sending.{Commands, IsMessageRead};
ghost use Rattle.journal_core.specs.Entries.{fits};
ghost use Rattle.journal_core.specs.declared.acts.Act.{Act};
ghost use Rattle.std.specs.Prelude.{◌+◌, ◌<◌, ◌≤◌, IsTrue, ℕ};

use crate::actors::actor_of;
use crate::faults::Fault;
use crate::handles::{Handle, put_in, take_out};
use crate::responses::put_response;
use crate::sessions::Session;
use cci_codec::{MessageFault, Request, Response, decode};
use dcd_base::Actor;
use device_plain::StepFault;
use journal_core::{Act, Reply};
use std::alloc::Global;

/// How many bytes the header of a message has.
const HEADER: usize = 12;

/// How many bytes the payload of a response has at most.
const MOST_PAYLOAD: usize = 2_048;

/// How many bytes the payload of a response may have in so much room.
fn most_payload(room: usize) -> usize
    requires { 12 ≤ room }
    ensures within { 12 + result ≤ room }
    ensures short { result ≤ 2048 }
    ensures most { (n : ℕ) → result < n → n ≤ 2048 → room < 12 + n }
{
    if room < HEADER + MOST_PAYLOAD {
        room - HEADER
    } else {
        MOST_PAYLOAD
    }
}

/// The request that the bytes are.
pub(crate) fn request_of(alloc: Global, message: &[u8]) -> Result<Request, Fault>
    ensures { IsMessageRead message.now result }
{
    match decode(alloc, message) {
        Ok(request) => Ok(request),
        Err(MessageFault::NoMemory) => Err(Fault::NoMemory),
        Err(fault) => Err(Fault::Message(fault)),
    }
}

/// Lets the device take the command, where its response has at most so many bytes.
fn command(
    session: &mut Session,
    actor: Actor,
    request: Request,
    room: usize,
) -> Result<Response, Fault>
    requires { IsTrue (fits session.old.device.config.hosts actor (Act.Command request)) }
    ensures { Commands actor request room session.old session.new result }
{
    if room < HEADER {
        session.rest();
        return Err(Fault::NoRoom(HEADER as u64));
    }
    let most = most_payload(room);
    match session.step_within(actor, &Act::Command(request), most) {
        Ok(Reply::Answer(response)) => Ok(response),
        Ok(_) => unreachable!(),
        Err(StepFault::NoMemory) => Err(Fault::NoMemory),
        Err(StepFault::TooLong(length)) => Err(Fault::NoRoom((HEADER + length) as u64)),
    }
}

/// Sends a message of the actor to the device, and puts the response into the room.
fn answered(
    session: &mut Session,
    alloc: Global,
    number: u8,
    message: &[u8],
    room: &mut [u8],
) -> Result<u64, Fault>
    ensures { SendsMessage number message.now room.old room.new session.old session.new result }
{
    match actor_of(session.device.first_config().hosts(), number) {
        None => {
            session.rest();
            Err(Fault::NoActor)
        }
        Some(actor) => match request_of(alloc, message) {
            Err(fault) => {
                session.rest();
                Err(fault)
            }
            Ok(request) => match command(session, actor, request, room.len()) {
                Err(fault) => Err(fault),
                Ok(response) => Ok(put_response(&response, room)),
            },
        },
    }
}

/// The same with the device of the handle.
pub(crate) fn sent(
    handle: &mut Handle,
    alloc: Global,
    number: u8,
    message: &[u8],
    room: &mut [u8],
) -> Result<u64, Fault>
    ensures { SendsTo number message.now room.old room.new handle.old.place.device handle.new.place.device result }
{
    if !handle.is_open() {
        return Err(Fault::Closed);
    }
    let mut session = take_out(handle, alloc);
    let outcome = answered(&mut session, alloc, number, message, room);
    put_in(handle, session);
    outcome
}
