//! Loads and stores of hosts, and turns of the sanitizer.

ghost use Rattle.dcd_c.specs.Calls.{AnswersLoad, AnswersStore, AnswersTurn, CallsDevice};

use crate::faults::Fault;
use crate::handles::{Handle, put_in, take_out};
use crate::sessions::Session;
use dcd_base::{Actor, HostId, NoMemory};
use journal_core::{Act, Reply};
use std::alloc::Global;

/// Lets the host load the word at the address.
fn load(session: &mut Session, host: u8, dpa: u64) -> Result<u64, Fault>
    ensures { AnswersLoad host dpa session.old session.new result }
{
    if host >= session.device.first_config().hosts() {
        session.rest();
        return Err(Fault::NoActor);
    }
    match session.step(Actor::Host(HostId(host)), &Act::Load(dpa)) {
        Ok(Reply::Word(word)) => Ok(word),
        Ok(Reply::Refused(fault)) => Err(Fault::Access(fault)),
        Ok(_) => unreachable!(),
        Err(NoMemory) => Err(Fault::NoMemory),
    }
}

/// Lets the host store the word at the address.
fn store(session: &mut Session, host: u8, dpa: u64, value: u64) -> Result<(), Fault>
    ensures { AnswersStore host dpa value session.old session.new result }
{
    if host >= session.device.first_config().hosts() {
        session.rest();
        return Err(Fault::NoActor);
    }
    match session.step(Actor::Host(HostId(host)), &Act::Store(dpa, value)) {
        Ok(Reply::Stored) => Ok(()),
        Ok(Reply::Refused(fault)) => Err(Fault::Access(fault)),
        Ok(_) => unreachable!(),
        Err(NoMemory) => Err(Fault::NoMemory),
    }
}

/// Lets the sanitizer zero at most so many granules.
fn scrub(session: &mut Session, most: u16) -> Result<u64, Fault>
    ensures { AnswersTurn most session.old session.new result }
{
    match session.step(Actor::Sanitizer, &Act::Scrub(most)) {
        Ok(Reply::Scrubbed(count)) => Ok(u64::from(count)),
        Ok(_) => unreachable!(),
        Err(NoMemory) => Err(Fault::NoMemory),
    }
}

/// A load on the device of the handle.
pub(crate) fn loaded(handle: &mut Handle, alloc: Global, host: u8, dpa: u64) -> Result<u64, Fault>
    ensures { CallsDevice (AnswersLoad host dpa) handle.old.place.device handle.new.place.device result }
{
    if !handle.is_open() {
        return Err(Fault::Closed);
    }
    let mut session = take_out(handle, alloc);
    let outcome = load(&mut session, host, dpa);
    put_in(handle, session);
    outcome
}

/// A store on the device of the handle.
pub(crate) fn stored(
    handle: &mut Handle,
    alloc: Global,
    host: u8,
    dpa: u64,
    value: u64,
) -> Result<(), Fault>
    ensures { CallsDevice (AnswersStore host dpa value) handle.old.place.device handle.new.place.device result }
{
    if !handle.is_open() {
        return Err(Fault::Closed);
    }
    let mut session = take_out(handle, alloc);
    let outcome = store(&mut session, host, dpa, value);
    put_in(handle, session);
    outcome
}

/// A turn of the sanitizer on the device of the handle.
pub(crate) fn scrubbed(handle: &mut Handle, alloc: Global, most: u16) -> Result<u64, Fault>
    ensures { CallsDevice (AnswersTurn most) handle.old.place.device handle.new.place.device result }
{
    if !handle.is_open() {
        return Err(Fault::Closed);
    }
    let mut session = take_out(handle, alloc);
    let outcome = scrub(&mut session, most);
    put_in(handle, session);
    outcome
}
