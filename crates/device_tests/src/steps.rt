//! Steps of a device: a block that is offered and accepted, a scrub and accesses.

ghost use Rattle.std.specs.Prelude.{◌≡◌, IfOk};

use crate::seeing::see;
use cci_codec::{Payload, Request};
use dcd_base::{AccessFault, Actor, HostId, NoMemory};
use device_plain::Device;
use device_plain::kept_journal::copies;
use journal_core::{Act, Entry, Reply};
use region_config::{Config, RegionSpec};
use std::alloc::Global;
use std::process::Abort;
use std::test::Fail;

pub(crate) const MIB: u64 = 0x10_0000;

pub(crate) const HOST: HostId = HostId(0);

/// One region of 16 MiB with blocks of 1 MiB that sanitizes.
pub(crate) const REGION: RegionSpec = RegionSpec {
    decode_units: 1,
    length: 16 * MIB,
    block: MIB,
    sizes: MIB,
    handle: 7,
    sanitize: true,
    shareable: false,
};

/// Initiate Dynamic Capacity Add (5604h), Prescriptive: the block at 2 MiB is offered to host 0.
pub(crate) const OFFER: [u8; 72] = [
    0, 0, 2, 0, 0, 0, 0x10, 0, 0, 0, 0, 0, // host 0, policy 2, region 0, 1 MiB
    0, 0, 0, 0, 0, 0, 0, 0, 0, 0, 0, 0, 0, 0, 0, 0, // no tag
    1, 0, 0, 0, // one extent
    0, 0, 0x20, 0, 0, 0, 0, 0, 0, 0, 0x10, 0, 0, 0, 0, 0, // 1 MiB at 2 MiB
    0, 0, 0, 0, 0, 0, 0, 0, 0, 0, 0, 0, 0, 0, 0, 0, 0, 0, 0, 0, 0, 0, 0, 0,
];

/// Add Dynamic Capacity Response (4802h): the host accepts it.
pub(crate) const RESPONSE: [u8; 32] = [
    1, 0, 0, 0, 0, 0, 0, 0, // one extent, and no more
    0, 0, 0x20, 0, 0, 0, 0, 0, 0, 0, 0x10, 0, 0, 0, 0, 0, // 1 MiB at 2 MiB
    0, 0, 0, 0, 0, 0, 0, 0,
];

/// A device of one host.
fn device(alloc: Global) -> Result<Device, Fail>
    ensures { IfOk result (λ device. device.config.hosts ≡ 1) }
{
    Ok(Device::new(alloc, Config::new(alloc, 1, &[REGION], &[0])?)?)
}

/// What a step replies: a response of success, the word 0, a refusal for want of a grant, or another reply.
#[derive(Clone, Copy, Debug, PartialEq, Eq)]
pub(crate) enum Told {
    Success,
    Zero,
    NotGranted,
    Other,
}

pub(crate) fn kind_of(reply: &Reply) -> Told {
    match reply {
        Reply::Answer(response) => if response.code == 0 {
            Told::Success
        } else {
            Told::Other
        },
        Reply::Word(0) => Told::Zero,
        Reply::Refused(AccessFault::NotGranted) => Told::NotGranted,
        _ => Told::Other,
    }
}

/// A step of the device of pass 4, whose journal has the line and what the step replied.
fn step(device: &mut Device, line: u32, actor: Actor, act: Act) -> Result<Told, Fail>
    requires { device.old.config.hosts ≡ 1 }
    ensures { device.new.config ≡ device.old.config }
{
    if !journal_core::fits(1, &actor, &act) {
        return Err("the actor may not do the act".into());
    }
    Ok(kind_of(&device.step(4, line, actor, &act)?))
}

/// A command with this payload.
pub(crate) fn command(alloc: Global, opcode: u16, payload: &[u8]) -> Result<Act, Fail> {
    Ok(Act::Command(Request {
        tag: 1,
        opcode,
        payload: Payload::from_slice(alloc, payload)?,
    }))
}

/// The block is offered and accepted, zero granules are scrubbed, a word of it is loaded, and one beside it stored.
fn five_steps(alloc: Global, device: &mut Device) -> Result<[Told; 4], Fail>
    requires { device.old.config.hosts ≡ 1 }
    ensures { device.new.config ≡ device.old.config }
{
    let host = Actor::Host(HOST);
    let offered = step(device, 1, Actor::Manager, command(alloc, 0x5604, &OFFER)?)?;
    let accepted = step(device, 2, host, command(alloc, 0x4802, &RESPONSE)?)?;
    device.enter(4, 3, Actor::Sanitizer, Act::Scrub(2))?;
    let loaded = step(device, 4, host, Act::Load(2 * MIB))?;
    let stored = step(device, 5, host, Act::Store(8, 7))?;
    Ok([offered, accepted, loaded, stored])
}

/// The lines of five entries, and the number and the count of each one's stamp.
static STAMPS: [(u32, u64, u64); 5] = [(1, 1, 0), (2, 2, 0), (3, 3, 0), (4, 3, 1), (5, 3, 2)];

/// Sees that the entries of pass 4 have these lines and stamps.
fn see_stamps(rt: &impl Abort, journal: &[Entry]) {
    see(rt, &journal.len(), &STAMPS.len());
    for (entry, (line, number, count)) in journal.iter().zip(&STAMPS) {
        let stamp = (entry.stamp.number, entry.stamp.count);
        let found = (entry.pass, entry.line, stamp);
        see(rt, &found, &(4, *line, (*number, *count)));
    }
}

/// Sees the stamps of the device's journal, and how many entries are of commands and scrubs.
fn see_journal(rt: &impl Abort, alloc: Global, device: &Device) -> Result<(), NoMemory> {
    see_stamps(rt, copies(alloc, &mut device.journal())?.as_slice());
    see(rt, &device.control().entries().len(), &3);
    Ok(())
}

/// Sees the five steps and their entries.
fn see_steps(rt: &impl Abort, alloc: Global, device: &mut Device) -> Result<(), Fail>
    requires { device.old.config.hosts ≡ 1 }
{
    let told = five_steps(alloc, device)?;
    let expected = [Told::Success, Told::Success, Told::Zero, Told::NotGranted];
    see(rt, &told, &expected);
    see_journal(rt, alloc, device)?;
    Ok(())
}

#[test]
fn steps_are_entered_with_their_stamps(rt: HostRuntime) -> Result<(), Fail> {
    let mut device = device(rt.alloc())?;
    see_steps(&rt, rt.alloc(), &mut device)
}
