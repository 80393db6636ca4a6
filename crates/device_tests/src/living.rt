//! Steps of a device without a journal: a block that is offered, accepted, stored into and given back, and a reply that
//! is longer than the caller's buffer.

ghost use Rattle.std.specs.Prelude.{◌≡◌, IfOk};

use crate::seeing::see;
use crate::steps::{HOST, MIB, OFFER, REGION, RESPONSE, Told, command, kind_of};
use dcd_base::Actor;
use device_plain::{LiveDevice, StepFault, law_lives};
use journal_core::{Act, Reply};
use region_config::Config;
use std::alloc::Global;
use std::process::Abort;
use std::test::Fail;

/// Get Dynamic Capacity Configuration (4800h): one region from the first on.
const REGIONS: [u8; 2] = [1, 0];

/// A device of one host.
fn device(alloc: Global) -> Result<LiveDevice, Fail>
    ensures { IfOk result (λ device. device.config.hosts ≡ 1) }
{
    Ok(LiveDevice::new(alloc, Config::new(alloc, 1, &[REGION], &[0])?)?)
}

/// The reply to a step.
fn replied(device: &mut LiveDevice, actor: Actor, act: &Act) -> Result<Reply, Fail>
    requires { device.old.config.hosts ≡ 1 }
    ensures { device.new.config ≡ device.old.config }
{
    if !journal_core::fits(1, &actor, act) {
        return Err("the actor may not do the act".into());
    }
    Ok(device.step(actor, act)?)
}

/// What a step is told.
fn step(device: &mut LiveDevice, actor: Actor, act: &Act) -> Result<Told, Fail>
    requires { device.old.config.hosts ≡ 1 }
    ensures { device.new.config ≡ device.old.config }
{
    let reply = replied(device, actor, act)?;
    Ok(kind_of(&reply))
}

/// The word that the host loads, if it is told one.
fn loaded(device: &mut LiveDevice, dpa: u64) -> Result<Option<u64>, Fail>
    requires { device.old.config.hosts ≡ 1 }
    ensures { device.new.config ≡ device.old.config }
{
    match replied(device, Actor::Host(HOST), &Act::Load(dpa))? {
        Reply::Word(word) => Ok(Some(word)),
        _ => Ok(None),
    }
}

/// The block is offered and accepted, and zero granules are scrubbed.
fn accepted(alloc: Global, device: &mut LiveDevice) -> Result<[Told; 3], Fail>
    requires { device.old.config.hosts ≡ 1 }
    ensures { device.new.config ≡ device.old.config }
{
    let offered = step(device, Actor::Manager, &command(alloc, 0x5604, &OFFER)?)?;
    let accepted = step(
        device,
        Actor::Host(HOST),
        &command(alloc, 0x4802, &RESPONSE)?,
    )?;
    let scrubbed = step(device, Actor::Sanitizer, &Act::Scrub(2))?;
    Ok([offered, accepted, scrubbed])
}

/// A word of the block is stored, and one beside the block is refused.
fn stored(device: &mut LiveDevice) -> Result<[Told; 2], Fail>
    requires { device.old.config.hosts ≡ 1 }
    ensures { device.new.config ≡ device.old.config }
{
    let inside = step(device, Actor::Host(HOST), &Act::Store(2 * MIB + 8, 7))?;
    let beside = step(device, Actor::Host(HOST), &Act::Store(8, 7))?;
    Ok([inside, beside])
}

/// How long the reply is that has more bytes than the caller has room for.
fn too_long(device: &mut LiveDevice, act: &Act, most: usize) -> Result<usize, Fail>
    requires { device.old.config.hosts ≡ 1 }
    ensures { device.new.config ≡ device.old.config }
{
    let host = Actor::Host(HOST);
    if !journal_core::fits(1, &host, act) {
        return Err("the host may not do the act".into());
    }
    match device.step_within(host, act, most) {
        Ok(_) => Ok(0),
        Err(StepFault::TooLong(length)) => Ok(length),
        Err(StepFault::NoMemory) => Err("no memory".into()),
    }
}

/// Sees the steps, and that a reply that is too long changes nothing and is answered where there is room.
fn see_steps(rt: &impl Abort, alloc: Global, device: &mut LiveDevice) -> Result<(), Fail>
    requires { device.old.config.hosts ≡ 1 }
{
    let told = accepted(alloc, device)?;
    see(rt, &told, &[Told::Success, Told::Success, Told::Other]);
    see(rt, &stored(device)?, &[Told::Other, Told::NotGranted]);
    see(rt, &loaded(device, 2 * MIB + 8)?, &Some(7));
    let act = command(alloc, 0x4800, &REGIONS)?;
    let length = too_long(device, &act, 8)?;
    see(rt, &(length > 8), &true);
    see(rt, &too_long(device, &act, length)?, &0);
    Ok(())
}

#[test]
fn a_device_without_a_journal_takes_steps_and_keeps_what_they_leave(
    rt: HostRuntime,
) -> Result<(), Fail> {
    law_lives();
    let mut device = device(rt.alloc())?;
    see_steps(&rt, rt.alloc(), &mut device)
}
