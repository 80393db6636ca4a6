//! The same work by a device that takes one step after another.

ghost use Rattle.journal_core.specs.Entries.{fits as fits_of};
ghost use Rattle.std.specs.Prelude.{IsTrue, OnOk};

use crate::asking::{accept, acts, config, done, offer};
use crate::job::{HOSTS, Job};
use dcd_base::{Actor, HostId, NoMemory};
use device_plain::Device;
use journal_core::{Act, fits};
use std::alloc::Global;

/// The actor may do the act.
fn may(device: &Device, actor: &Actor, act: &Act) -> Result<(), NoMemory>
    ensures { OnOk result (IsTrue (fits_of device.now.config.hosts actor.now act.now)) }
{
    if fits(device.control().first_config().hosts(), actor, act) {
        Ok(())
    } else {
        Err(NoMemory)
    }
}

/// A step. Here want of memory stands for whatever goes wrong.
fn step(device: &mut Device, line: u32, actor: Actor, act: &Act) -> Result<(), NoMemory> {
    may(device, &actor, act)?;
    let reply = device.step(0, line, actor, act)?;
    done(&reply)
}

/// Each host gets its granule.
fn begin(alloc: Global, job: &Job, device: &mut Device) -> Result<(), NoMemory> {
    for host in 0..HOSTS {
        let granule = job.kind.granule(host);
        step(device, 0, Actor::Manager, &offer(alloc, host, granule)?)?;
        step(
            device,
            0,
            Actor::Host(HostId(host)),
            &accept(alloc, granule)?,
        )?;
    }
    Ok(())
}

/// Two acts of an actor.
type Turns = (Actor, Act, Act);

/// Who works, with the acts of each.
fn workers(alloc: Global, job: &Job) -> Result<Vec<Turns>, NoMemory> {
    let mut workers = Vec::new(alloc);
    for host in 0..HOSTS {
        add_worker(alloc, job, Actor::Host(HostId(host)), &mut workers)?;
    }
    add_worker(alloc, job, Actor::Manager, &mut workers)?;
    Ok(workers)
}

/// Adds the actor if it works.
fn add_worker(
    alloc: Global,
    job: &Job,
    actor: Actor,
    workers: &mut Vec<Turns>,
) -> Result<(), NoMemory> {
    if job.kind.has(&actor) {
        let (one, two) = acts(alloc, job, &actor)?;
        workers.push((actor, one, two))?;
    }
    Ok(())
}

/// One step of each. How many were done.
fn round(device: &mut Device, line: u32, workers: &[Turns]) -> Result<u64, NoMemory> {
    let mut done = 0u64;
    for (actor, one, two) in workers {
        let act = if line % 2 == 0 { one } else { two };
        step(device, line, *actor, act)?;
        done = done.saturating_add(1);
    }
    Ok(done)
}

/// As many rounds as steps.
fn rounds(device: &mut Device, steps: u32, workers: &[Turns]) -> Result<u64, NoMemory> {
    let mut done = 0u64;
    for line in 0..steps {
        done = done.saturating_add(round(device, line, workers)?);
    }
    Ok(done)
}

/// Does the job on a fresh device. How many steps were done.
fn work_on(alloc: Global, job: &Job, device: &mut Device) -> Result<u64, NoMemory> {
    begin(alloc, job, device)?;
    let workers = workers(alloc, job)?;
    rounds(device, job.steps, workers.as_slice())
}

/// Does the job. How many steps were done.
pub fn work_serially(alloc: Global, job: &Job) -> Result<u64, NoMemory> {
    let mut device = Device::new(alloc, config(alloc)?)?;
    work_on(alloc, job, &mut device)
}
