//! The acts of a job.

ghost use Rattle.std.specs.Prelude.{◌≡◌, IfOk};

use crate::job::{HOSTS, Job};
use cci_codec::{Payload, Request};
use dcd_base::{Actor, NoMemory};
use journal_core::{Act, Reply};
use region_config::{Config, RegionSpec};
use std::alloc::Global;

/// 1 MiB.
const M: u64 = 0x10_0000;

/// 256 MiB that are not shared, in granules of 1 MiB; sixteen hosts, for each of which they begin at 0. Any fault is taken as
/// want of memory, since it has no other.
pub fn config(alloc: Global) -> Result<Config, NoMemory>
    ensures { IfOk result (λ c. c.hosts ≡ 16) }
{
    let region = RegionSpec {
        decode_units: 1,
        length: 256 * M,
        block: M,
        sizes: M,
        handle: 0,
        sanitize: true,
        shareable: false,
    };
    let Ok(config) = Config::new(alloc, HOSTS, &[region], &[0; 16]) else {
        return Err(NoMemory);
    };
    Ok(config)
}

/// The step was done, and not refused. Here want of memory stands for whatever goes wrong.
pub fn done(reply: &Reply) -> Result<(), NoMemory> {
    let is_done = match reply {
        Reply::Answer(response) => response.code == 0,
        Reply::Refused(_) => false,
        _ => true,
    };
    if is_done { Ok(()) } else { Err(NoMemory) }
}

/// A command.
fn command(alloc: Global, opcode: u16, payload: &[u8]) -> Result<Act, NoMemory> {
    let payload = Payload::from_slice(alloc, payload)?;
    Ok(Act::Command(Request {
        tag: 0,
        opcode,
        payload,
    }))
}

/// The manager offers the host its granule (5604h, Prescriptive).
pub fn offer(alloc: Global, host: u8, granule: u8) -> Result<Act, NoMemory> {
    let (low, high) = (granule % 16 * 16, granule / 16);
    let payload = [
        host, 0, 2, 0, 0, 0, 0, 0, 0, 0, 0, 0, // policy 2, region 0, no length
        0, 0, 0, 0, 0, 0, 0, 0, 0, 0, 0, 0, 0, 0, 0, 0, // no tag
        1, 0, 0, 0, // one extent
        0, 0, low, high, 0, 0, 0, 0, 0, 0, 16, 0, 0, 0, 0, 0, // the granule
        0, 0, 0, 0, 0, 0, 0, 0, 0, 0, 0, 0, 0, 0, 0, 0, 0, 0, 0, 0, 0, 0, 0, 0,
    ];
    command(alloc, 0x5604, &payload)
}

/// The host accepts its granule (4802h).
pub fn accept(alloc: Global, granule: u8) -> Result<Act, NoMemory> {
    let (low, high) = (granule % 16 * 16, granule / 16);
    let payload = [
        1, 0, 0, 0, 0, 0, 0, 0, // one extent, and no more
        0, 0, low, high, 0, 0, 0, 0, 0, 0, 16, 0, 0, 0, 0, 0, // the granule
        0, 0, 0, 0, 0, 0, 0, 0,
    ];
    command(alloc, 0x4802, &payload)
}

/// The two acts that an actor does in turns: a store and a load of its word, or twice the reading of an empty log.
pub fn acts(alloc: Global, job: &Job, actor: &Actor) -> Result<(Act, Act), NoMemory> {
    match actor {
        Actor::Host(host) => if job.kind.accesses() {
            let dpa = job.kind.address(host.0);
            Ok((Act::Store(dpa, 7), Act::Load(dpa)))
        } else {
            two_readings(alloc)
        },
        _ => two_readings(alloc),
    }
}

/// Twice Get Event Records (0100h) of log 0, which has no records.
fn two_readings(alloc: Global) -> Result<(Act, Act), NoMemory> {
    Ok((command(alloc, 0x0100, &[0])?, command(alloc, 0x0100, &[0])?))
}
