//! A device of the head of a script, and its end.

ghost use Rattle.dcd_c.specs.Calls.{ClosesPlace, OpensAs, MakesDevice, OpensPlace};
ghost use Rattle.dcd_c.specs.Heads.{IsHeadRead};
ghost use Rattle.dcd_c.specs.Opening.{OpensWith, StaysIdle, bases_fit, counts_spelled, head_spelled, region_spelled};
ghost use Rattle.dcd_c.specs.Places.{has_device};
ghost use Rattle.dcd_c.specs.declared.faults.Fault.{Fault};
ghost use Rattle.dcd_base.specs.Layouts.{u64_bytes};
ghost use Rattle.std.specs.Prelude.{◌≡◌, ◌++◌, Err, IfErr, IfOk, IsTrue, OnOk, flat_map};

use crate::faults::Fault;
use crate::handles::{Handle, put_in, take_out};
use crate::sessions::Session;
use dcd_base::{Bytes, NoMemory, add_u8, add_u16, add_u32, add_u64};
use device_plain::LiveDevice;
use journal_core::Effects;
use region_config::Config;
use script_codec::{Reader, ScriptFault};
use std::alloc::Global;

/// The configuration of the head that the bytes begin with.
fn config_of(alloc: Global, script: &[u8]) -> Result<Config, Fault>
    ensures { IsHeadRead script.now result }
{
    match Reader::begin(alloc, script) {
        Ok((head, _reader)) => Ok(head.config),
        Err(ScriptFault::NoMemory) => Err(Fault::NoMemory),
        Err(fault) => Err(Fault::Head(fault)),
    }
}

/// The device of the head that the bytes begin with.
fn made(alloc: Global, script: &[u8]) -> Result<Session, Fault>
    ensures { MakesDevice script.now result }
{
    let config = config_of(alloc, script)?;
    match LiveDevice::new(alloc, config) {
        Ok(device) => Ok(Session {
            device,
            last: Effects::new(alloc),
        }),
        Err(NoMemory) => Err(Fault::NoMemory),
    }
}

/// The same on the heap.
fn boxed(alloc: Global, script: &[u8]) -> Result<Box<Session>, Fault>
    ensures opened { IfOk result (λ session. OpensAs script.now session.value) }
    ensures refused { IfErr result (λ fault. MakesDevice script.now (Err fault)) }
{
    let session = made(alloc, script)?;
    match Box::new(alloc, session) {
        Ok(session) => Ok(session),
        Err(_) => Err(Fault::NoMemory),
    }
}

/// The handle keeps the device that it has.
fn kept_open(handle: &mut Handle, alloc: Global) -> Fault
    requires { IsTrue (has_device handle.old.place.device) }
    ensures fault { result ≡ Fault.Opened }
    ensures idle { StaysIdle handle.old.place.device handle.new.place.device }
{
    let mut session = take_out(handle, alloc);
    session.rest();
    put_in(handle, session);
    Fault::Opened
}

/// Puts the device of the head into the handle.
pub(crate) fn opened(handle: &mut Handle, alloc: Global, script: &[u8]) -> Result<(), Fault>
    ensures { OpensPlace script.now handle.old.place.device handle.new.place.device result }
{
    if handle.is_open() {
        return Err(kept_open(handle, alloc));
    }
    let session = boxed(alloc, script)?;
    put_in(handle, session);
    Ok(())
}

/// Frees the device of the handle.
pub(crate) fn closed(handle: &mut Handle, alloc: Global) -> Result<(), Fault>
    ensures { ClosesPlace handle.old.place.device handle.new.place.device result }
{
    if !handle.is_open() {
        return Err(Fault::Closed);
    }
    let _session = take_out(handle, alloc);
    Ok(())
}

/// A region as C spells it: the fields of a head's region (docs/formats.md).
#[repr(C)]
#[derive(Clone, Copy, Drop)]
pub struct RegionTold {
    pub decode_units: u64,
    pub length: u64,
    pub block: u64,
    pub sizes: u64,
    pub handle: u32,
    /// Bit 0: it sanitizes; bit 1: it is shareable.
    pub flags: u32,
}

/// What stands before the regions of a head: magic, version 1, and the numbers of hosts and regions, at most 255 of them.
fn add_counts(out: &mut Bytes, hosts: u8, regions: usize) -> Result<(), NoMemory>
    ensures { OnOk result (out.new ≡ out.old ++ counts_spelled hosts regions) }
{
    out.extend_from_slice(b"DCDS")?;
    add_u16(out, 1)?;
    add_u16(out, 0)?;
    add_u8(out, hosts)?;
    add_u8(out, regions.min(255) as u8)?;
    out.extend_from_slice(&[0; 6])
}

/// One region of a head. Of its flags the two that there are.
#[tactic(auto, unfolding(crate::specs::Opening::region_spelled))]
fn add_region(out: &mut Bytes, region: &RegionTold) -> Result<(), NoMemory>
    ensures { OnOk result (out.new ≡ out.old ++ region_spelled region.now) }
{
    add_u64(out, region.decode_units)?;
    add_u64(out, region.length)?;
    add_u64(out, region.block)?;
    add_u64(out, region.sizes)?;
    add_u32(out, region.handle)?;
    add_u32(out, region.flags % 4)
}

/// The regions of a head.
fn add_regions(out: &mut Bytes, regions: &[RegionTold]) -> Result<(), NoMemory>
    ensures { OnOk result (out.new ≡ out.old ++ flat_map region_spelled regions.now) }
{
    for i in 0..regions.len() {
        add_region(out, &regions[i])?;
    }
    Ok(())
}

/// The bases of a head.
fn add_bases(out: &mut Bytes, bases: &[u64]) -> Result<(), NoMemory>
    ensures { OnOk result (out.new ≡ out.old ++ flat_map u64_bytes bases.now) }
{
    for i in 0..bases.len() {
        add_u64(out, bases[i])?;
    }
    Ok(())
}

/// The head that spells hosts, regions and bases.
#[tactic(auto, unfolding(crate::specs::Opening::head_spelled))]
fn spelled(
    alloc: Global,
    hosts: u8,
    regions: &[RegionTold],
    bases: &[u64],
) -> Result<Bytes, NoMemory>
    ensures { IfOk result (λ head. head ≡ head_spelled hosts regions.now bases.now) }
{
    let mut head = Bytes::new(alloc);
    add_counts(&mut head, hosts, regions.len())?;
    add_regions(&mut head, regions)?;
    add_bases(&mut head, bases)?;
    Ok(head)
}

/// Whether there are as many bases as hosts times regions.
fn count_fits(hosts: u8, regions: usize, bases: usize) -> bool
    ensures { result ≡ bases_fit hosts regions bases }
{
    u128::from(hosts) * (regions as u128) == bases as u128
}

/// Puts into the handle the device of these hosts, regions and bases.
pub(crate) fn opened_with(
    handle: &mut Handle,
    alloc: Global,
    hosts: u8,
    regions: &[RegionTold],
    bases: &[u64],
) -> Result<(), Fault>
    ensures { OpensWith hosts regions.now bases.now handle.old.place.device handle.new.place.device result }
{
    if handle.is_open() {
        return Err(kept_open(handle, alloc));
    }
    if !count_fits(hosts, regions.len(), bases.len()) {
        return Err(Fault::BadCount);
    }
    match spelled(alloc, hosts, regions, bases) {
        Ok(head) => opened(handle, alloc, head.as_slice()),
        Err(NoMemory) => Err(Fault::NoMemory),
    }
}
