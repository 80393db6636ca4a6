//! What is held, free and waiting.

ghost use Rattle.dcd_c.specs.Asking.{AsksHost, AsksMemory, AsksPlace, TellsHostState, TellsMemoryState, bytes_of_extents, bytes_of_regions};
ghost use Rattle.device_plain.specs.Lives.{ByEveryLife};
ghost use Rattle.std.specs.Prelude.{◌≡◌, ◌<◌, ◌≤◌, length, take};

use crate::faults::Fault;
use crate::handles::{Handle, put_in, take_out};
use dcd_base::{Extent, HostId, LogId, RegionId};
use device_plain::LiveDevice;
use region_config::Config;
use std::alloc::Global;

/// What a host has.
#[repr(C)]
#[derive(Clone, Copy, Drop)]
pub struct HostState {
    /// How many bytes the struct has, by the caller and then by the library.
    pub size: u32,
    /// How many extents it has accepted, and how many granules they have.
    pub extents: u32,
    pub granules: u32,
    /// How many records are in its log.
    pub records: u32,
    /// How many bytes its extents have.
    pub bytes: u64,
    /// How many offers it has not answered.
    pub offers: u64,
    /// How many records found its log full.
    pub missed: u16,
    pub reserved: u16,
    pub reserved_too: u32,
}

/// How many bytes the structs have.
pub(crate) const HOST_STATE: u32 = 40;

pub(crate) const MEMORY_STATE: u32 = 32;

/// What the whole device has.
#[repr(C)]
#[derive(Clone, Copy, Drop)]
pub struct MemoryState {
    /// How many bytes the struct has, by the caller and then by the library.
    pub size: u32,
    /// How many granules there are, and how many of them are free and dirty.
    pub granules: u32,
    pub free: u32,
    pub dirty: u32,
    /// How many bytes all regions have.
    pub bytes: u64,
    /// How many records are in the log of the Fabric Manager, and how many found it full.
    pub records: u32,
    pub missed: u16,
    /// How many hosts and regions there are.
    pub hosts: u8,
    pub regions: u8,
}

/// The bytes of the extents.
fn bytes_of(extents: &[Extent]) -> u64
    ensures { result ≡ bytes_of_extents extents.now }
{
    let mut bytes = 0u64;
    for i in 0..extents.len() {
        bytes = bytes.wrapping_add(extents[i].length);
    }
    bytes
}

/// The bytes of the regions before this one, or of all.
pub(crate) fn bytes_before(config: &Config, region: u8) -> u64
    requires { region ≤ length config.now.regions }
    ensures { result ≡ bytes_of_regions (take region config.now.regions) }
{
    let mut bytes = 0u64;
    for i in 0..region {
        bytes = bytes.wrapping_add(config.region(RegionId(i)).length);
    }
    bytes
}

/// What the host has, which is one of the device.
fn state_of(device: &LiveDevice, host: u8) -> HostState
    requires { host < device.now.config.hosts }
    ensures { ByEveryLife device.now (TellsHostState device.now host result) }
{
    let control = device.control();
    let id = HostId(host);
    HostState {
        size: HOST_STATE,
        extents: control.extents(id),
        granules: control.granules_held(id),
        records: control.records(LogId::Host(id)),
        bytes: bytes_of(control.accepted(id)),
        offers: control.offers(id) as u64,
        missed: control.missed(LogId::Host(id)),
        reserved: 0,
        reserved_too: 0,
    }
}

/// What the device has.
fn memory_of(device: &LiveDevice) -> MemoryState
    ensures { ByEveryLife device.now (TellsMemoryState device.now result) }
{
    let config = device.first_config();
    let control = device.control();
    MemoryState {
        size: MEMORY_STATE,
        granules: config.granules(),
        free: control.free(),
        dirty: control.dirty(),
        bytes: bytes_before(config, config.regions()),
        records: control.records(LogId::Manager),
        missed: control.missed(LogId::Manager),
        hosts: config.hosts(),
        regions: config.regions(),
    }
}

/// What the host has, if it is one.
fn host_of(device: &LiveDevice, host: u8) -> Result<HostState, Fault>
    ensures { AsksHost host device.now result }
{
    if host >= device.first_config().hosts() {
        return Err(Fault::NoActor);
    }
    Ok(state_of(device, host))
}

/// What the host of the handle's device has.
pub(crate) fn host_asked(handle: &mut Handle, alloc: Global, host: u8) -> Result<HostState, Fault>
    ensures told { AsksPlace (AsksHost host) handle.old.place.device result }
    ensures kept { handle.new.place.device ≡ handle.old.place.device }
{
    if !handle.is_open() {
        return Err(Fault::Closed);
    }
    let session = take_out(handle, alloc);
    let outcome = host_of(&session.device, host);
    put_in(handle, session);
    outcome
}

/// What the handle's device has.
pub(crate) fn memory_asked(handle: &mut Handle, alloc: Global) -> Result<MemoryState, Fault>
    ensures told { AsksPlace AsksMemory handle.old.place.device result }
    ensures kept { handle.new.place.device ≡ handle.old.place.device }
{
    if !handle.is_open() {
        return Err(Fault::Closed);
    }
    let session = take_out(handle, alloc);
    let state = memory_of(&session.device);
    put_in(handle, session);
    Ok(state)
}
