//! Lists in the caller's room: extents, offers, records, regions and bases.

ghost use Rattle.dcd_base.specs.declared.steps.LogId.{LogId};
ghost use Rattle.dcd_c.specs.Calls.{log_numbered};
ghost use Rattle.dcd_c.specs.Lists.{TellsHostItems, TellsItems, TellsLog, TellsPlace, TellsRecords, accepted_told, bases_told, extent_told, flag_number, host_bases, offers_told, region_told, regions_told};
ghost use Rattle.device_plain.specs.Lives.{ByEveryLife};
ghost use Rattle.device_plain.specs.device_state.specs.Updates.{IsOfLog};
ghost use Rattle.event_records.specs.Records.{record_bytes};
ghost use Rattle.std.specs.Prelude.{◌≡◌, ◌+◌, ◌*◌, ◌++◌, ◌<◌, ◌≤◌, IfSome, drop, flat_map, length, map, take};

use crate::faults::Fault;
use crate::handles::{Handle, put_in, take_out};
use crate::heads::RegionTold;
use dcd_base::{Extent, HostId, LogId, RegionId};
use device_plain::LiveDevice;
use event_log::EventLog;
use event_records::put_record;
use region_config::{Config, RegionSpec};
use std::alloc::Global;

/// An extent as C sees it.
#[repr(C)]
#[derive(Clone, Copy, Drop)]
pub struct ExtentTold {
    pub dpa: u64,
    pub length: u64,
    pub tag: [u8; 16],
    pub sequence: u16,
    /// The number of its offer, the oldest being 0, or 0 where it is accepted.
    pub offer: u16,
    pub reserved: u32,
}

/// How many bytes a record has.
const RECORD: usize = 128;

/// An extent of this offer.
fn extent_told(extent: &Extent, offer: u16) -> ExtentTold
    ensures { result ≡ extent_told offer extent.now }
{
    ExtentTold {
        dpa: extent.start,
        length: extent.length,
        tag: extent.tag.0,
        sequence: extent.sequence,
        offer,
        reserved: 0,
    }
}

/// Puts the extents of an offer at a place of the room.
fn put_extents(room: &mut [ExtentTold], at: usize, extents: &[Extent], offer: u16)
    requires { at + length extents.now ≤ length room.old }
    ensures put { take (at + length extents.now) room.new ≡ take at room.old ++ map (extent_told offer) extents.now }
    ensures rest { drop (at + length extents.now) room.new ≡ drop (at + length extents.now) room.old }
    ensures size { length room.new ≡ length room.old }
{
    for i in 0..extents.len() {
        room[at + i] = extent_told(&extents[i], offer);
    }
}

/// Puts the accepted extents of a host into the room.
fn put_accepted(device: &LiveDevice, host: u8, room: &mut [ExtentTold]) -> Result<u64, Fault>
    requires { host < device.now.config.hosts }
    ensures { TellsItems (accepted_told host) room.old room.new device.now result }
{
    let extents = device.control().accepted(HostId(host));
    if extents.len() > room.len() {
        return Err(Fault::NoRoom(extents.len() as u64));
    }
    put_extents(room, 0, extents, 0);
    Ok(extents.len() as u64)
}

/// The same of a number that may be no host.
fn accepted_of(device: &LiveDevice, host: u8, room: &mut [ExtentTold]) -> Result<u64, Fault>
    ensures { TellsHostItems host (accepted_told host) room.old room.new device.now result }
{
    if host >= device.first_config().hosts() {
        return Err(Fault::NoActor);
    }
    put_accepted(device, host, room)
}

/// How many extents the waiting offers of a host have.
fn offered_count(device: &LiveDevice, host: u8) -> usize
    requires { host < device.now.config.hosts }
    ensures { ByEveryLife device.now (λ life. result ≡ length (offers_told host device.now life)) }
{
    // Some legal journal leads to the device.
    let _sound = device.first_config();
    let kept = device.control();
    let mut count = 0usize;
    for i in 0..kept.offers(HostId(host)) {
        let extents = kept.offer(HostId(host), i);
        count = count.saturating_add(extents.len());
    }
    count
}

/// Puts the extents of the waiting offers of a host into the room.
fn put_offers(device: &LiveDevice, host: u8, room: &mut [ExtentTold]) -> Result<u64, Fault>
    requires { host < device.now.config.hosts }
    ensures { TellsItems (offers_told host) room.old room.new device.now result }
{
    let count = offered_count(device, host);
    if count > room.len() {
        return Err(Fault::NoRoom(count as u64));
    }
    // Some legal journal leads to the device.
    let _sound = device.first_config();
    let kept = device.control();
    let mut at = 0;
    for i in 0..kept.offers(HostId(host)) {
        let extents = kept.offer(HostId(host), i);
        put_extents(room, at, extents, (i % 65_536) as u16);
        at += extents.len();
    }
    Ok(count as u64)
}

/// The same of a number that may be no host.
fn offers_of(device: &LiveDevice, host: u8, room: &mut [ExtentTold]) -> Result<u64, Fault>
    ensures { TellsHostItems host (offers_told host) room.old room.new device.now result }
{
    if host >= device.first_config().hosts() {
        return Err(Fault::NoActor);
    }
    put_offers(device, host, room)
}

/// The log of this number on a device of so many hosts: a host's, or the Fabric Manager's.
fn log_of(hosts: u8, number: u8) -> Option<LogId>
    ensures log { result ≡ log_numbered hosts number }
    ensures known { IfSome result (IsOfLog hosts) }
{
    if number < hosts {
        Some(LogId::Host(HostId(number)))
    } else if number == 0xFE {
        Some(LogId::Manager)
    } else {
        None
    }
}

/// How many records the log has.
fn record_count(log: &EventLog) -> usize
    ensures count { result ≡ length log.now.records }
    ensures few { result ≤ 128 }
{
    log.len() as usize
}

/// Puts all records of the log at the start of the room.
fn put_all(log: &EventLog, room: &mut [u8])
    requires { length log.now.records * 128 ≤ length room.old }
    ensures { room.new ≡ flat_map record_bytes log.now.records ++ drop (length log.now.records * 128) room.old }
{
    for i in 0..record_count(log) {
        put_record(room, i * RECORD, &log.at(i as u32));
    }
}

/// Puts the records of a log into the room.
fn put_records(device: &LiveDevice, log: LogId, room: &mut [u8]) -> Result<u64, Fault>
    requires { IsOfLog device.now.config.hosts log }
    ensures { TellsRecords log room.old room.new device.now result }
{
    let kept = device.control().log(log);
    let bytes = record_count(kept) * RECORD;
    if bytes > room.len() {
        return Err(Fault::NoRoom(bytes as u64));
    }
    put_all(kept, room);
    Ok(bytes as u64)
}

/// The same of a number that may be no log.
fn records_of(device: &LiveDevice, number: u8, room: &mut [u8]) -> Result<u64, Fault>
    ensures { TellsLog number room.old room.new device.now result }
{
    match log_of(device.first_config().hosts(), number) {
        None => Err(Fault::NoActor),
        Some(log) => put_records(device, log, room),
    }
}

/// The flags of a region.
fn flags_of(sanitize: bool, shareable: bool) -> u32
    ensures { result ≡ flag_number sanitize 1 + flag_number shareable 2 }
{
    u32::from(sanitize) | u32::from(shareable) << 1
}

/// A region as C sees it.
fn region_told(spec: &RegionSpec) -> RegionTold
    ensures { result ≡ region_told spec.now }
{
    RegionTold {
        decode_units: spec.decode_units,
        length: spec.length,
        block: spec.block,
        sizes: spec.sizes,
        handle: spec.handle,
        flags: flags_of(spec.sanitize, spec.shareable),
    }
}

/// Puts the regions into the room, with their present blocks.
fn regions_of(device: &LiveDevice, room: &mut [RegionTold]) -> Result<u64, Fault>
    ensures { TellsItems regions_told room.old room.new device.now result }
{
    let config = device.control().config();
    let count = config.regions();
    if usize::from(count) > room.len() {
        return Err(Fault::NoRoom(u64::from(count)));
    }
    for i in 0..count {
        room[usize::from(i)] = region_told(&config.region(RegionId(i)));
    }
    Ok(u64::from(count))
}

/// Puts where each region begins for a host at a place of the room.
fn put_bases(config: &Config, host: u8, room: &mut [u64], at: usize)
    requires host { host < config.now.hosts }
    requires within { at + length config.now.regions ≤ length room.old }
    ensures put { take (at + length config.now.regions) room.new ≡ take at room.old ++ host_bases config.now host }
    ensures rest { drop (at + length config.now.regions) room.new ≡ drop (at + length config.now.regions) room.old }
    ensures size { length room.new ≡ length room.old }
{
    for i in 0..config.regions() {
        room[at + usize::from(i)] = config.base(HostId(host), RegionId(i));
    }
}

/// How many bases so many hosts have.
fn bases_before(config: &Config, hosts: u8) -> usize
    ensures { result ≡ hosts * length config.now.regions }
{
    usize::from(hosts) * usize::from(config.regions())
}

/// Puts the bases of the regions into the room, host by host.
fn bases_of(device: &LiveDevice, room: &mut [u64]) -> Result<u64, Fault>
    ensures { TellsItems bases_told room.old room.new device.now result }
{
    let config = device.first_config();
    let count = bases_before(config, config.hosts());
    if count > room.len() {
        return Err(Fault::NoRoom(count as u64));
    }
    for host in 0..config.hosts() {
        put_bases(config, host, room, bases_before(config, host));
    }
    Ok(count as u64)
}

/// The accepted extents of a host of the handle's device.
pub(crate) fn extents_asked(
    handle: &mut Handle,
    alloc: Global,
    host: u8,
    room: &mut [ExtentTold],
) -> Result<u64, Fault>
    ensures told { TellsPlace room.old room.new (TellsHostItems host (accepted_told host) room.old room.new) handle.old.place.device result }
    ensures kept { handle.new.place.device ≡ handle.old.place.device }
{
    if !handle.is_open() {
        return Err(Fault::Closed);
    }
    let session = take_out(handle, alloc);
    let outcome = accepted_of(&session.device, host, room);
    put_in(handle, session);
    outcome
}

/// The extents of its waiting offers.
pub(crate) fn offers_asked(
    handle: &mut Handle,
    alloc: Global,
    host: u8,
    room: &mut [ExtentTold],
) -> Result<u64, Fault>
    ensures told { TellsPlace room.old room.new (TellsHostItems host (offers_told host) room.old room.new) handle.old.place.device result }
    ensures kept { handle.new.place.device ≡ handle.old.place.device }
{
    if !handle.is_open() {
        return Err(Fault::Closed);
    }
    let session = take_out(handle, alloc);
    let outcome = offers_of(&session.device, host, room);
    put_in(handle, session);
    outcome
}

/// The records of a log of the handle's device.
pub(crate) fn records_asked(
    handle: &mut Handle,
    alloc: Global,
    log: u8,
    room: &mut [u8],
) -> Result<u64, Fault>
    ensures told { TellsPlace room.old room.new (TellsLog log room.old room.new) handle.old.place.device result }
    ensures kept { handle.new.place.device ≡ handle.old.place.device }
{
    if !handle.is_open() {
        return Err(Fault::Closed);
    }
    let session = take_out(handle, alloc);
    let outcome = records_of(&session.device, log, room);
    put_in(handle, session);
    outcome
}

/// The regions of the handle's device.
pub(crate) fn regions_asked(
    handle: &mut Handle,
    alloc: Global,
    room: &mut [RegionTold],
) -> Result<u64, Fault>
    ensures told { TellsPlace room.old room.new (TellsItems regions_told room.old room.new) handle.old.place.device result }
    ensures kept { handle.new.place.device ≡ handle.old.place.device }
{
    if !handle.is_open() {
        return Err(Fault::Closed);
    }
    let session = take_out(handle, alloc);
    let outcome = regions_of(&session.device, room);
    put_in(handle, session);
    outcome
}

/// The bases of the regions.
pub(crate) fn bases_asked(
    handle: &mut Handle,
    alloc: Global,
    room: &mut [u64],
) -> Result<u64, Fault>
    ensures told { TellsPlace room.old room.new (TellsItems bases_told room.old room.new) handle.old.place.device result }
    ensures kept { handle.new.place.device ≡ handle.old.place.device }
{
    if !handle.is_open() {
        return Err(Fault::Closed);
    }
    let session = take_out(handle, alloc);
    let outcome = bases_of(&session.device, room);
    put_in(handle, session);
    outcome
}
