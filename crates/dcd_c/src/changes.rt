//! What the last step changed: runs gained, lost and zeroed, and the logs that grew.

ghost use Rattle.dcd_c.specs.Changes.{IsToldBy, TellsChanges, TellsPlaceChanges, filled_by, grown_by, media_of, run_told, runs_told, start_told, step_told, told_by, with_bit, with_log};
ghost use Rattle.media_map.specs.Places.{bytes_of_run};
ghost use Rattle.region_config.specs.Configurations.{Configuration};
ghost use Rattle.region_config.specs.Granules.{first_granule, granule_size, region_of};
ghost use Rattle.std.specs.Prelude.{◌≡◌, ◌+◌, ◌-◌, ◌*◌, ◌++◌, ◌%◌, ◌^◌, ◌<◌, ◌≤◌, drop, fold, length, take};

use crate::asking::bytes_before;
use crate::faults::Fault;
use crate::handles::{Handle, put_in, take_out};
use crate::sessions::Session;
use dcd_base::{HostId, LogId, RegionId, Run};
use journal_core::Effect;
use region_config::Config;
use std::alloc::Global;

/// Adjacent granules that a host gained or lost, or that are zeroed, as C sees them.
#[repr(C)]
#[derive(Clone, Copy, Drop)]
pub struct RunTold {
    /// Where the run begins for the host, 0 where it is zeroed, and how many bytes it has.
    pub dpa: u64,
    pub length: u64,
    /// Where it begins in the memory behind the device, in which the regions stand one behind another.
    pub media: u64,
    pub first_granule: u32,
    pub granules: u32,
    /// 1 where it is gained, 2 where it is lost, 3 where it is zeroed.
    pub kind: u8,
    /// The host, or 255 where the run is zeroed.
    pub host: u8,
    pub region: u8,
    pub reserved: u8,
    pub reserved_too: u32,
}

/// How many runs there are, and the logs: bit h is that of host h, bit 16 that of the Fabric Manager.
#[repr(C)]
#[derive(Clone, Copy, Drop)]
pub struct StepTold {
    /// How many bytes the struct has, by the caller and then by the library.
    pub size: u32,
    /// The logs that got a record.
    pub logs: u32,
    /// The logs that were full, so that a record was only counted.
    pub full: u32,
    pub reserved: u32,
    pub runs: u64,
}

/// How many bytes the struct has.
pub(crate) const STEP: u32 = 24;

/// The kinds of runs.
const GAINED: u8 = 1;

const LOST: u8 = 2;

const ZEROED: u8 = 3;

/// No host.
const NOBODY: u8 = 255;

/// The region of a run, or region 0 where it begins behind the last granule.
fn region_of(config: &Config, run: &Run) -> RegionId
    ensures value { result ≡ region_of config.now run.now.first }
    ensures known { result < length config.now.regions }
{
    if run.first.0 < config.granules() {
        config.region_of(run.first)
    } else {
        RegionId(0)
    }
}

/// How many bytes of its region stand before the run, in the 64 bits of a number.
fn bytes_behind(config: &Config, run: &Run) -> u64
    ensures { result ≡ (run.now.first - first_granule config.now (region_of config.now run.now.first)) * granule_size config.now (region_of config.now run.now.first) % 2 ^ 64 }
{
    let region = region_of(config, run);
    let behind = run
        .first
        .0
        .saturating_sub(config.granules_of(region).first.0);
    u64::from(behind).wrapping_mul(config.granule_size(region))
}

/// Where the run begins for the host, 0 where the device has no such host.
fn start_told(config: &Config, host: HostId, run: &Run) -> u64
    ensures { result ≡ start_told config.now host run.now % 2 ^ 64 }
{
    if host.0 >= config.hosts() {
        return 0;
    }
    config
        .base(host, region_of(config, run))
        .wrapping_add(bytes_behind(config, run))
}

/// How many bytes the run has.
fn bytes_of(config: &Config, run: &Run) -> u64
    ensures { result ≡ bytes_of_run config.now run.now % 2 ^ 64 }
{
    u64::from(run.count).wrapping_mul(config.granule_size(region_of(config, run)))
}

/// Where the run begins in the memory behind the device.
fn media_of(config: &Config, run: &Run) -> u64
    ensures { result ≡ media_of config.now run.now % 2 ^ 64 }
{
    bytes_before(config, region_of(config, run).0).wrapping_add(bytes_behind(config, run))
}

/// The run as it is told.
fn run_told(config: &Config, kind: u8, host: u8, dpa: u64, run: &Run) -> RunTold
    ensures { result ≡ run_told config.now kind host dpa run.now }
{
    RunTold {
        dpa,
        length: bytes_of(config, run),
        media: media_of(config, run),
        first_granule: run.first.0,
        granules: run.count,
        kind,
        host,
        region: region_of(config, run).0,
        reserved: 0,
        reserved_too: 0,
    }
}

/// What an effect tells, if it gives, takes or zeroes granules.
fn told_by(config: &Config, effect: &Effect) -> Option<RunTold>
    ensures { IsToldBy config.now effect.now result }
{
    match effect {
        Effect::Take(host, run) => {
            Some(run_told(config, GAINED, host.0, start_told(config, *host, run), run))
        }
        Effect::Leave(host, run) => {
            Some(run_told(config, LOST, host.0, start_told(config, *host, run), run))
        }
        Effect::Zero(run) => Some(run_told(config, ZEROED, NOBODY, 0, run)),
        _ => None,
    }
}

/// How many runs an effect tells: one, or none.
fn count_told(effect: &Effect) -> usize
    ensures count { (c : Configuration) → result ≡ length (told_by c effect.now) }
    ensures few { result ≤ 1 }
{
    match effect {
        Effect::Take(_, _) => 1,
        Effect::Leave(_, _) => 1,
        Effect::Zero(_) => 1,
        _ => 0,
    }
}

/// How many runs the effects tell.
fn runs_in(effects: &[Effect]) -> usize
    ensures count { (c : Configuration) → result ≡ length (runs_told c effects.now) }
    ensures within { result ≤ length effects.now }
{
    let mut count = 0;
    for i in 0..effects.len() {
        count += count_told(&effects[i]);
    }
    count
}

/// Puts the run that an effect tells, if any, at a place of the room, and answers the place behind it.
fn put_told(config: &Config, effect: &Effect, room: &mut [RunTold], at: usize) -> usize
    requires { at + length (told_by config.now effect.now) ≤ length room.old }
    ensures next { result ≡ at + length (told_by config.now effect.now) }
    ensures put { take result room.new ≡ take at room.old ++ told_by config.now effect.now }
    ensures rest { drop result room.new ≡ drop result room.old }
    ensures size { length room.new ≡ length room.old }
{
    match told_by(config, effect) {
        Some(run) => {
            room[at] = run;
            at + 1
        }
        None => at,
    }
}

/// Puts the runs that the effects tell at the start of the room.
fn put_runs(config: &Config, effects: &[Effect], room: &mut [RunTold])
    requires { length (runs_told config.now effects.now) ≤ length room.old }
    ensures { room.new ≡ runs_told config.now effects.now ++ drop (length (runs_told config.now effects.now)) room.old }
{
    let mut at = 0;
    for i in 0..effects.len() {
        at = put_told(config, &effects[i], room, at);
    }
}

/// The bits with this one.
fn with_bit(bits: u32, bit: u8) -> u32
    requires { bit < 32 }
    ensures { result ≡ with_bit bits bit }
{
    bits | 1 << bit
}

/// The bits with that of a log. There are 16 hosts at most.
fn with_log(bits: u32, log: &LogId) -> u32
    ensures { result ≡ with_log bits log.now }
{
    match log {
        LogId::Host(host) => {
            if host.0 < 16 {
                with_bit(bits, host.0)
            } else {
                bits
            }
        }
        LogId::Manager => with_bit(bits, 16),
    }
}

/// The logs that got a record, with that of an effect.
fn grown_by(bits: u32, effect: &Effect) -> u32
    ensures { result ≡ grown_by bits effect.now }
{
    match effect {
        Effect::Logged(log, _) => with_log(bits, log),
        _ => bits,
    }
}

/// The logs that got a record.
fn grown(effects: &[Effect]) -> u32
    ensures { result ≡ fold grown_by 0 effects.now }
{
    let mut bits = 0;
    for i in 0..effects.len() {
        bits = grown_by(bits, &effects[i]);
    }
    bits
}

/// The logs that were full, with that of an effect.
fn filled_by(bits: u32, effect: &Effect) -> u32
    ensures { result ≡ filled_by bits effect.now }
{
    match effect {
        Effect::Missed(log) => with_log(bits, log),
        _ => bits,
    }
}

/// The logs that were full.
fn filled(effects: &[Effect]) -> u32
    ensures { result ≡ fold filled_by 0 effects.now }
{
    let mut bits = 0;
    for i in 0..effects.len() {
        bits = filled_by(bits, &effects[i]);
    }
    bits
}

/// What the step was, with so many runs.
fn step_told(effects: &[Effect], runs: u64) -> StepTold
    ensures { result ≡ step_told effects.now runs }
{
    StepTold {
        size: STEP,
        logs: grown(effects),
        full: filled(effects),
        reserved: 0,
        runs,
    }
}

/// Tells the last step.
fn tell(session: &Session, room: &mut [RunTold], step: &mut StepTold) -> Result<u64, Fault>
    ensures { TellsChanges room.old room.new step.old step.new session.now result }
{
    let effects = session.last.as_slice();
    let runs = runs_in(effects);
    *step = step_told(effects, runs as u64);
    if runs > room.len() {
        return Err(Fault::NoRoom(runs as u64));
    }
    put_runs(session.device.first_config(), effects, room);
    Ok(runs as u64)
}

/// Tells the last step of the handle's device.
pub(crate) fn changes_asked(
    handle: &mut Handle,
    alloc: Global,
    room: &mut [RunTold],
    step: &mut StepTold,
) -> Result<u64, Fault>
    ensures told { TellsPlaceChanges room.old room.new step.old step.new handle.old.place.device result }
    ensures kept { handle.new.place.device ≡ handle.old.place.device }
{
    if !handle.is_open() {
        return Err(Fault::Closed);
    }
    let session = take_out(handle, alloc);
    let outcome = tell(&session, room, step);
    put_in(handle, session);
    outcome
}
