//! 5602h Set DC Region Configuration, of the Fabric Manager (CXL 3.1, 7.6.7.6.3; layout: profile).
//! Row: `set_rule`, device_rules/specs/Settings.antt.
//! Outcome: `set_outcome`, device_rules/specs/Settings.antt; the reply is empty.
//! Bytes: docs/formats.md, 'Commands of the Fabric Manager'.

ghost use Rattle.manager_commands.specs.SetDcRegionConfiguration.{IsFirstFull, IsSet, size_rule, told_to_all, used_in};
ghost use Rattle.manager_commands.specs.ManagerMessages.{ManagerAnswers};
ghost use Rattle.device_state.specs.StateAfter.{IsReached};
ghost use Rattle.fm_payloads.specs.declared.requests.FmRequest.{FmRequest};
ghost use Rattle.device_state.specs.device_rules.specs.Outcomes.{log_full};
ghost use Rattle.selection.specs.granule_map.specs.StateLists.{is_free_at};
ghost use Rattle.extent_list.specs.media_map.specs.region_config.specs.Granules.{granule_total, region_spec};
ghost use Rattle.event_records.specs.dcd_base.specs.declared.ids.HostId.{HostId};
ghost use Rattle.std.specs.Prelude.{◌≡◌, ◌+◌, ◌<◌, ◌≤◌, IfOk, count_by, if◌then◌else◌, length, not};
ghost use Rattle.std.specs.List.{range_with_len};

use crate::full_logs::log_full;
use device_commands::{Draft, LogRecords, Told};
use device_state::State;
use event_records::dcd_base::{Bytes, Granule, HostId, LogId, NoMemory, RegionId, Seq, ShortList};
use extent_list::dcd_codes::{Refusal, Rule};
use extent_list::media_map::region_config::{BlockFault, Config};
use journal_core::{Effect, Effects};
use std::alloc::Global;

/// Gives a region blocks of another size, in bytes (profile). Each host is told, also where the size is the old one.
///
/// The first broken rule comes: `NoSuchRegion`; `NotSupportedSize`; `SanitizeDiffers`; `RegionInUse` with how many of
/// its granules are not free; `LogFull` of the first host whose log has no room for a record.
#[inline(never)]
pub(crate) fn set_region(
    alloc: Global,
    config: &Config,
    state: &State,
    region: u8,
    sanitize: bool,
    block: u64,
) -> Result<Draft, Refusal>
    requires reached { IsReached config.now state.now }
    ensures { ManagerAnswers config.now state.now (FmRequest.SetRegion region sanitize block) result }
{
    if region >= state.present.regions() {
        return Err(Refusal::Broken(Rule::NoSuchRegion(region)));
    }
    if let Some(rule) = block_rule(state, RegionId(region), sanitize, block)? {
        return Err(Refusal::Broken(rule));
    }
    if let Some(rule) = first_full(state) {
        return Err(Refusal::Broken(rule));
    }
    Ok(region_draft(alloc, state, RegionId(region), block)?)
}

/// The rule that a size breaks which the region cannot have now: it is tried on a copy of the configuration.
fn block_rule(
    state: &State,
    region: RegionId,
    sanitize: bool,
    block: u64,
) -> Result<Option<Rule>, NoMemory>
    requires known { region < length state.now.present.regions }
    requires granules { length state.now.granules.states ≡ granule_total state.now.present }
    ensures { IfOk result (λ found. found ≡ size_rule (region_spec state.now.present region) block sanitize (used_in state.now region)) }
{
    let mut trial = state.present.copy()?;
    let in_use = in_use(state, region);
    match trial.set_block_size(region, block, sanitize, in_use) {
        Ok(()) => Ok(None),
        Err(BlockFault::NotSupportedSize(size)) => Ok(Some(Rule::NotSupportedSize(size))),
        Err(BlockFault::SanitizeDiffers) => Ok(Some(Rule::SanitizeDiffers)),
        Err(BlockFault::InUse(granules)) => Ok(Some(Rule::RegionInUse(granules))),
    }
}

/// How many granules of the region are not free.
fn in_use(state: &State, region: RegionId) -> u32
    requires known { region < length state.now.present.regions }
    requires granules { length state.now.granules.states ≡ granule_total state.now.present }
    ensures { result ≡ used_in state.now region }
{
    let run = state.present.granules_of(region);
    used_from(state, run.first.0, run.count)
}

/// How many granules are not free of so many from one on.
fn used_from(state: &State, first: u32, count: u32) -> u32
    requires { first + count ≤ length state.now.granules.states }
    ensures { result ≡ count_by (λ g. not (is_free_at state.now.granules.states g)) (range_with_len first count) }
{
    let _granules = state.granules.len();
    let mut in_use = 0;
    for offset in 0..count {
        in_use += use_of(state, Granule(first + offset));
    }
    in_use
}

/// One for a granule that is not free.
fn use_of(state: &State, granule: Granule) -> u32
    requires { granule < length state.now.granules.states }
    ensures { result ≡ (if not (is_free_at state.now.granules.states granule) then 1 else 0) }
{
    let state = state.granules.states().at(granule);
    if state.is_free() { 0 } else { 1 }
}

/// The rule that the first full log of a host breaks.
fn first_full(state: &State) -> Option<Rule>
    requires { length state.now.hosts.items ≡ state.now.present.hosts }
    ensures { IsFirstFull state.now result }
{
    for host in 0..state.present.hosts() {
        if let Some(rule) = log_full(state, HostId(host), 1) {
            return Some(rule);
        }
    }
    None
}

/// The new block size, and a record for each host.
fn region_draft(
    alloc: Global,
    state: &State,
    region: RegionId,
    block: u64,
) -> Result<Draft, NoMemory>
    ensures { IfOk result (IsSet state.now region block) }
{
    let log_records = records_for_all(alloc, state.present.hosts(), region)?;
    let mut changes = Effects::new(alloc);
    changes.push(Effect::Block(region, block))?;
    Ok(Draft {
        payload: Bytes::new(alloc),
        changes,
        tags: Seq::new(alloc),
        log_records,
    })
}

/// A record for each host.
fn records_for_all(
    alloc: Global,
    hosts: u8,
    region: RegionId,
) -> Result<ShortList<LogRecords>, NoMemory>
    ensures { IfOk result (λ records. records ≡ told_to_all region (range_with_len 0 hosts)) }
{
    let mut log_records = Seq::new(alloc);
    for host in 0..hosts {
        log_records.push(LogRecords {
            log: LogId::Host(HostId(host)),
            host: HostId(host),
            told: Told::Region(region),
        })?;
    }
    Ok(ShortList::of_list(log_records))
}
