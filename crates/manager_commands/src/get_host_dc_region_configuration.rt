//! 5601h Get Host DC Region Configuration, of the Fabric Manager (CXL 3.1, 7.6.7.6.2; layout: profile).
//! Row: `regions_rule`, device_rules/specs/Settings.antt.
//! Outcome: `regions_reply`, device_rules/specs/Settings.antt; it changes nothing.
//! Bytes: docs/formats.md, 'Commands of the Fabric Manager', 'Replies to the Fabric Manager'.

ghost use Rattle.manager_commands.specs.GetHostDcRegionConfiguration.{IsRegionsReply};
ghost use Rattle.manager_commands.specs.ManagerMessages.{ManagerAnswers};
ghost use Rattle.device_state.specs.StateAfter.{IsReached, part_of};
ghost use Rattle.fm_payloads.specs.declared.requests.FmRequest.{FmRequest};
ghost use Rattle.extent_list.specs.HostLists.{extent_total};
ghost use Rattle.host_payloads.specs.HostPayloads.{region_bytes};
ghost use Rattle.std.specs.Prelude.{◌≡◌, ◌++◌, ◌<◌, ◌≤◌, IfOk, OnOk, flat_map, length};

use device_commands::{Draft, Flags, host_counts, regions_seen};
use device_state::State;
use event_records::dcd_base::{Bytes, HostId, NoMemory};
use extent_list::dcd_codes::{Refusal, Rule};
use extent_list::media_map::region_config::Config;
use fm_payloads::regions_head;
use host_payloads::{RegionView, counts_bytes, region_bytes};
use std::alloc::Global;

/// At most `count` regions of the host from `first` on, and what the host may have (profile).
///
/// The first broken rule comes: `NoSuchHost`; `NoSuchRegion` where the first number is at or past the number of
/// regions.
pub(crate) fn get_regions(
    alloc: Global,
    config: &Config,
    state: &State,
    host: u16,
    count: u8,
    first: u8,
) -> Result<Draft, Refusal>
    requires reached { IsReached config.now state.now }
    ensures { ManagerAnswers config.now state.now (FmRequest.GetRegions host count first) result }
{
    if host >= u16::from(state.present.hosts()) {
        return Err(Refusal::Broken(Rule::NoSuchHost(host)));
    }
    if first >= state.present.regions() {
        return Err(Refusal::Broken(Rule::NoSuchRegion(first)));
    }
    Ok(Draft::only(alloc, payload_of(alloc, state, host, count, first)?))
}

/// The payload of the reply.
fn payload_of(
    alloc: Global,
    state: &State,
    host: u16,
    count: u8,
    first: u8,
) -> Result<Bytes, NoMemory>
    requires byte { host < 256 }
    requires host { host < state.now.present.hosts }
    requires parts { length state.now.hosts.items ≡ state.now.present.hosts }
    requires few { extent_total (part_of state.now host).lists ≤ 64 }
    ensures { IfOk result (IsRegionsReply state.now host count first) }
{
    let id = HostId(host as u8);
    let seen = regions_seen(&state.present, id, Flags::OfManager, count, first);
    let views = seen.as_slice();
    let counts = host_counts(&state.part(id).lists);
    let mut payload = Bytes::with_capacity(alloc, 24 + 40 * views.len())?;
    let head = regions_head(host, state.present.regions(), views.len() as u8);
    payload.extend_from_slice(&head)?;
    append_regions(views, &mut payload)?;
    payload.extend_from_slice(&counts_bytes(&counts))?;
    Ok(payload)
}

/// Appends the bytes of each region.
fn append_regions(views: &[RegionView], payload: &mut Bytes) -> Result<(), NoMemory>
    ensures { OnOk result (payload.new ≡ payload.old ++ flat_map region_bytes views.now) }
{
    for i in 0..views.len() {
        payload.extend_from_slice(&region_bytes(&views[i]))?;
    }
    Ok(())
}
