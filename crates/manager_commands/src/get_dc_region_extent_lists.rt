//! 5603h Get DC Region Extent Lists, of the Fabric Manager (CXL 3.1, 7.6.7.6.4; layout: profile).
//! Row: `lists_rule`, device_rules/specs/Settings.antt.
//! Outcome: `lists_reply`, device_rules/specs/Settings.antt; it changes nothing.
//! Bytes: docs/formats.md, 'Commands of the Fabric Manager', 'Replies to the Fabric Manager'.

ghost use Rattle.manager_commands.specs.GetDcRegionExtentLists.{IsListsReply};
ghost use Rattle.manager_commands.specs.ManagerMessages.{ManagerAnswers};
ghost use Rattle.device_state.specs.StateAfter.{IsReached, part_of};
ghost use Rattle.fm_payloads.specs.declared.requests.FmRequest.{FmRequest};
ghost use Rattle.extent_list.specs.HostLists.{extent_total};
ghost use Rattle.std.specs.Prelude.{◌<◌, ◌≤◌, IfOk, length};

use device_commands::{Draft, extents_page};
use device_state::State;
use event_records::dcd_base::{Bytes, HostId, NoMemory};
use extent_list::dcd_codes::{Refusal, Rule};
use extent_list::media_map::region_config::Config;
use fm_payloads::lists_head;
use host_payloads::with_extents;
use std::alloc::Global;

/// At most `count` accepted extents of the host from `first` on, 50 at most (profile).
///
/// The first broken rule comes: `NoSuchHost`; `PastEnd` where the first index is above the number of its extents.
pub(crate) fn get_extent_lists(
    alloc: Global,
    config: &Config,
    state: &State,
    host: u16,
    count: u32,
    first: u32,
) -> Result<Draft, Refusal>
    requires reached { IsReached config.now state.now }
    ensures { ManagerAnswers config.now state.now (FmRequest.GetExtentLists host count first) result }
{
    if host >= u16::from(state.present.hosts()) {
        return Err(Refusal::Broken(Rule::NoSuchHost(host)));
    }
    let total = state.part(HostId(host as u8)).lists.accepted().len() as u32;
    if first > total {
        return Err(Refusal::Broken(Rule::PastEnd { first, total }));
    }
    Ok(Draft::only(alloc, payload_of(alloc, state, host, count, first)?))
}

/// The payload of the reply.
fn payload_of(
    alloc: Global,
    state: &State,
    host: u16,
    count: u32,
    first: u32,
) -> Result<Bytes, NoMemory>
    requires host { host < 256 }
    requires part { host < length state.now.hosts.items }
    requires few { extent_total (part_of state.now host).lists ≤ 64 }
    ensures { IfOk result (IsListsReply state.now host count first) }
{
    let lists = &state.part(HostId(host as u8)).lists;
    let extents = extents_page(lists, count, first);
    let total = lists.accepted().len() as u32;
    let mut payload = Bytes::with_capacity(alloc, 24 + 40 * extents.len())?;
    let head = lists_head(host, first, extents.len() as u32, total, lists.generation());
    payload.extend_from_slice(&head)?;
    with_extents(payload, extents)
}
