//! 5604h Initiate Dynamic Capacity Add, of the Fabric Manager (CXL 3.1, 7.6.7.6.5; layout: profile).
//! Row: `add_rule`, device_rules/specs/Adding.antt.
//! Outcome: `add_outcome`, device_rules/specs/Adding.antt; the reply is empty.
//! Bytes: docs/formats.md, 'Commands of the Fabric Manager'.

ghost use Rattle.manager_commands.specs.ManagerMessages.{ManagerAnswers};
ghost use Rattle.manager_commands.specs.InitiateDynamicCapacityAdd.{AnswersOffer, IsRoomRule, add_request, request_rule, DraftOffers};
ghost use Rattle.manager_commands.specs.InitiateDynamicCapacityAdd.{is_used_tag, is_with_hosts, lists_have, target_rule, room_rule, shared_rule};
ghost use Rattle.manager_commands.specs.InitiateDynamicCapacityAdd.{tag_rule};
ghost use Rattle.extent_list.specs.ExtentLists.{has_extent_of, real_tags};
ghost use Rattle.journal_core.specs.declared.outcome.Effect.{Effect};
ghost use Rattle.device_state.specs.StateAfter.{IsReached, part_of};
ghost use Rattle.event_records.specs.dcd_base.specs.declared.steps.LogId.{LogId};
ghost use Rattle.extent_list.specs.HostLists.{extent_total, extents_of_lists};
ghost use Rattle.std.specs.List.{list_any};
ghost use Rattle.std.specs.Prelude.{◌≡◌, ◌++◌, ◌+◌, ◌-◌, ◌==◌, ◌^◌, ◌<◌, ◌≤◌, IfOk, length};
ghost use Rattle.tag_refs.specs.Tables.{passes};
ghost use Rattle.tag_refs.specs.declared.entries.TagEntry.{TagEntry};

use crate::choosing::{Asked, new_extents};
use crate::full_logs::log_full;
use device_commands::{Draft, records_to};
use device_state::State;
use device_state::host_lists::HostLists;
use event_records::EventKind;
use event_records::dcd_base::limits::TAGS;
use event_records::dcd_base::{
    Bytes, Extent, Extents, HostId, LogId, NoMemory, RegionId, Seq, Tag, is_no_tag,
};
use extent_list::dcd_codes::{Refusal, Rule};
use extent_list::media_map::region_config::Config;
use extent_list::{same_tag, too_many_extents};
use journal_core::{Effect, Effects};
use std::alloc::Global;

/// The policies above 0 Free.
pub(crate) const CONTIGUOUS: u8 = 1;

pub(crate) const PRESCRIPTIVE: u8 = 2;

pub(crate) const SHARED: u8 = 3;

/// The fields of a request, beside its list.
#[derive(Clone, Copy, Debug)]
pub struct AddRequest {
    pub host: u16,
    pub policy: u8,
    pub region: u8,
    /// In bytes.
    pub length: u64,
    pub tag: Tag,
}

/// Offers capacity of a region to the host: so many bytes by the policies 0 Free and 1 Contiguous, the listed extents
/// by 2 Prescriptive, and the granules of an open tag by 3 Enable Shared Access (profile).
///
/// The first broken rule comes, in the order of the code.
#[inline(never)]
pub fn add(
    alloc: Global,
    config: &Config,
    state: &State,
    request: &AddRequest,
    list: &Extents,
) -> Result<Draft, Refusal>
    requires reached { IsReached config.now state.now }
    ensures { ManagerAnswers config.now state.now (add_request request.now list.now) result }
{
    // That granules are of the device rests on what every configuration keeps.
    let _regions = state.present.regions();
    if let Some(rule) = target_rule(state, request) {
        return Err(Refusal::Broken(rule));
    }
    let asked = Asked {
        host: HostId(request.host as u8),
        policy: request.policy,
        region: RegionId(request.region),
        length: request.length,
        tag: request.tag,
    };
    if let Some(rule) = tag_rule(state, &asked) {
        return Err(Refusal::Broken(rule));
    }
    match new_extents(alloc, state, &asked, list) {
        Err(refusal) => Err(refusal),
        Ok(extents) => offer_of(alloc, state, asked.host, extents),
    }
}

/// The extents are offered, where the host and its log have room for them.
fn offer_of(alloc: Global, state: &State, host: HostId, extents: Extents) -> Result<Draft, Refusal>
    requires part { host < length state.now.hosts.items }
    requires few { extent_total (part_of state.now host).lists ≤ 64 }
    requires listed { length extents < 2 ^ 16 }
    ensures { AnswersOffer state.now host extents result }
{
    if let Some(rule) = room_rule(state, host, &extents) {
        return Err(Refusal::Broken(rule));
    }
    Ok(offer_draft(alloc, host, extents)?)
}

/// The rule that is broken where there is no such host, policy or region.
fn target_rule(state: &State, request: &AddRequest) -> Option<Rule>
    ensures { result ≡ request_rule state.now request.now }
{
    if request.host >= u16::from(state.present.hosts()) {
        return Some(Rule::NoSuchHost(request.host));
    }
    if request.policy > SHARED {
        return Some(Rule::NoSuchPolicy(request.policy));
    }
    if request.region >= state.present.regions() {
        return Some(Rule::NoSuchRegion(request.region));
    }
    None
}

/// The rule that is broken where the tag cannot be offered by this policy in this region to this host.
fn tag_rule(state: &State, asked: &Asked) -> Option<Rule>
    requires host { asked.now.host < state.now.present.hosts }
    requires parts { length state.now.hosts.items ≡ state.now.present.hosts }
    requires policy { asked.now.policy ≤ 3 }
    requires region { asked.now.region < length state.now.present.regions }
    ensures { result ≡ tag_rule state.now asked.now.host asked.now.policy asked.now.region asked.now.tag }
{
    let shareable = state.present.region(asked.region).shareable;
    if asked.policy == SHARED && !shareable {
        return Some(Rule::NotShareable(asked.region.0));
    }
    if is_no_tag(&asked.tag) && shareable {
        return Some(Rule::ZeroTag);
    }
    if asked.policy == SHARED {
        return shared_rule(state, asked);
    }
    if is_in_use(state, &asked.tag) {
        return Some(Rule::TagInUse);
    }
    None
}

/// The rule that is broken where the open tag cannot be shared with this host.
fn shared_rule(state: &State, asked: &Asked) -> Option<Rule>
    requires host { asked.now.host < length state.now.hosts.items }
    ensures { result ≡ shared_rule state.now asked.now.host asked.now.region asked.now.tag }
{
    if !is_open_in(state, asked.region, &asked.tag) {
        return Some(Rule::NoSuchTag);
    }
    if has_tag(state, asked.host, &asked.tag) {
        return Some(Rule::AlreadyShared);
    }
    None
}

/// Whether a host has the tag or is offered it, or the manager refers to it.
fn is_in_use(state: &State, tag: &Tag) -> bool
    requires parts { length state.now.hosts.items ≡ state.now.present.hosts }
    ensures { result ≡ is_used_tag state.now tag.now }
{
    !is_no_tag(tag) && (is_with_a_host(state, tag) || state.tags.is_referenced(tag))
}

/// Whether a host has the tag or is offered it.
fn is_with_a_host(state: &State, tag: &Tag) -> bool
    requires parts { length state.now.hosts.items ≡ state.now.present.hosts }
    ensures { result ≡ is_with_hosts state.now tag.now }
{
    for host in 0..state.present.hosts() {
        if has_tag(state, HostId(host), tag) {
            return true;
        }
    }
    false
}

/// Whether the host has the tag or is offered it.
fn has_tag(state: &State, host: HostId, tag: &Tag) -> bool
    requires { host < length state.now.hosts.items }
    ensures { result ≡ lists_have tag.now (part_of state.now host).lists }
{
    let lists = &state.part(host).lists;
    lists.has_accepted(tag) || is_offered(lists, tag)
}

/// Whether an extent of an unanswered offer has the tag.
fn is_offered(lists: &HostLists, tag: &Tag) -> bool
    ensures { result ≡ list_any (has_extent_of tag.now) lists.now.offers }
{
    for i in 0..lists.offer_count() {
        if has_extent(lists.offer_at(i), tag) {
            return true;
        }
    }
    false
}

/// Whether one of the extents has the tag. They are looked at one by one, since most offers have few.
fn has_extent(extents: &[Extent], tag: &Tag) -> bool
    ensures { result ≡ has_extent_of tag.now extents.now }
{
    for i in 0..extents.len() {
        if same_tag(&extents[i].tag, tag) {
            return true;
        }
    }
    false
}

/// Whether the tag is open in the region.
fn is_open_in(state: &State, region: RegionId, tag: &Tag) -> bool
    ensures { result ≡ passes tag.now (λ (e : TagEntry). e.region == region) state.now.tags.entries }
{
    match state.tags.find(tag) {
        Some(entry) => entry.region.0 == region.0,
        None => false,
    }
}

/// How many tags the host would have with these extents.
fn tags_with(state: &State, host: HostId, extents: &Extents) -> u32
    requires part { host < length state.now.hosts.items }
    requires few { extent_total (part_of state.now host).lists ≤ 64 }
    requires listed { length extents.now < 2 ^ 16 }
    ensures { result ≡ length (real_tags (extents_of_lists (part_of state.now host).lists ++ extents.now)) }
{
    state.part(host).lists.tags_with(extents.as_slice())
}

/// The rule that is broken where the host would have too many extents or tags, or its log has no room.
fn room_rule(state: &State, host: HostId, extents: &Extents) -> Option<Rule>
    requires part { host < length state.now.hosts.items }
    requires few { extent_total (part_of state.now host).lists ≤ 64 }
    requires listed { length extents.now < 2 ^ 16 }
    ensures { IsRoomRule state.now host extents.now result }
{
    let lists = &state.part(host).lists;
    let total = lists.accepted().len() + lists.offered() + extents.as_slice().len();
    if let Some(rule) = too_many_extents(total) {
        return Some(rule);
    }
    let tags = tags_with(state, host, extents);
    if tags > TAGS {
        return Some(Rule::TooManyTags(tags));
    }
    log_full(state, host, extents.len() as u32)
}

/// The offer, and a record for each extent.
fn offer_draft(alloc: Global, host: HostId, extents: Extents) -> Result<Draft, NoMemory>
    ensures { IfOk result (DraftOffers host extents) }
{
    let (to, kind) = (LogId::Host(host), EventKind::Add);
    let log_records = records_to(alloc, to, host, kind, extents.as_slice())?;
    let mut changes = Effects::new(alloc);
    changes.push(Effect::Offer(host, extents))?;
    Ok(Draft {
        payload: Bytes::new(alloc),
        changes,
        tags: Seq::new(alloc),
        log_records,
    })
}
