//! 5605h Initiate Dynamic Capacity Release, of the Fabric Manager (CXL 3.1, 7.6.7.6.6; layout: profile).
//! Row: `remove_rule`, device_rules/specs/ReleaseOutcomes.antt.
//! Outcome: `remove_outcome`, device_rules/specs/ReleaseOutcomes.antt; the reply is empty.
//! Bytes: docs/formats.md, 'Commands of the Fabric Manager'.

ghost use Rattle.manager_commands.specs.ManagerMessages.{ManagerAnswers};
ghost use Rattle.manager_commands.specs.InitiateDynamicCapacityRelease.{AnswersRemoval, IsAskedFor, IsDrafted, IsTakenByForce, meant_of};
ghost use Rattle.manager_commands.specs.InitiateDynamicCapacityRelease.{AreGranular, flags_rule, meant_rule_of, remove_request};
ghost use Rattle.device_state.specs.StateAfter.{IsReached, part_of};
ghost use Rattle.extent_list.specs.dcd_codes.specs.Rules.{ByRow};
ghost use Rattle.device_state.specs.device_rules.specs.Outcomes.{log_full};
ghost use Rattle.device_state.specs.device_rules.specs.ReleaseOutcomes.{is_forced};
ghost use Rattle.extent_list.specs.HostLists.{extent_total};
ghost use Rattle.std.specs.Prelude.{◌≡◌, ◌<◌, ◌≤◌, IfOk, length, true};

use crate::full_logs::log_full;
use device_commands::{Draft, append_leaves, records_to, tags_of};
use device_state::State;
use event_records::EventKind;
use event_records::dcd_base::{Bytes, Extents, HostId, LogId, NoMemory, RegionId, Tag};
use extent_list::dcd_codes::{Refusal, Rule};
use extent_list::media_map::region_config::Config;
use journal_core::Effects;
use release_core::{by_tag, removal};
use std::alloc::Global;

/// The bits of the flags: the policy, forced, and cleaning.
const POLICY: u8 = 15;

const FORCED: u8 = 16;

const CLEANING: u8 = 32;

/// The fields of a request, beside its list.
#[derive(Clone, Copy, Debug)]
pub struct RemoveRequest {
    pub host: u16,
    pub flags: u8,
    pub region: u8,
    /// In bytes; no policy reads it.
    pub length: u64,
    pub tag: Tag,
}

/// Asks the host to give extents back, or takes them by force: those with the tag by the policy 0, the listed ones by
/// 1 Prescriptive. A forced removal that cleans soils their granules at once (profile).
///
/// The first broken rule comes: `NoSuchHost`; `UnsupportedFlag` where it cleans without force; `NoSuchPolicy`; the
/// rules of the policy; `LogFull` where the host's log has no room for a record of each extent.
#[inline(never)]
pub fn remove(
    alloc: Global,
    config: &Config,
    state: &State,
    request: &RemoveRequest,
    list: &Extents,
) -> Result<Draft, Refusal>
    requires reached { IsReached config.now state.now }
    ensures { ManagerAnswers config.now state.now (remove_request request.now list.now) result }
{
    // No policy reads the length.
    let _length = request.length;
    if let Some(rule) = flags_rule(state, request) {
        return Err(Refusal::Broken(rule));
    }
    let host = HostId(request.host as u8);
    match extents_meant(alloc, state, host, request, list) {
        Err(refusal) => Err(refusal),
        Ok(leaving) => removal_of(alloc, config, state, host, request.flags, &leaving),
    }
}

/// The rule that is broken where there is no such host, or the flags ask for what there is not.
fn flags_rule(state: &State, request: &RemoveRequest) -> Option<Rule>
    ensures { result ≡ flags_rule state.now.present.hosts request.now.host request.now.flags }
{
    let flags = request.flags;
    if request.host >= u16::from(state.present.hosts()) {
        return Some(Rule::NoSuchHost(request.host));
    }
    if flags & CLEANING != 0 && flags & FORCED == 0 {
        return Some(Rule::UnsupportedFlag);
    }
    let policy = flags & POLICY;
    if policy > 1 {
        return Some(Rule::NoSuchPolicy(policy));
    }
    None
}

/// The extents that are meant: those of the tag, or the listed ones.
fn extents_meant(
    alloc: Global,
    state: &State,
    host: HostId,
    request: &RemoveRequest,
    list: &Extents,
) -> Result<Extents, Refusal>
    requires host { host < state.now.present.hosts }
    requires parts { length state.now.hosts.items ≡ state.now.present.hosts }
    requires few { extent_total (part_of state.now host).lists ≤ 64 }
    ensures row { ByRow (meant_rule_of state.now host request.now list.now) (λ leaving. leaving ≡ meant_of state.now host request.now list.now) result }
    ensures few { IfOk result (λ leaving. length leaving ≤ 64) }
{
    let flags = request.flags;
    let lists = &state.part(host).lists;
    let accepted = lists.accepted();
    if flags & POLICY == 0 {
        by_tag(alloc, accepted, &request.tag)
    } else {
        removal(
            &state.present,
            host,
            accepted,
            lists.offered(),
            RegionId(request.region),
            list,
            flags & FORCED != 0,
        )
    }
}

/// These extents are taken from the host by force, or it is asked for them, where its log has room.
fn removal_of(
    alloc: Global,
    config: &Config,
    state: &State,
    host: HostId,
    flags: u8,
    leaving: &Extents,
) -> Result<Draft, Refusal>
    requires reached { IsReached config.now state.now }
    requires host { host < state.now.present.hosts }
    requires few { length leaving.now ≤ 64 }
    requires granular { is_forced flags ≡ true → AreGranular config.now host leaving.now }
    ensures { AnswersRemoval config.now state.now host flags leaving.now result }
{
    if let Some(rule) = log_full(state, host, leaving.len() as u32) {
        return Err(Refusal::Broken(rule));
    }
    if flags & FORCED == 0 {
        Ok(by_request(alloc, host, leaving)?)
    } else {
        let cleaning = flags & CLEANING != 0;
        Ok(by_force(alloc, config, host, cleaning, leaving)?)
    }
}

/// The extents are taken from the host.
fn by_force(
    alloc: Global,
    config: &Config,
    host: HostId,
    cleaning: bool,
    leaving: &Extents,
) -> Result<Draft, NoMemory>
    requires host { host < config.now.hosts }
    requires granular { AreGranular config.now host leaving.now }
    ensures { IfOk result (IsTakenByForce config.now host cleaning leaving.now) }
{
    let mut changes = Effects::new(alloc);
    append_leaves(config, host, cleaning, leaving.as_slice(), &mut changes)?;
    removal_draft(alloc, host, EventKind::Forced, changes, leaving)
}

/// The host is asked to give the extents back.
fn by_request(alloc: Global, host: HostId, leaving: &Extents) -> Result<Draft, NoMemory>
    ensures { IfOk result (IsAskedFor host leaving.now) }
{
    removal_draft(
        alloc,
        host,
        EventKind::Release,
        Effects::new(alloc),
        leaving,
    )
}

/// These changes, by which the tags of the extents may end, and a record of each extent for the host.
fn removal_draft(
    alloc: Global,
    host: HostId,
    kind: EventKind,
    changes: Effects,
    leaving: &Extents,
) -> Result<Draft, NoMemory>
    ensures { IfOk result (IsDrafted host kind changes leaving.now) }
{
    let extents = leaving.as_slice();
    let tags = tags_of(alloc, extents)?;
    let log_records = records_to(alloc, LogId::Host(host), host, kind, extents)?;
    Ok(Draft {
        payload: Bytes::new(alloc),
        changes,
        tags,
        log_records,
    })
}
