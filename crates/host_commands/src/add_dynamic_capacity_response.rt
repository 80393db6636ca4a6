//! 4802h Add Dynamic Capacity Response, of a host (CXL 3.1, 8.2.9.9.9.3).
//! Row: `respond_rule`, offer_core/specs/Responses.antt.
//! Outcome: `respond_outcome`, device_rules/specs/ResponseOutcomes.antt; the reply is empty.
//! Bytes: docs/formats.md, 'Commands of a host'.

ghost use Rattle.cci_codec.specs.dcd_base.specs.declared.steps.LogId.{LogId};
ghost use Rattle.host_commands.specs.AddDynamicCapacityResponse.{IsAnswered, Responds, answer_changes, takes, told_extents};
ghost use Rattle.host_commands.specs.HostMessages.{AnswersByLists};
ghost use Rattle.device_commands.specs.declared.log_records.Told.{Told};
ghost use Rattle.event_records.specs.declared.events.EventKind.{EventKind};
ghost use Rattle.extent_list.specs.HostLists.{extent_total};
ghost use Rattle.extent_list.specs.media_map.specs.Places.{is_granular};
ghost use Rattle.host_payloads.specs.declared.requests.HostRequest.{HostRequest};
ghost use Rattle.journal_core.specs.declared.outcome.Effect.{Effect};
ghost use Rattle.journal_core.specs.declared.outcome.HeldKind.{HeldKind};
ghost use Rattle.offer_core.specs.Responses.{respond_rule};
ghost use Rattle.std.specs.Prelude.{◌≡◌, ◌++◌, ◌∷◌, ◌<◌, ◌≤◌, [], All, IfOk, IsTrue, None, OnOk, length};

use crate::held_lists::{append_unhold, held, unheld};
use cci_codec::dcd_base::{Bytes, Extent, Extents, HostId, LogId, NoMemory, ShortList};
use device_commands::host_lists::HostLists;
use device_commands::{Draft, LogRecords, append_effect, no_extent, records_to, run_of, tags_of};
use event_records::EventKind;
use extent_list::dcd_codes::Refusal;
use extent_list::media_map::region_config::Config;
use journal_core::{Effect, Effects, HeldKind};
use offer_core::broken_rule;
use std::alloc::Global;
use std::mem::replace;

/// The host's response to its oldest offer: this list behind what it holds of earlier messages, and whether more
/// messages are to follow (CXL 3.1, 8.2.9.9.9.3).
///
/// The first broken rule of the row comes where one is broken. `config` is the configuration that the device was made
/// with, `present` the one with the present blocks. They have the same granules, so that only `present` is read.
#[inline(never)]
pub fn add_response(
    alloc: Global,
    config: &Config,
    present: &Config,
    host: HostId,
    lists: &HostLists,
    more: bool,
    list: &Extents,
) -> Result<Draft, Refusal>
    requires host { host < config.now.hosts }
    requires hosts { present.now.hosts ≡ config.now.hosts }
    requires few { extent_total lists.now ≤ 64 }
    ensures { AnswersByLists config.now present.now host lists.now (HostRequest.AddResponse more list.now) result }
{
    let (accepted, offers) = (lists.accepted().len(), lists.offers());
    if let Some(rule) = broken_rule(present, host, accepted, offers, list.as_slice(), more)? {
        return Err(Refusal::Broken(rule));
    }
    Ok(responded(alloc, present, host, lists, more, list)?)
}

/// What a response does that breaks no rule: its list is held where more messages are to follow, and else the oldest offer is
/// answered, where there is one.
fn responded(
    alloc: Global,
    present: &Config,
    host: HostId,
    lists: &HostLists,
    more: bool,
    list: &Extents,
) -> Result<Draft, NoMemory>
    requires host { host < present.now.hosts }
    requires row { respond_rule present.now host (length lists.now.accepted) lists.now.offers lists.now.responses more list.now ≡ None }
    ensures { IfOk result (Responds present.now host lists.now more list.now) }
{
    // What is made of present blocks is made of granules, in every configuration.
    let _regions = present.regions();
    if more {
        return held(alloc, host, HeldKind::Responses, list);
    }
    if lists.offer_count() == 0 {
        return unheld(alloc, host, HeldKind::Responses, lists.responses());
    }
    let accepted = lists.offers().accepted_of(list)?;
    answered(alloc, present, host, lists, accepted)
}

/// The oldest offer is answered: these extents are accepted of it.
fn answered(
    alloc: Global,
    present: &Config,
    host: HostId,
    lists: &HostLists,
    accepted: Extents,
) -> Result<Draft, NoMemory>
    requires host { host < present.now.hosts }
    requires granular { All (λ x. IsTrue (is_granular present.now host x.start x.length)) accepted }
    ensures { IfOk result (IsAnswered present.now host lists.now accepted) }
{
    let tags = tags_of(alloc, lists.oldest())?;
    let log_records = records_to_manager(alloc, host, accepted.as_slice())?;
    let mut changes = Effects::new(alloc);
    append_answer(alloc, present, host, lists, accepted, &mut changes)?;
    Ok(Draft {
        payload: Bytes::new(alloc),
        changes,
        tags,
        log_records,
    })
}

/// What the Fabric Manager is told: each accepted extent, or one of zeros where none is accepted.
fn records_to_manager(
    alloc: Global,
    host: HostId,
    accepted: &[Extent],
) -> Result<ShortList<LogRecords>, NoMemory>
    ensures { IfOk result (λ records. records ≡ record { log = LogId.Manager; host = host; told = Told.Extents EventKind.AddResponse (told_extents accepted.now) } ∷ []) }
{
    let (to, kind) = (LogId::Manager, EventKind::AddResponse);
    if accepted.is_empty() {
        return records_to(alloc, to, host, kind, &[no_extent()]);
    }
    records_to(alloc, to, host, kind, accepted)
}

/// What is held goes, the offer is answered, and the host takes the extents. Their list is not copied: it is put into
/// its place once the runs are made of it.
fn append_answer(
    alloc: Global,
    present: &Config,
    host: HostId,
    lists: &HostLists,
    accepted: Extents,
    effects: &mut Effects,
) -> Result<(), NoMemory>
    requires host { host < present.now.hosts }
    requires granular { All (λ x. IsTrue (is_granular present.now host x.start x.length)) accepted }
    requires none { effects.old ≡ [] }
    ensures { OnOk result (effects.new ≡ answer_changes present.now host lists.now accepted) }
{
    append_unhold(host, HeldKind::Responses, lists.responses(), effects)?;
    if accepted.is_empty() {
        return append_effect(effects, Effect::Answer(host, accepted));
    }
    let at = effects.len();
    let mut changes = replace(effects, Effects::new(alloc)).into_vec();
    changes.push(Effect::Answer(host, Extents::new(alloc)))?;
    append_takes(present, host, accepted.as_slice(), &mut changes)?;
    changes[at] = Effect::Answer(host, accepted);
    *effects = Effects::from_vec(alloc, changes);
    Ok(())
}

/// The host takes each of the extents.
#[inline(never)]
fn append_takes(
    present: &Config,
    host: HostId,
    extents: &[Extent],
    changes: &mut Vec<Effect>,
) -> Result<(), NoMemory>
    requires host { host < present.now.hosts }
    requires granular { All (λ x. IsTrue (is_granular present.now host x.start x.length)) extents.now }
    ensures { OnOk result (changes.new.items ≡ changes.old.items ++ takes present.now host extents.now) }
{
    changes.reserve(extents.len())?;
    for i in 0..extents.len() {
        changes.push_reserved(Effect::Take(host, run_of(present, host, &extents[i])));
    }
    Ok(())
}
