//! What a message of a host comes to: its draft with the ends of tags and the records behind it, or the refusal.

ghost use Rattle.cci_codec.specs.dcd_base.specs.declared.steps.Actor.{Actor};
ghost use Rattle.control_core.specs.Deciding.{IsDecided};
ghost use Rattle.control_core.specs.Doing.{Does, Drafted, Refuses};
ghost use Rattle.control_core.specs.Recording.{AreRecorded, ending_with};
ghost use Rattle.device_commands.specs.declared.log_records.LogRecords.{LogRecords};
ghost use Rattle.journal_core.specs.declared.acts.Act.{Act};
ghost use Rattle.journal_core.specs.declared.outcome.Effect.{Effect};
ghost use Rattle.manager_commands.specs.device_state.specs.EnteredLists.{Fits, lists_of};
ghost use Rattle.manager_commands.specs.device_state.specs.StateAfter.{IsReached};
ghost use Rattle.manager_commands.specs.device_state.specs.Updates.{IsOfLog};
ghost use Rattle.std.specs.Prelude.{◌≡◌, ◌++◌, ◌<◌, All, IfOk, OnOk, length, map, true};

use crate::decided::Decided;
use crate::ending::ending;
use crate::fitting::part_fits;
use crate::recording::{append_ends, append_records_of_logs};
use cci_codec::Request;
use cci_codec::dcd_base::{HostId, NoMemory, Tag};
use device_commands::host_lists::HostLists;
use device_commands::{Draft, answer, refused};
use extent_list::dcd_codes::{Code, Refusal, Rule};
use extent_list::media_map::region_config::Config;
use host_commands::{dropped, host_draft};
use journal_core::Effects;
use manager_commands::device_state::State;
use std::alloc::Global;

/// What a message of a host comes to. `after` is lent for the lists of the host as the step leaves them.
///
/// It stands apart, as the steps of the others do, so that none makes room for what another needs.
#[inline(never)]
pub(crate) fn host_step(
    alloc: Global,
    config: &Config,
    state: &State,
    host: HostId,
    request: &Request,
    after: &mut HostLists,
) -> Result<Decided, NoMemory>
    requires host { host < config.now.hosts }
    requires reached { IsReached config.now state.now }
    ensures { IfOk result (IsDecided config.now state.now (Actor.Host host) (Act.Command request.now)) }
{
    let part = state.part(host);
    let drafted = host_draft(
        alloc,
        config,
        &state.present,
        host,
        &part.lists,
        &part.log,
        request,
    );
    host_decided(alloc, config, state, host, request, drafted, after)
}

/// What a message of a host comes to, where it is drafted so or breaks this rule first.
fn host_decided(
    alloc: Global,
    config: &Config,
    state: &State,
    host: HostId,
    request: &Request,
    drafted: Result<Draft, Refusal>,
    after: &mut HostLists,
) -> Result<Decided, NoMemory>
    requires host { host < config.now.hosts }
    requires reached { IsReached config.now state.now }
    requires drafted { Drafted config.now state.now host request.now drafted }
    ensures { IfOk result (IsDecided config.now state.now (Actor.Host host) (Act.Command request.now)) }
{
    part_fits(state.part(host));
    match drafted {
        Ok(draft) => enacted(alloc, config, state, host, request, draft, after),
        Err(Refusal::Broken(rule)) => refused_by(alloc, config, state, host, request, &rule),
        Err(Refusal::NoMemory) => Err(NoMemory),
    }
}

/// What a command comes to that breaks no rule, by which the lists of this host alone may change.
pub(crate) fn enacted(
    alloc: Global,
    config: &Config,
    state: &State,
    host: HostId,
    request: &Request,
    draft: Draft,
    after: &mut HostLists,
) -> Result<Decided, NoMemory>
    requires host { host < config.now.hosts }
    requires part { host < length state.now.hosts.items }
    requires few { host < 16 }
    requires known { All (λ (n : LogRecords). IsOfLog (length state.now.hosts.items) n.log) draft.log_records }
    requires fits { Fits config.now (lists_of state.now) 1 draft.changes }
    ensures { IfOk result (Does config.now state.now host request.now draft) }
{
    let mut draft = draft;
    append_ends_and_records(alloc, config, state, host, &mut draft, after)?;
    let Draft {
        payload,
        changes,
        tags: _,
        log_records: _,
    } = draft;
    Ok(Decided {
        reply: answer(request, Code::Success, payload),
        effects: changes,
    })
}

/// Puts behind the changes the ends of those of the tags that end, and the records, both by the lists of the host once the
/// changes are made.
fn append_ends_and_records(
    alloc: Global,
    config: &Config,
    state: &State,
    host: HostId,
    draft: &mut Draft,
    after: &mut HostLists,
) -> Result<(), NoMemory>
    requires host { host < config.now.hosts }
    requires part { host < length state.now.hosts.items }
    requires few { host < 16 }
    requires known { All (λ (n : LogRecords). IsOfLog (length state.now.hosts.items) n.log) draft.old.log_records }
    requires fits { Fits config.now (lists_of state.now) 1 draft.old.changes }
    ensures effects { OnOk result (AreRecorded config.now state.now host draft.old draft.new.changes) }
    ensures payload { OnOk result (draft.new.payload ≡ draft.old.payload) }
{
    if tells_nothing(draft) {
        return Ok(());
    }
    state.lists_after(config, host, draft.changes.as_slice(), after)?;
    append_ended(
        alloc,
        state,
        host,
        after,
        draft.tags.as_slice(),
        &mut draft.changes,
    )?;
    append_records_of_logs(alloc, state, after, &draft.log_records, &mut draft.changes)
}

/// Whether no tag may end by a draft, and nothing is told.
fn tells_nothing(draft: &Draft) -> bool
    ensures { result ≡ true → (length draft.now.tags ≡ 0) × (length draft.now.log_records ≡ 0) }
{
    draft.tags.is_empty() && draft.log_records.is_empty()
}

/// Puts the ends of those of these tags that end once the host has these lists.
fn append_ended(
    alloc: Global,
    state: &State,
    host: HostId,
    lists: &HostLists,
    tags: &[Tag],
    effects: &mut Effects,
) -> Result<(), NoMemory>
    requires few { host < 16 }
    ensures { OnOk result (effects.new ≡ effects.old ++ map Effect.TagEnd (ending_with host lists.now state.now.tags.entries tags.now)) }
{
    if state.tags.is_empty() {
        return Ok(());
    }
    let ended = ending(alloc, state, host, lists, tags)?;
    append_ends(ended.as_slice(), effects)
}

/// A command that breaks a rule: where it is a response or a release, its held list ends.
fn refused_by(
    alloc: Global,
    config: &Config,
    state: &State,
    host: HostId,
    request: &Request,
    rule: &Rule,
) -> Result<Decided, NoMemory>
    requires host { host < config.now.hosts }
    requires reached { IsReached config.now state.now }
    ensures { IfOk result (Refuses config.now state.now host request.now rule.now) }
{
    let lists = &state.part(host).lists;
    let reply = refused(alloc, request, rule);
    let effects = dropped(alloc, host, lists, request.opcode)?;
    Ok(Decided { reply, effects })
}
