//! A command of the Fabric Manager, from its message to its response and effects.

ghost use Rattle.control_core.specs.Deciding.{IsDecided};
ghost use Rattle.manager_commands.specs.device_state.specs.StateAfter.{IsReached};
ghost use Rattle.control_core.specs.Managing.{EntersDraft, Manages, ended_by, changed_host};
ghost use Rattle.manager_commands.specs.ManagerMessages.{FewCleared, ManagerAnswers};
ghost use Rattle.manager_commands.specs.device_state.specs.Updates.{IsOfLog};
ghost use Rattle.cci_codec.specs.dcd_base.specs.declared.steps.Actor.{Actor};
ghost use Rattle.fm_payloads.specs.ManagerPayloads.{manager_request};
ghost use Rattle.device_commands.specs.declared.log_records.LogRecords.{LogRecords};
ghost use Rattle.journal_core.specs.declared.acts.Act.{Act};
ghost use Rattle.std.specs.Prelude.{◌≡◌, ◌<◌, ◌∷◌, [], All, IfOk, false, if◌then◌else◌, length, not};
ghost use Rattle.std.specs.declared.result.Result.TheVariants.{Ok};
ghost use Rattle.tag_refs.specs.Tables.{is_used, passes, with_reference};

use crate::decided::Decided;
use crate::fitting::request_fits;
use crate::host_steps::enacted;
use crate::recording::{append_ends, append_records_of_hosts};
use cci_codec::Request;
use cci_codec::dcd_base::{HostId, NoMemory, Seq, Tag};
use device_commands::host_lists::HostLists;
use device_commands::{Draft, answer, refused};
use extent_list::dcd_codes::{Code, Refusal, Rule};
use extent_list::media_map::region_config::Config;
use fm_payloads::{FmRequest, PayloadFault, decode};
use manager_commands::device_state::State;
use manager_commands::manager_draft;
use std::alloc::Global;

/// What a message of the manager comes to. `after` is lent for the lists of a host as the step leaves them.
#[inline(never)]
pub(crate) fn manager_step(
    alloc: Global,
    config: &Config,
    state: &State,
    request: &Request,
    after: &mut HostLists,
) -> Result<Decided, NoMemory>
    requires reached { IsReached config.now state.now }
    ensures { IfOk result (IsDecided config.now state.now Actor.Manager (Act.Command request.now)) }
{
    match decode(alloc, request.opcode, request.payload.as_slice()) {
        Ok(asked) => {
            let managed = decide(alloc, config, state, request, &asked, after);
            manager_decided(alloc, config, state, request, managed)
        }
        Err(PayloadFault::UnknownOpcode(opcode)) => {
            let broken = Err(Refusal::Broken(Rule::UnknownOpcode(opcode)));
            manager_decided(alloc, config, state, request, broken)
        }
        Err(PayloadFault::WrongLength { need, have }) => {
            let broken = Err(Refusal::Broken(Rule::WrongLength { need, have }));
            manager_decided(alloc, config, state, request, broken)
        }
        Err(PayloadFault::NoMemory) => Err(NoMemory),
    }
}

/// What a message of the manager comes to, where it comes to this or breaks this rule first.
#[inline(always)]
fn manager_decided(
    alloc: Global,
    config: &Config,
    state: &State,
    request: &Request,
    managed: Result<Decided, Refusal>,
) -> Result<Decided, NoMemory>
    requires reached { IsReached config.now state.now }
    requires managed { Manages config.now state.now request.now managed }
    ensures { IfOk result (IsDecided config.now state.now Actor.Manager (Act.Command request.now)) }
{
    match managed {
        Ok(decision) => Ok(decision),
        Err(Refusal::Broken(rule)) => Ok(Decided::only(alloc, refused(alloc, request, &rule))),
        Err(Refusal::NoMemory) => Err(NoMemory),
    }
}

/// What a request comes to, or the first rule that it breaks.
fn decide(
    alloc: Global,
    config: &Config,
    state: &State,
    request: &Request,
    asked: &FmRequest,
    after: &mut HostLists,
) -> Result<Decided, Refusal>
    requires reached { IsReached config.now state.now }
    requires asked { manager_request request.now.opcode request.now.payload ≡ Ok asked.now }
    requires few { FewCleared asked.now }
    ensures { Manages config.now state.now request.now result }
{
    match manager_draft(alloc, config, state, asked) {
        Ok(draft) => Ok(enacted_by(alloc, config, state, request, asked, draft, after)?),
        Err(refusal) => Err(refusal),
    }
}

/// What a request comes to that breaks no rule.
fn enacted_by(
    alloc: Global,
    config: &Config,
    state: &State,
    request: &Request,
    asked: &FmRequest,
    draft: Draft,
    after: &mut HostLists,
) -> Result<Decided, NoMemory>
    requires reached { IsReached config.now state.now }
    requires asked { manager_request request.now.opcode request.now.payload ≡ Ok asked.now }
    requires drafted { ManagerAnswers config.now state.now asked.now (Ok draft) }
    ensures { IfOk result (IsDecided config.now state.now Actor.Manager (Act.Command request.now)) }
{
    if let Some(host) = changed_host(asked) {
        let host = HostId(host as u8);
        return enacted(alloc, config, state, host, request, draft, after);
    }
    request_fits(state, asked);
    let ended = ended_by(alloc, state, asked)?;
    enacted_quietly(alloc, state, request, draft, ended.as_slice())
}

/// The host whose lists an offer or a removal changes. No other request changes lists.
fn changed_host(asked: &FmRequest) -> Option<u16>
    ensures { result ≡ changed_host asked.now }
{
    match asked {
        FmRequest::Add { host, .. } => Some(*host),
        FmRequest::Remove { host, .. } => Some(*host),
        _ => None,
    }
}

/// The tag that ends by a request which changes no lists: one to which the manager gives up its reference.
fn ended_by(alloc: Global, state: &State, asked: &FmRequest) -> Result<Seq<Tag>, NoMemory>
    ensures { IfOk result (λ tags. tags ≡ ended_by state.now.tags.entries asked.now) }
{
    match asked {
        FmRequest::RemoveReference { tag } => ended_unreferenced(alloc, state, tag),
        _ => Ok(Seq::new(alloc)),
    }
}

/// The tag, where it ends without the manager's reference.
fn ended_unreferenced(alloc: Global, state: &State, tag: &Tag) -> Result<Seq<Tag>, NoMemory>
    ensures { IfOk result (λ tags. tags ≡ (if passes tag.now (λ e. not (is_used (with_reference false e))) state.now.tags.entries then tag.now ∷ [] else [])) }
{
    let mut tags = Seq::new(alloc);
    if state.tags.ends_unreferenced(tag) {
        tags.push(*tag)?;
    }
    Ok(tags)
}

/// What a command comes to that breaks no rule and changes no lists, by which these tags end.
fn enacted_quietly(
    alloc: Global,
    state: &State,
    request: &Request,
    draft: Draft,
    ended: &[Tag],
) -> Result<Decided, NoMemory>
    requires known { All (λ (n : LogRecords). IsOfLog (length state.now.hosts.items) n.log) draft.log_records }
    requires hosts { All (λ (n : LogRecords). n.host < length state.now.hosts.items) draft.log_records }
    ensures { IfOk result (EntersDraft state.now request.now draft ended.now) }
{
    let Draft {
        payload,
        changes,
        tags: _,
        log_records,
    } = draft;
    let mut effects = changes;
    append_ends(ended, &mut effects)?;
    append_records_of_hosts(alloc, state, &log_records, &mut effects)?;
    Ok(Decided {
        reply: answer(request, Code::Success, payload),
        effects,
    })
}
