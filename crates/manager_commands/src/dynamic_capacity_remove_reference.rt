//! 5607h Dynamic Capacity Remove Reference, of the Fabric Manager (CXL 3.1, 7.6.7.6.8; layout: profile).
//! Row: `remove_reference_rule`, device_rules/specs/TagCommands.antt.
//! Outcome: `remove_reference_outcome`, device_rules/specs/TagCommands.antt; the reply is empty.
//! Bytes: docs/formats.md, 'Commands of the Fabric Manager'.

ghost use Rattle.manager_commands.specs.ManagerMessages.{ManagerAnswers};
ghost use Rattle.device_state.specs.StateAfter.{IsReached};
ghost use Rattle.fm_payloads.specs.declared.requests.FmRequest.{FmRequest};
ghost use Rattle.journal_core.specs.declared.outcome.Effect.{Effect};

use device_commands::Draft;
use device_state::State;
use event_records::dcd_base::{Bytes, Seq, ShortList, Tag};
use extent_list::dcd_codes::{Refusal, Rule};
use extent_list::media_map::region_config::Config;
use journal_core::{Effect, Effects};
use std::alloc::Global;

/// The manager refers to the tag no longer, which ends where nothing else keeps it (profile). `NoReference` comes
/// exactly where it has no reference.
pub fn remove_reference(
    alloc: Global,
    config: &Config,
    state: &State,
    tag: &Tag,
) -> Result<Draft, Refusal>
    requires reached { IsReached config.now state.now }
    ensures { ManagerAnswers config.now state.now (FmRequest.RemoveReference tag.now) result }
{
    if !state.tags.is_referenced(tag) {
        return Err(Refusal::Broken(Rule::NoReference));
    }
    let mut changes = Effects::new(alloc);
    changes.push(Effect::Ref(*tag, false))?;
    let mut tags = Seq::new(alloc);
    tags.push(*tag)?;
    Ok(Draft {
        payload: Bytes::new(alloc),
        changes,
        tags,
        log_records: ShortList::new(),
    })
}
