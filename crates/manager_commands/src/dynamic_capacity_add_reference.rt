//! 5606h Dynamic Capacity Add Reference, of the Fabric Manager (CXL 3.1, 7.6.7.6.7; layout: profile).
//! Row: `add_reference_rule`, device_rules/specs/TagCommands.antt.
//! Outcome: `add_reference_outcome`, device_rules/specs/TagCommands.antt; the reply is empty.
//! Bytes: docs/formats.md, 'Commands of the Fabric Manager'.

ghost use Rattle.manager_commands.specs.ManagerMessages.{ManagerAnswers};
ghost use Rattle.device_state.specs.StateAfter.{IsReached};
ghost use Rattle.fm_payloads.specs.declared.requests.FmRequest.{FmRequest};
ghost use Rattle.journal_core.specs.declared.outcome.Effect.{Effect};
ghost use Rattle.std.specs.Prelude.{◌≡◌, ◌∷◌, [], IfOk, if◌then◌else◌, true};
ghost use Rattle.tag_refs.specs.Tables.{entry_referenced, passes};

use device_commands::Draft;
use device_state::State;
use event_records::dcd_base::{NoMemory, Tag};
use extent_list::dcd_codes::{Refusal, Rule};
use extent_list::media_map::region_config::Config;
use journal_core::{Effect, Effects};
use std::alloc::Global;
use tag_refs::Tags;

/// The manager refers to an open tag (profile). `NoSuchTag` comes exactly where the tag is not open.
pub fn add_reference(
    alloc: Global,
    config: &Config,
    state: &State,
    tag: &Tag,
) -> Result<Draft, Refusal>
    requires reached { IsReached config.now state.now }
    ensures { ManagerAnswers config.now state.now (FmRequest.AddReference tag.now) result }
{
    if !state.tags.is_live(tag) {
        return Err(Refusal::Broken(Rule::NoSuchTag));
    }
    let changes = reference_to(alloc, &state.tags, tag)?;
    Ok(Draft::changing(alloc, changes))
}

/// A reference to the tag, unless there is one.
fn reference_to(alloc: Global, tags: &Tags, tag: &Tag) -> Result<Effects, NoMemory>
    ensures { IfOk result (λ changes. changes ≡ (if passes tag.now entry_referenced tags.now.entries then [] else Effect.Ref tag.now true ∷ [])) }
{
    let mut changes = Effects::new(alloc);
    if !tags.is_referenced(tag) {
        changes.push(Effect::Ref(*tag, true))?;
    }
    Ok(changes)
}
