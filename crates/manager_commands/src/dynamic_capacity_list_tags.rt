//! 5608h Dynamic Capacity List Tags, of the Fabric Manager (CXL 3.1, 7.6.7.6.9; layout: profile).
//! Row: `tags_rule`, device_rules/specs/TagCommands.antt.
//! Outcome: `tags_reply`, device_rules/specs/TagCommands.antt; it changes nothing.
//! Bytes: docs/formats.md, 'Commands of the Fabric Manager', 'Replies to the Fabric Manager'.

ghost use Rattle.manager_commands.specs.ManagerMessages.{ManagerAnswers};
ghost use Rattle.device_state.specs.StateAfter.{IsReached};
ghost use Rattle.fm_payloads.specs.declared.requests.FmRequest.{FmRequest};
ghost use Rattle.device_state.specs.device_rules.specs.Settings.{page};
ghost use Rattle.std.specs.Prelude.{◌≡◌, ◌≤◌, IfOk, length, map};
ghost use Rattle.tag_refs.specs.Tables.{tag_view};

use device_commands::Draft;
use device_state::State;
use event_records::dcd_base::limits::PAGE_TAGS;
use event_records::dcd_base::{Bytes, NoMemory, Seq, TagView};
use extent_list::dcd_codes::{Refusal, Rule};
use extent_list::media_map::region_config::Config;
use fm_payloads::write_tags;
use std::alloc::Global;
use tag_refs::Tags;

/// At most `count` open tags from `first` on, 84 at most (profile). `PastEnd` comes exactly where the first index is
/// above their number.
pub(crate) fn list_tags(
    alloc: Global,
    config: &Config,
    state: &State,
    first: u32,
    count: u32,
) -> Result<Draft, Refusal>
    requires reached { IsReached config.now state.now }
    ensures { ManagerAnswers config.now state.now (FmRequest.ListTags first count) result }
{
    let total = state.tags.len() as u32;
    if first > total {
        return Err(Refusal::Broken(Rule::PastEnd { first, total }));
    }
    let views = views_of(
        alloc,
        &state.tags,
        first as usize,
        count.min(PAGE_TAGS) as usize,
    )?;
    let mut payload = Bytes::new(alloc);
    write_tags(first, total, views.as_slice(), &mut payload)?;
    Ok(Draft::only(alloc, payload))
}

/// So many open tags from an index on, as they are shown.
fn views_of(
    alloc: Global,
    tags: &Tags,
    first: usize,
    count: usize,
) -> Result<Seq<TagView>, NoMemory>
    requires { first ≤ length tags.now.entries }
    ensures views { IfOk result (λ views. views ≡ map tag_view (page first count tags.now.entries)) }
    ensures few { IfOk result (λ views. length views ≤ count) }
{
    let count = count.min(tags.len() - first);
    let mut views = Seq::with_capacity(alloc, count)?;
    for index in 0..count {
        views.push(tags.at(first + index))?;
    }
    Ok(views)
}
