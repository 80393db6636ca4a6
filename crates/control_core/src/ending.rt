//! Which tags end by a step.

ghost use Rattle.control_core.specs.Recording.{ending_with, ends_by_lists};
ghost use Rattle.std.specs.Prelude.{◌≡◌, ◌<◌, ◌++◌, ◌∷◌, [], IfOk, OnOk};

use cci_codec::dcd_base::{HostId, NoMemory, Seq, Tag};
use device_commands::host_lists::HostLists;
use manager_commands::device_state::State;
use std::alloc::Global;

/// Of these tags those that end once the host has these lists.
pub(crate) fn ending(
    alloc: Global,
    state: &State,
    host: HostId,
    lists: &HostLists,
    tags: &[Tag],
) -> Result<Seq<Tag>, NoMemory>
    requires few { host < 16 }
    ensures { IfOk result (λ ended. ended ≡ ending_with host lists.now state.now.tags.entries tags.now) }
{
    let mut ended = Seq::new(alloc);
    for i in 0..tags.len() {
        append_ending(state, host, lists, &tags[i], &mut ended)?;
    }
    Ok(ended)
}

/// Puts the tag behind the others, where it ends once the host has these lists.
fn append_ending(
    state: &State,
    host: HostId,
    lists: &HostLists,
    tag: &Tag,
    ended: &mut Seq<Tag>,
) -> Result<(), NoMemory>
    requires few { host < 16 }
    ensures { OnOk result (ended.new ≡ ended.old ++ ending_with host lists.now state.now.tags.entries (tag.now ∷ [])) }
{
    if ends(state, host, lists, tag) {
        return ended.push(*tag);
    }
    Ok(())
}

/// Whether the tag is open and ends once the host has these lists.
fn ends(state: &State, host: HostId, lists: &HostLists, tag: &Tag) -> bool
    requires few { host < 16 }
    ensures { result ≡ ends_by_lists host lists.now state.now.tags.entries tag.now }
{
    state
        .tags
        .ends(tag, host, lists.has_accepted(tag), lists.has_offered(tag))
}
