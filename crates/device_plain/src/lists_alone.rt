//! What the effects of a command make of the lists of a host that the device has alone.

ghost use Rattle.control_core.specs.device_rules.specs.Hosts.{moves};
ghost use Rattle.control_core.specs.device_state.specs.EnteredLists.{HasOwnPlaces, counted, held_of, lists_by};
ghost use Rattle.extent_list.specs.ExtentLists.{count_in};
ghost use Rattle.extent_list.specs.HostLists.{extent_total};
ghost use Rattle.media_map.specs.Places.{IsRun};
ghost use Rattle.std.specs.List.{list_any};
ghost use Rattle.std.specs.Prelude.{◌≡◌, ◌+◌, ◌<◌, ◌≤◌, OnOk, fold, length, true};

use control_core::device_state::enter_in;
use control_core::device_state::host_lists::HostLists;
use dcd_base::limits::{EXTENTS, LISTED_EXTENTS};
use dcd_base::{HostId, NoMemory, Run};
use journal_core::{Effect, HeldKind};
use region_config::Config;

/// So many extents have their memory in an accepted list.
const PLACES: usize = 128;

/// Changes the lists by the effects of a command, and counts where they change what the host has accepted. `NoMemory` comes
/// where the lists have no place for what is added.
pub(crate) fn change_lists(
    lists: &mut HostLists,
    config: &Config,
    host: HostId,
    changes: &[Effect],
) -> Result<(), NoMemory>
    requires host { host < config.now.hosts }
    ensures lists { OnOk result (lists.new ≡ counted host changes.now (fold (lists_by config.now host) lists.old changes.now)) }
    ensures few { OnOk result (extent_total lists.new ≤ 64) }
{
    enter_each(lists, config, host, changes)?;
    count(lists, host, changes);
    if !are_few(lists) {
        return Err(NoMemory);
    }
    Ok(())
}

/// Changes the lists by each effect in turn, but for the count of changes.
fn enter_each(
    lists: &mut HostLists,
    config: &Config,
    host: HostId,
    changes: &[Effect],
) -> Result<(), NoMemory>
    requires host { host < config.now.hosts }
    ensures { OnOk result (lists.new ≡ fold (lists_by config.now host) lists.old changes.now) }
{
    for effect in changes {
        if !has_places(lists, config, effect) {
            return Err(NoMemory);
        }
        enter_in(lists, config, host, effect);
    }
    Ok(())
}

/// Counts a change of the accepted list where an effect changes it.
fn count(lists: &mut HostLists, host: HostId, changes: &[Effect])
    ensures { lists.new ≡ counted host changes.now lists.old }
{
    if has_moved(host, changes) {
        lists.count_change();
    }
}

/// Whether an effect changes what the host has accepted.
fn has_moved(host: HostId, changes: &[Effect]) -> bool
    ensures { result ≡ list_any (moves host) changes.now }
{
    changes.iter().any(|effect| moves(effect, host))
}

/// Whether the effect changes what the host has accepted.
fn moves(effect: &Effect, host: HostId) -> bool
    ensures { result ≡ moves host effect.now }
{
    match effect {
        Effect::Answer(of, extents) => of.0 == host.0 && !extents.is_empty(),
        Effect::Leave(of, _) => of.0 == host.0,
        _ => false,
    }
}

/// Whether the host has and is offered no more extents than it may be.
fn are_few(lists: &HostLists) -> bool
    ensures { result ≡ true → extent_total lists.now ≤ 64 }
{
    fits(lists.accepted().len(), lists.offers().extents(), EXTENTS)
}

/// Whether the lists have places for what the effect adds.
fn has_places(lists: &HostLists, config: &Config, effect: &Effect) -> bool
    ensures { (h : HostId) → result ≡ true → HasOwnPlaces config.now h lists.now effect.now }
{
    match effect {
        Effect::Offer(_, extents) => can_offer(lists, extents.len()),
        Effect::Answer(_, extents) => fits(lists.accepted().len(), extents.len(), PLACES),
        Effect::Leave(_, run) => lists.accepted().len() < PLACES && is_run(config, run),
        Effect::Hold(_, kind, extents) => fits(held(lists, *kind), extents.len(), LISTED_EXTENTS),
        _ => true,
    }
}

/// Whether so many extents can be offered.
fn can_offer(lists: &HostLists, more: usize) -> bool
    ensures { result ≡ true → (length lists.now.offers < 64) × (count_in lists.now.offers + more ≤ 64) }
{
    lists.offer_count() < EXTENTS && fits(lists.offers().extents(), more, EXTENTS)
}

/// Whether so many, and so many more, are within a limit.
fn fits(had: usize, more: usize, most: usize) -> bool
    ensures { result ≡ true → had + more ≤ most }
{
    had <= most && more <= most - had
}

/// How many extents are held of this kind.
fn held(lists: &HostLists, kind: HeldKind) -> usize
    ensures { result ≡ length (held_of kind lists.now) }
{
    match kind {
        HeldKind::Responses => lists.responses().len(),
        HeldKind::Releases => lists.releases().len(),
    }
}

/// Whether the run is some granules of one region.
fn is_run(config: &Config, run: &Run) -> bool
    ensures { result ≡ true → IsRun config.now run.now }
{
    if run.count == 0 || run.first.0 >= config.granules() {
        return false;
    }
    let region = config.granules_of(config.region_of(run.first));
    let before = run.first.0 - region.first.0;
    before <= region.count && run.count <= region.count - before
}
