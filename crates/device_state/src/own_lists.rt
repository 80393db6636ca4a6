//! What the effects of a step make of the lists of one host.

ghost use Rattle.device_state.specs.EnteredLists.{Fits, HasOwnPlaces, OwnFits, held_of, lists_by, lists_of, with_held};
ghost use Rattle.journal_core.specs.declared.outcome.Effect.{Effect};
ghost use Rattle.std.specs.Prelude.{◌≡◌, ◌++◌, ◌+◌, ◌<◌, ◌≤◌, [], OnOk, fold, length, take};

use crate::leaving::{leaving_front, ranges_of};
use crate::state::State;
use cci_codec::dcd_base::{Extent, HostId, NoMemory, Run, no_tag};
use extent_list::media_map::region_config::Config;
use host_lists::HostLists;
use journal_core::{Effect, HeldKind};

impl State {
    /// Makes these lists those that the host has once the effects of a step are entered, but for the count of changes. What the
    /// device keeps stays.
    ///
    /// There is a place for all that they add, which a step of a legal journal always finds.
    pub fn lists_after(
        &self,
        config: &Config,
        host: HostId,
        effects: &[Effect],
        after: &mut HostLists,
    ) -> Result<(), NoMemory>
        requires host { host < config.now.hosts }
        requires part { host < length self.now.hosts.items }
        requires fits { Fits config.now (lists_of self.now) 1 effects.now }
        ensures { OnOk result (after.new ≡ fold (lists_by config.now host) (lists_of self.now host) effects.now) }
    {
        after.stand_as(&self.part(host).lists)?;
        enter_all_in(after, config, host, effects);
        Ok(())
    }
}

/// Changes the lists of the host by each effect in turn, but for the count of changes.
fn enter_all_in(lists: &mut HostLists, config: &Config, host: HostId, effects: &[Effect])
    requires host { host < config.now.hosts }
    requires fits { OwnFits config.now host lists.old effects.now }
    ensures { lists.new ≡ fold (lists_by config.now host) lists.old effects.now }
{
    let mut done = 0;
    while done < effects.len() {
        let (_, rest) = effects.split_at(done);
        done += enter_front(lists, config, host, rest);
    }
}

/// Changes the lists of the host by the first effect, or by all at the front by which runs leave the host. Answers how many they
/// are.
fn enter_front(lists: &mut HostLists, config: &Config, host: HostId, effects: &[Effect]) -> usize
    requires host { host < config.now.hosts }
    requires some { 0 < length effects.now }
    requires fits { OwnFits config.now host lists.old effects.now }
    ensures some { 0 < result }
    ensures known { result ≤ length effects.now }
    ensures entered { lists.new ≡ fold (lists_by config.now host) lists.old (take result effects.now) }
{
    let front = leaving_front(host, lists, effects);
    if front > 1 {
        let (leaving, _) = effects.split_at(front);
        let ranges = ranges_of(config, host, leaving);
        lists.enter_leaves(ranges.as_slice());
        front
    } else {
        enter_in(lists, config, host, &effects[0]);
        1
    }
}

/// Changes the lists of the host by the effect, but for the count of changes. An effect of another host changes nothing.
pub fn enter_in(lists: &mut HostLists, config: &Config, host: HostId, effect: &Effect)
    requires host { host < config.now.hosts }
    requires places { HasOwnPlaces config.now host lists.old effect.now }
    ensures { lists.new ≡ lists_by config.now host lists.old effect.now }
{
    match effect {
        Effect::Offer(of, extents) => enter_offer(lists, config, host, *of, extents.as_slice()),
        Effect::Answer(of, extents) => enter_answer(lists, config, host, *of, extents.as_slice()),
        Effect::Leave(of, run) => enter_leave(lists, config, host, *of, run),
        Effect::Hold(of, kind, extents) => enter_hold(
            lists,
            config,
            host,
            *of,
            *kind,
            extents.as_slice(),
        ),
        Effect::Unhold(of, kind) => enter_unhold(lists, config, host, *of, *kind),
        // These change no lists.
        Effect::Take(..)
        | Effect::Zero(..)
        | Effect::Soil(..)
        | Effect::Logged(..)
        | Effect::Missed(..)
        | Effect::Cleared(..)
        | Effect::Reset(..)
        | Effect::Ref(..)
        | Effect::TagEnd(..)
        | Effect::Block(..) => (),
    }
}

/// The extents are offered to a host.
fn enter_offer(lists: &mut HostLists, config: &Config, host: HostId, of: HostId, extents: &[Extent])
    requires { HasOwnPlaces config.now host lists.old (Effect.Offer of extents.now) }
    ensures { lists.new ≡ lists_by config.now host lists.old (Effect.Offer of extents.now) }
{
    if of.0 == host.0 {
        lists.enter_offer(extents);
    }
}

/// The oldest offer of a host is answered, and these extents are accepted.
fn enter_answer(
    lists: &mut HostLists,
    config: &Config,
    host: HostId,
    of: HostId,
    extents: &[Extent],
)
    requires { HasOwnPlaces config.now host lists.old (Effect.Answer of extents.now) }
    ensures { lists.new ≡ lists_by config.now host lists.old (Effect.Answer of extents.now) }
{
    if of.0 == host.0 {
        lists.enter_accepted(extents);
        lists.drop_oldest();
    }
}

/// The run leaves a host.
fn enter_leave(lists: &mut HostLists, config: &Config, host: HostId, of: HostId, run: &Run)
    requires host { host < config.now.hosts }
    requires places { HasOwnPlaces config.now host lists.old (Effect.Leave of run.now) }
    ensures { lists.new ≡ lists_by config.now host lists.old (Effect.Leave of run.now) }
{
    if of.0 == host.0 {
        let range = extent_list::media_map::extent_of(config, host, run, no_tag(), 0);
        lists.enter_leaves(&[range]);
    }
}

/// A host holds the extents behind those of this kind that it holds.
fn enter_hold(
    lists: &mut HostLists,
    config: &Config,
    host: HostId,
    of: HostId,
    kind: HeldKind,
    extents: &[Extent],
)
    requires { HasOwnPlaces config.now host lists.old (Effect.Hold of kind extents.now) }
    ensures { lists.new ≡ lists_by config.now host lists.old (Effect.Hold of kind extents.now) }
{
    if of.0 == host.0 {
        hold_in(lists, kind, extents);
    }
}

/// A host holds nothing of this kind.
fn enter_unhold(lists: &mut HostLists, config: &Config, host: HostId, of: HostId, kind: HeldKind)
    ensures { lists.new ≡ lists_by config.now host lists.old (Effect.Unhold of kind) }
{
    if of.0 == host.0 {
        drop_held_in(lists, kind);
    }
}

/// The extents are held behind the others of this kind.
pub(crate) fn hold_in(lists: &mut HostLists, kind: HeldKind, extents: &[Extent])
    requires { length (held_of kind lists.old) + length extents.now ≤ 64 }
    ensures { lists.new ≡ with_held kind (held_of kind lists.old ++ extents.now) lists.old }
{
    match kind {
        HeldKind::Responses => lists.hold_responses(extents),
        HeldKind::Releases => lists.hold_releases(extents),
    }
}

/// Nothing of this kind is held.
pub(crate) fn drop_held_in(lists: &mut HostLists, kind: HeldKind)
    ensures { lists.new ≡ with_held kind [] lists.old }
{
    match kind {
        HeldKind::Responses => lists.drop_responses(),
        HeldKind::Releases => lists.drop_releases(),
    }
}
