//! Runs that leave a host one after another, which are entered at once.

ghost use Rattle.cci_codec.specs.dcd_base.specs.Words.{same_tag};
ghost use Rattle.cci_codec.specs.dcd_base.specs.declared.ids.HostId.{HostId};
ghost use Rattle.device_state.specs.Entered.{with_lists};
ghost use Rattle.device_state.specs.EnteredLists.{Fits, HasPlaces, lists_of, room_by, told};
ghost use Rattle.device_state.specs.Leaves.{HasRun, IsLeaving, left_by, left_over, lists_left, owner_tag, told_left};
ghost use Rattle.device_state.specs.Stages.{IsListedAfter, IsListedOver};
ghost use Rattle.device_state.specs.StateAfter.{part_of};
ghost use Rattle.device_state.specs.Updates.{IsOfDevice};
ghost use Rattle.journal_core.specs.declared.outcome.Effect.{Effect};
ghost use Rattle.std.specs.List.{list_all};
ghost use Rattle.std.specs.Prelude.{◌≡◌, ◌∷◌, ◌+◌, ◌^◌, ◌<◌, ◌≤◌, [], All, IfSome, List, fold, length, option_to_list, take, true};
ghost use Rattle.tag_refs.specs.declared.entries.TagEntry.{TagEntry};

use crate::listing::lists_in;
use crate::ranges::{AT_ONCE, Ranges};
use crate::state::State;
use cci_codec::dcd_base::{Extent, HostId, Run, Tag, no_tag};
use extent_list::media_map::extent_of;
use extent_list::media_map::region_config::Config;
use extent_list::same_tag;
use host_lists::HostLists;
use journal_core::Effect;

/// So many extents have their memory in an accepted list.
const PLACES: usize = 128;

impl State {
    /// Changes lists and tags by all effects at the front by which runs leave the host, or by the first one. Answers how many
    /// they are.
    pub(crate) fn list_leaves(&mut self, config: &Config, host: HostId, effects: &[Effect]) -> usize
        requires hosts { length self.old.hosts.items ≡ config.now.hosts }
        requires few { config.now.hosts ≤ 16 }
        requires host { host < config.now.hosts }
        requires some { 0 < length effects.now }
        requires of_device { All (IsOfDevice config.now) effects.now }
        requires fits { Fits config.now (lists_of self.old) self.old.tags.spare effects.now }
        ensures some { 0 < result }
        ensures known { result ≤ length effects.now }
        ensures listed { IsListedOver config.now (take result effects.now) self.old self.new }
        ensures spare { fold room_by self.old.tags.spare (take result effects.now) ≤ self.new.tags.spare }
        ensures kept { self.new ≡ record self.old { hosts = self.new.hosts; tags = self.new.tags } }
    {
        let front = leaving_front(host, lists_in(self.hosts.as_slice(), host), effects);
        if front > 1 {
            let (leaving, _) = effects.split_at(front);
            self.list_at_once(config, host, leaving);
            front
        } else {
            self.list(config, &effects[0]);
            1
        }
    }

    /// Changes lists and tags by effects by which runs leave the host, or granules are soiled.
    fn list_at_once(&mut self, config: &Config, host: HostId, effects: &[Effect])
        requires hosts { length self.old.hosts.items ≡ config.now.hosts }
        requires few { config.now.hosts ≤ 16 }
        requires host { host < config.now.hosts }
        requires places { length (part_of self.old host).lists.accepted + length effects.now ≤ 128 }
        requires at_once { length effects.now ≤ 64 }
        requires runs { All (HasRun config.now host) effects.now }
        requires leaving { All (IsLeaving host) effects.now }
        ensures listed { IsListedOver config.now effects.now self.old self.new }
        ensures spare { self.old.tags.spare ≤ self.new.tags.spare }
        ensures kept { self.new ≡ record self.old { hosts = self.new.hosts; tags = self.new.tags } }
    {
        let ranges = ranges_of(config, host, effects);
        self.leave_all(host, ranges.as_slice());
    }

    /// The run leaves the host, of which the tag of the extent is told in which it lay.
    pub(crate) fn list_leave(&mut self, config: &Config, host: HostId, run: &Run)
        requires hosts { length self.old.hosts.items ≡ config.now.hosts }
        requires few { config.now.hosts ≤ 16 }
        requires host { host < config.now.hosts }
        requires places { HasPlaces config.now (lists_of self.old) self.old.tags.spare (Effect.Leave host run.now) }
        ensures listed { IsListedAfter config.now (Effect.Leave host run.now) self.old self.new }
        ensures spare { self.old.tags.spare ≤ self.new.tags.spare }
        ensures kept { self.new ≡ record self.old { hosts = self.new.hosts; tags = self.new.tags } }
    {
        self.leave_all(host, &[extent_of(config, host, run, no_tag(), 0)]);
    }

    /// The ranges leave the host one after another, and the tag of the extent in which each lay is told: once if all have one, and
    /// not at all if none is open.
    fn leave_all(&mut self, host: HostId, leaving: &[Extent])
        requires host { host < length self.old.hosts.items }
        requires known { host < 16 }
        requires places { length (part_of self.old host).lists.accepted + length leaving.now ≤ 128 }
        requires ends { All (λ x. x.start + x.length < 2 ^ 64) leaving.now }
        ensures hosts { self.new.hosts.items ≡ with_lists self.old host (lists_left leaving.now (part_of self.old host).lists) }
        ensures tags { self.new.tags.entries ≡ told_left host (part_of self.old host).lists leaving.now self.old.tags.entries }
        ensures spare { self.old.tags.spare ≤ self.new.tags.spare }
        ensures kept { self.new ≡ record self.old { hosts = self.new.hosts; tags = self.new.tags } }
    {
        if self.tags.is_empty() {
            self.enter_leaves(host, leaving);
        } else {
            self.tell_leaves(host, leaving);
        }
    }

    /// The same where a tag is open.
    fn tell_leaves(&mut self, host: HostId, leaving: &[Extent])
        requires host { host < length self.old.hosts.items }
        requires known { host < 16 }
        requires places { length (part_of self.old host).lists.accepted + length leaving.now ≤ 128 }
        requires ends { All (λ x. x.start + x.length < 2 ^ 64) leaving.now }
        ensures hosts { self.new.hosts.items ≡ with_lists self.old host (lists_left leaving.now (part_of self.old host).lists) }
        ensures tags { self.new.tags.entries ≡ told_left host (part_of self.old host).lists leaving.now self.old.tags.entries }
        ensures spare { self.old.tags.spare ≤ self.new.tags.spare }
        ensures kept { self.new ≡ record self.old { hosts = self.new.hosts; tags = self.new.tags } }
    {
        match only_tag(lists_in(self.hosts.as_slice(), host), leaving) {
            Some(tag) => {
                self.enter_leaves(host, leaving);
                self.tell_left(host, &Some(tag));
            }
            None => self.leave_each(host, leaving),
        }
    }

    /// The ranges leave the host one after another, and the tag of each is told by itself.
    fn leave_each(&mut self, host: HostId, leaving: &[Extent])
        requires host { host < length self.old.hosts.items }
        requires known { host < 16 }
        requires places { length (part_of self.old host).lists.accepted + length leaving.now ≤ 128 }
        requires ends { All (λ x. x.start + x.length < 2 ^ 64) leaving.now }
        ensures hosts { self.new.hosts.items ≡ with_lists self.old host (lists_left leaving.now (part_of self.old host).lists) }
        ensures tags { self.new.tags.entries ≡ told_left host (part_of self.old host).lists leaving.now self.old.tags.entries }
        ensures spare { self.old.tags.spare ≤ self.new.tags.spare }
        ensures kept { self.new ≡ record self.old { hosts = self.new.hosts; tags = self.new.tags } }
    {
        for range in leaving {
            self.leave(host, range);
        }
    }

    /// The range leaves the host, and the tag of the extent in which it lay is told.
    fn leave(&mut self, host: HostId, range: &Extent)
        requires host { host < length self.old.hosts.items }
        requires known { host < 16 }
        requires places { length (part_of self.old host).lists.accepted < 128 }
        requires end { range.now.start + range.now.length < 2 ^ 64 }
        ensures hosts { self.new.hosts.items ≡ with_lists self.old host (lists_left (range.now ∷ []) (part_of self.old host).lists) }
        ensures tags { self.new.tags.entries ≡ told host (lists_left (range.now ∷ []) (part_of self.old host).lists) (owner_tag range.now (part_of self.old host).lists.accepted) self.old.tags.entries }
        ensures spare { self.old.tags.spare ≤ self.new.tags.spare }
        ensures kept { self.new ≡ record self.old { hosts = self.new.hosts; tags = self.new.tags } }
    {
        let tag = tag_at(lists_in(self.hosts.as_slice(), host), range);
        self.enter_leaves(host, &[*range]);
        self.tell_left(host, &tag);
    }

    /// The ranges leave the host's accepted extents one after another.
    fn enter_leaves(&mut self, host: HostId, leaving: &[Extent])
        requires host { host < length self.old.hosts.items }
        requires places { length (part_of self.old host).lists.accepted + length leaving.now ≤ 128 }
        requires ends { All (λ x. x.start + x.length < 2 ^ 64) leaving.now }
        ensures hosts { self.new.hosts.items ≡ with_lists self.old host (lists_left leaving.now (part_of self.old host).lists) }
        ensures kept { self.new ≡ record self.old { hosts = self.new.hosts } }
    {
        self.hosts[usize::from(host.0)].lists.enter_leaves(leaving);
    }
}

/// How many effects at the front have runs leave the host, with those that soil granules: at most 64, and so many that the lists
/// have places for what is left of each extent.
pub(crate) fn leaving_front(host: HostId, lists: &HostLists, effects: &[Effect]) -> usize
    ensures known { result ≤ length effects.now }
    ensures at_once { result ≤ 64 }
    ensures places { 0 < result → length lists.now.accepted + result ≤ 128 }
    ensures leaving { All (IsLeaving host) (take result effects.now) }
{
    let places = PLACES.saturating_sub(lists.accepted().len());
    let most = effects.len().min(AT_ONCE).min(places);
    for i in 0..most {
        if !is_leaving(&effects[i], host) {
            return i;
        }
    }
    most
}

/// Whether by the effect a run leaves the host, or granules are soiled.
fn is_leaving(effect: &Effect, host: HostId) -> bool
    ensures { result ≡ true → IsLeaving host effect.now }
{
    match effect {
        Effect::Leave(of, _) => of.0 == host.0,
        // It changes neither lists nor tags, and stands behind each run where a removal cleans.
        Effect::Soil(..) => true,
        // These end what is entered at once.
        Effect::Offer(..)
        | Effect::Answer(..)
        | Effect::Take(..)
        | Effect::Zero(..)
        | Effect::Hold(..)
        | Effect::Unhold(..)
        | Effect::Logged(..)
        | Effect::Missed(..)
        | Effect::Cleared(..)
        | Effect::Reset(..)
        | Effect::Ref(..)
        | Effect::TagEnd(..)
        | Effect::Block(..) => false,
    }
}

/// The ranges of the runs that leave the host by the effects.
pub(crate) fn ranges_of(config: &Config, host: HostId, effects: &[Effect]) -> Ranges
    requires host { host < config.now.hosts }
    requires at_once { length effects.now ≤ 64 }
    requires runs { All (HasRun config.now host) effects.now }
    requires leaving { All (IsLeaving host) effects.now }
    ensures ranges { result ≡ left_over config.now host effects.now }
    ensures few { length result ≤ length effects.now }
    ensures ends { All (λ x. x.start + x.length < 2 ^ 64) result }
{
    let mut ranges = Ranges::none();
    for effect in effects {
        if let Some(range) = range_of(config, host, effect) {
            ranges.push(range);
        }
    }
    ranges
}

/// The range of the run that leaves the host by the effect, if one does.
fn range_of(config: &Config, host: HostId, effect: &Effect) -> Option<Extent>
    requires host { host < config.now.hosts }
    requires run { HasRun config.now host effect.now }
    requires leaving { IsLeaving host effect.now }
    ensures range { option_to_list result ≡ left_by config.now host effect.now }
    ensures end { IfSome result (λ x. x.start + x.length < 2 ^ 64) }
{
    match effect {
        Effect::Leave(_, run) => Some(extent_of(config, host, run, no_tag(), 0)),
        // By these nothing leaves.
        Effect::Offer(..)
        | Effect::Answer(..)
        | Effect::Take(..)
        | Effect::Zero(..)
        | Effect::Soil(..)
        | Effect::Hold(..)
        | Effect::Unhold(..)
        | Effect::Logged(..)
        | Effect::Missed(..)
        | Effect::Cleared(..)
        | Effect::Reset(..)
        | Effect::Ref(..)
        | Effect::TagEnd(..)
        | Effect::Block(..) => None,
    }
}

/// The tag of the first accepted extent in which the range lies; None where it lies in none.
fn tag_at(lists: &HostLists, range: &Extent) -> Option<Tag>
    ensures { option_to_list result ≡ owner_tag range.now lists.now.accepted }
{
    let accepted = lists.accepted();
    match accepted.holder_of(range.start, range.length) {
        Some(index) => Some(accepted.at(index).tag),
        None => None,
    }
}

/// The tag of all accepted extents, if they have one and the first of the ranges lies in one of them. It is the only one that is told
/// then, and telling it once is enough.
fn only_tag(lists: &HostLists, leaving: &[Extent]) -> Option<Tag>
    ensures { IfSome result (λ tag. (h : HostId) (entries : List TagEntry) → h < 16 → told_left h lists.now leaving.now entries ≡ told h (lists_left leaving.now lists.now) (tag ∷ []) entries) }
{
    let first = match leaving.first() {
        Some(first) => first,
        None => return None,
    };
    let tag = match tag_at(lists, first) {
        Some(tag) => tag,
        None => return None,
    };
    if has_only(lists.accepted().as_slice(), &tag) {
        return Some(tag);
    }
    None
}

/// Whether all extents have the tag.
fn has_only(extents: &[Extent], tag: &Tag) -> bool
    ensures { result ≡ list_all (λ x. same_tag x.tag tag.now) extents.now }
{
    extents.iter().all(|extent| same_tag(&extent.tag, tag))
}
