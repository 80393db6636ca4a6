//! What the effects of a step make of the hosts' lists and of the open tags.

ghost use Rattle.device_state.specs.EnteredLists.{AreGranular, Fits, HasPlaces, each_tag, held_of, lists_of, offered_tag, room_by, tag_offered, told, with_held};
ghost use Rattle.device_state.specs.Entered.{with_lists};
ghost use Rattle.device_state.specs.StateAfter.{part_of};
ghost use Rattle.device_state.specs.declared.parts.HostPart.{HostPart};
ghost use Rattle.cci_codec.specs.dcd_base.specs.Words.{same_tag};
ghost use Rattle.cci_codec.specs.dcd_base.specs.declared.capacity.Extent.{Extent};
ghost use Rattle.offer_core.specs.Offerings.{oldest_of};
ghost use Rattle.device_state.specs.Stages.{IsListedAfter, IsListedOver};
ghost use Rattle.device_state.specs.Updates.{IsOfDevice};
ghost use Rattle.journal_core.specs.declared.outcome.Effect.{Effect};
ghost use Rattle.extent_list.specs.ExtentLists.{count_in};
ghost use Rattle.extent_list.specs.media_map.specs.Places.{is_granular, run_of};
ghost use Rattle.std.specs.Prelude.{◌≡◌, ◌++◌, ◌∷◌, ◌+◌, ◌-◌, ◌<◌, ◌≤◌, [], All, IfSome, IsTrue, List, drop, false, fold, true, length, map, option_to_list, slice_index_or, take};
ghost use Rattle.tag_refs.specs.Tables.{has_entry, opened};
ghost use Rattle.tag_refs.specs.declared.entries.TagEntry.{TagEntry};

use crate::own_lists::{drop_held_in, hold_in};
use crate::parts::HostPart;
use crate::state::State;
use cci_codec::dcd_base::{Extent, Granule, HostId, RegionId, Run, Tag};
use extent_list::media_map::region_config::Config;
use extent_list::same_tag;
use host_lists::HostLists;
use journal_core::{Effect, HeldKind};
use tag_refs::Tags;

impl State {
    /// Changes lists and tags by each effect in turn, but for the counts of changes.
    pub(crate) fn list_all(&mut self, config: &Config, effects: &[Effect])
        requires hosts { length self.old.hosts.items ≡ config.now.hosts }
        requires of_device { All (IsOfDevice config.now) effects.now }
        requires fits { Fits config.now (lists_of self.old) 1 effects.now }
        requires spare { 0 < self.old.tags.spare }
        ensures listed { IsListedOver config.now effects.now self.old self.new }
        ensures spare { self.old.tags.spare ≤ self.new.tags.spare + 1 }
        ensures kept { self.new ≡ record self.old { hosts = self.new.hosts; tags = self.new.tags } }
    {
        let mut done = 0;
        while done < effects.len() {
            let (_, rest) = effects.split_at(done);
            done += self.list_front(config, rest);
        }
    }

    /// Changes lists and tags by the first effect, or by all at the front by which runs leave one host. Answers how many they are.
    fn list_front(&mut self, config: &Config, effects: &[Effect]) -> usize
        requires hosts { length self.old.hosts.items ≡ config.now.hosts }
        requires some { 0 < length effects.now }
        requires of_device { All (IsOfDevice config.now) effects.now }
        requires fits { Fits config.now (lists_of self.old) self.old.tags.spare effects.now }
        ensures some { 0 < result }
        ensures known { result ≤ length effects.now }
        ensures listed { IsListedOver config.now (take result effects.now) self.old self.new }
        ensures spare { fold room_by self.old.tags.spare (take result effects.now) ≤ self.new.tags.spare }
        ensures kept { self.new ≡ record self.old { hosts = self.new.hosts; tags = self.new.tags } }
    {
        // There are 16 hosts at most.
        let _hosts = config.hosts();
        if let Effect::Leave(host, _) = &effects[0] {
            self.list_leaves(config, *host, effects)
        } else {
            self.list(config, &effects[0]);
            1
        }
    }

    /// Changes lists and tags by the effect, but for the counts of changes.
    pub(crate) fn list(&mut self, config: &Config, effect: &Effect)
        requires hosts { length self.old.hosts.items ≡ config.now.hosts }
        requires of_device { IsOfDevice config.now effect.now }
        requires places { HasPlaces config.now (lists_of self.old) self.old.tags.spare effect.now }
        ensures listed { IsListedAfter config.now effect.now self.old self.new }
        ensures spare { room_by self.old.tags.spare effect.now ≤ self.new.tags.spare }
        ensures kept { self.new ≡ record self.old { hosts = self.new.hosts; tags = self.new.tags } }
    {
        // There are 16 hosts at most.
        let _hosts = config.hosts();
        match effect {
            Effect::Offer(host, extents) => self.list_offer(config, *host, extents.as_slice()),
            Effect::Answer(host, extents) => self.list_answer(config, *host, extents.as_slice()),
            Effect::Leave(host, run) => self.list_leave(config, *host, run),
            Effect::Hold(host, kind, extents) => self.hold(
                config,
                *host,
                *kind,
                extents.as_slice(),
            ),
            Effect::Unhold(host, kind) => self.unhold(config, *host, *kind),
            Effect::Ref(tag, on) => self.tags.set_reference(tag, *on),
            Effect::TagEnd(tag) => self.tags.end(tag),
            // These change neither lists nor tags.
            Effect::Take(..)
            | Effect::Zero(..)
            | Effect::Soil(..)
            | Effect::Logged(..)
            | Effect::Missed(..)
            | Effect::Cleared(..)
            | Effect::Reset(..)
            | Effect::Block(..) => (),
        }
    }

    /// The offer is put behind the others, and its tag is told or opened.
    fn list_offer(&mut self, config: &Config, host: HostId, extents: &[Extent])
        requires hosts { length self.old.hosts.items ≡ config.now.hosts }
        requires few { config.now.hosts ≤ 16 }
        requires host { host < config.now.hosts }
        requires places { HasPlaces config.now (lists_of self.old) self.old.tags.spare (Effect.Offer host extents.now) }
        ensures listed { IsListedAfter config.now (Effect.Offer host extents.now) self.old self.new }
        ensures spare { self.old.tags.spare - 1 ≤ self.new.tags.spare }
        ensures kept { self.new ≡ record self.old { hosts = self.new.hosts; tags = self.new.tags } }
    {
        self.enter_offer(host, extents);
        self.tell_offer(config, host, extents);
    }

    /// The oldest offer is answered. What the host has of its tags and of those that it accepts is told.
    fn list_answer(&mut self, config: &Config, host: HostId, extents: &[Extent])
        requires hosts { length self.old.hosts.items ≡ config.now.hosts }
        requires few { config.now.hosts ≤ 16 }
        requires host { host < config.now.hosts }
        requires places { HasPlaces config.now (lists_of self.old) self.old.tags.spare (Effect.Answer host extents.now) }
        ensures listed { IsListedAfter config.now (Effect.Answer host extents.now) self.old self.new }
        ensures spare { self.old.tags.spare ≤ self.new.tags.spare }
        ensures kept { self.new ≡ record self.old { hosts = self.new.hosts; tags = self.new.tags } }
    {
        self.enter_accepted(host, extents);
        self.tell_answer(host, extents);
        self.drop_oldest(host);
    }

    /// The host holds these extents behind those that it holds of this kind.
    fn hold(&mut self, config: &Config, host: HostId, kind: HeldKind, extents: &[Extent])
        requires hosts { length self.old.hosts.items ≡ config.now.hosts }
        requires host { host < config.now.hosts }
        requires places { HasPlaces config.now (lists_of self.old) self.old.tags.spare (Effect.Hold host kind extents.now) }
        ensures listed { IsListedAfter config.now (Effect.Hold host kind extents.now) self.old self.new }
        ensures kept { self.new ≡ record self.old { hosts = self.new.hosts } }
    {
        self.enter_held(host, kind, extents);
    }

    /// What the host holds of this kind is let go.
    fn unhold(&mut self, config: &Config, host: HostId, kind: HeldKind)
        requires hosts { length self.old.hosts.items ≡ config.now.hosts }
        requires host { host < config.now.hosts }
        ensures listed { IsListedAfter config.now (Effect.Unhold host kind) self.old self.new }
        ensures kept { self.new ≡ record self.old { hosts = self.new.hosts } }
    {
        self.drop_held(host, kind);
    }

    /// The offer is behind the host's others.
    fn enter_offer(&mut self, host: HostId, extents: &[Extent])
        requires host { host < length self.old.hosts.items }
        requires offers { length (part_of self.old host).lists.offers < 64 }
        requires extents { count_in (part_of self.old host).lists.offers + length extents.now ≤ 64 }
        ensures hosts { self.new.hosts.items ≡ with_lists self.old host (record (part_of self.old host).lists { offers = (part_of self.old host).lists.offers ++ extents.now ∷ [] }) }
        ensures kept { self.new ≡ record self.old { hosts = self.new.hosts } }
    {
        self.hosts[usize::from(host.0)].lists.enter_offer(extents);
    }

    /// The extents are accepted behind the host's others.
    fn enter_accepted(&mut self, host: HostId, extents: &[Extent])
        requires host { host < length self.old.hosts.items }
        requires few { length (part_of self.old host).lists.accepted + length extents.now ≤ 128 }
        ensures hosts { self.new.hosts.items ≡ with_lists self.old host (record (part_of self.old host).lists { accepted = (part_of self.old host).lists.accepted ++ extents.now }) }
        ensures kept { self.new ≡ record self.old { hosts = self.new.hosts } }
    {
        self.hosts[usize::from(host.0)]
            .lists
            .enter_accepted(extents);
    }

    /// The host's oldest offer is answered.
    fn drop_oldest(&mut self, host: HostId)
        requires host { host < length self.old.hosts.items }
        ensures hosts { self.new.hosts.items ≡ with_lists self.old host (record (part_of self.old host).lists { offers = drop 1 (part_of self.old host).lists.offers }) }
        ensures kept { self.new ≡ record self.old { hosts = self.new.hosts } }
    {
        self.hosts[usize::from(host.0)].lists.drop_oldest();
    }

    /// The host holds these extents behind the others of this kind.
    fn enter_held(&mut self, host: HostId, kind: HeldKind, extents: &[Extent])
        requires host { host < length self.old.hosts.items }
        requires few { length (held_of kind (part_of self.old host).lists) + length extents.now ≤ 64 }
        ensures hosts { self.new.hosts.items ≡ with_lists self.old host (with_held kind (held_of kind (part_of self.old host).lists ++ extents.now) (part_of self.old host).lists) }
        ensures kept { self.new ≡ record self.old { hosts = self.new.hosts } }
    {
        hold_in(&mut self.hosts[usize::from(host.0)].lists, kind, extents);
    }

    /// The host holds nothing of this kind.
    fn drop_held(&mut self, host: HostId, kind: HeldKind)
        requires host { host < length self.old.hosts.items }
        ensures hosts { self.new.hosts.items ≡ with_lists self.old host (with_held kind [] (part_of self.old host).lists) }
        ensures kept { self.new ≡ record self.old { hosts = self.new.hosts } }
    {
        drop_held_in(&mut self.hosts[usize::from(host.0)].lists, kind);
    }

    /// The tag of an offer that the host's lists have by now is told, or opened.
    fn tell_offer(&mut self, config: &Config, host: HostId, extents: &[Extent])
        requires host { host < length self.old.hosts.items }
        requires known { host < config.now.hosts }
        requires few { config.now.hosts ≤ 16 }
        requires room { 0 < self.old.tags.spare }
        requires listed { length extents.now ≤ 64 }
        requires granular { AreGranular config.now host extents.now }
        ensures tags { self.new.tags.entries ≡ offered_tag config.now host (part_of self.old host).lists extents.now self.old.tags.entries }
        ensures spare { self.old.tags.spare ≤ self.new.tags.spare + 1 }
        ensures kept { self.new ≡ record self.old { tags = self.new.tags } }
    {
        let lists = lists_in(self.hosts.as_slice(), host);
        tell_offer(&mut self.tags, config, host, lists, extents);
    }

    /// What the host has of the tags of its oldest offer and of these extents is told, without that offer.
    fn tell_answer(&mut self, host: HostId, extents: &[Extent])
        requires host { host < length self.old.hosts.items }
        requires few { host < 16 }
        ensures tags { self.new.tags.entries ≡ told host (record (part_of self.old host).lists { offers = drop 1 (part_of self.old host).lists.offers })
            (each_tag (oldest_of (part_of self.old host).lists.offers) ++ each_tag extents.now) self.old.tags.entries }
        ensures spare { self.old.tags.spare ≤ self.new.tags.spare }
        ensures kept { self.new ≡ record self.old { tags = self.new.tags } }
    {
        let lists = lists_in(self.hosts.as_slice(), host);
        tell_all(&mut self.tags, host, lists, 1, lists.oldest());
        tell_all(&mut self.tags, host, lists, 1, extents);
    }

    /// What the host has of the tag is told, where there is one.
    pub(crate) fn tell_left(&mut self, host: HostId, tag: &Option<Tag>)
        requires host { host < length self.old.hosts.items }
        requires few { host < 16 }
        ensures tags { self.new.tags.entries ≡ told host (part_of self.old host).lists (option_to_list tag.now) self.old.tags.entries }
        ensures spare { self.old.tags.spare ≤ self.new.tags.spare }
        ensures kept { self.new ≡ record self.old { tags = self.new.tags } }
    {
        if let Some(tag) = tag {
            let lists = lists_in(self.hosts.as_slice(), host);
            tell(&mut self.tags, host, lists, 0, tag);
        }
    }
}

/// The lists of a host.
pub(crate) fn lists_in(hosts: &[HostPart], host: HostId) -> &HostLists
    requires { host < length hosts.now }
    ensures { (d : HostPart) → result.now ≡ (slice_index_or hosts.now host d).lists }
{
    &hosts[usize::from(host.0)].lists
}

/// What the host has of the tag is told by its lists, of the offers those from an index on. Where the tag is not open nothing
/// changes.
fn tell(tags: &mut Tags, host: HostId, lists: &HostLists, first: usize, tag: &Tag)
    requires { host < 16 }
    ensures told { tags.new.entries ≡ told host (record lists.now { offers = drop first lists.now.offers }) (tag.now ∷ []) tags.old.entries }
    ensures spare { tags.old.spare ≤ tags.new.spare }
{
    if tags.is_empty() {
        return;
    }
    let held = lists.has_accepted(tag);
    let offered = lists.has_offered_from(first, tag);
    tags.set_host(tag, host, held, offered);
}

/// The same of the tag of each extent.
fn tell_all(tags: &mut Tags, host: HostId, lists: &HostLists, first: usize, extents: &[Extent])
    requires { host < 16 }
    ensures told { tags.new.entries ≡ told host (record lists.now { offers = drop first lists.now.offers }) (each_tag extents.now) tags.old.entries }
    ensures spare { tags.old.spare ≤ tags.new.spare }
{
    for i in 0..extents.len() {
        tell_next(tags, host, lists, first, extents, i);
    }
}

/// What the host has of the tag of the extent at the index is told, where it is told of those before.
fn tell_next(
    tags: &mut Tags,
    host: HostId,
    lists: &HostLists,
    first: usize,
    extents: &[Extent],
    index: usize,
)
    requires host { host < 16 }
    requires index { index < length extents.now }
    ensures told { (entries : List TagEntry) → tags.old.entries ≡ told host (record lists.now { offers = drop first lists.now.offers }) (each_tag (take index extents.now)) entries →
        tags.new.entries ≡ told host (record lists.now { offers = drop first lists.now.offers }) (each_tag (take (index + 1) extents.now)) entries }
    ensures spare { tags.old.spare ≤ tags.new.spare }
{
    if !has_tag_before(extents, index) {
        tell(tags, host, lists, first, &extents[index].tag);
    }
}

/// Whether the extent at the index has the tag of the one before it.
fn has_tag_before(extents: &[Extent], index: usize) -> bool
    requires { index < length extents.now }
    ensures { (d : Extent) → result ≡ true → (0 < index) × IsTrue (same_tag (slice_index_or extents.now (index - 1) d).tag (slice_index_or extents.now index d).tag) }
{
    index > 0 && same_tag(&extents[index - 1].tag, &extents[index].tag)
}

/// The tag of an offer in a shareable region is told, or opened with the runs of the offer, which the lists have by now.
fn tell_offer(tags: &mut Tags, config: &Config, host: HostId, lists: &HostLists, extents: &[Extent])
    requires host { host < config.now.hosts }
    requires few { config.now.hosts ≤ 16 }
    requires room { 0 < tags.old.spare }
    requires listed { length extents.now ≤ 64 }
    requires granular { AreGranular config.now host extents.now }
    ensures told { tags.new.entries ≡ offered_tag config.now host lists.now extents.now tags.old.entries }
    ensures spare { tags.old.spare ≤ tags.new.spare + 1 }
{
    if let Some(first) = extents.first() {
        let region = extent_list::media_map::region_at(config, host, first.start);
        tell_offer_in(tags, config, host, lists, region, &first.tag, extents);
    }
}

/// The same in this region, where there is one.
fn tell_offer_in(
    tags: &mut Tags,
    config: &Config,
    host: HostId,
    lists: &HostLists,
    region: Option<RegionId>,
    tag: &Tag,
    extents: &[Extent],
)
    requires host { host < config.now.hosts }
    requires few { config.now.hosts ≤ 16 }
    requires region { IfSome region (λ r. r < length config.now.regions) }
    requires room { 0 < tags.old.spare }
    requires listed { length extents.now ≤ 64 }
    requires granular { AreGranular config.now host extents.now }
    ensures told { tags.new.entries ≡ tag_offered config.now host lists.now tag.now extents.now region tags.old.entries }
    ensures spare { tags.old.spare ≤ tags.new.spare + 1 }
{
    match region {
        None => (),
        Some(region) => {
            if config.region(region).shareable {
                if tags.is_live(tag) {
                    tell(tags, host, lists, 0, tag);
                } else {
                    open(tags, config, host, region, tag, extents);
                }
            }
        }
    }
}

/// A tag that is not open is opened with the runs of these extents.
fn open(
    tags: &mut Tags,
    config: &Config,
    host: HostId,
    region: RegionId,
    tag: &Tag,
    extents: &[Extent],
)
    requires host { host < config.now.hosts }
    requires few { config.now.hosts ≤ 16 }
    requires new { has_entry tag.now tags.old.entries ≡ false }
    requires room { 0 < tags.old.spare }
    requires listed { length extents.now ≤ 64 }
    requires granular { AreGranular config.now host extents.now }
    ensures opened { tags.new.entries ≡ tags.old.entries ++ opened tag.now region (map (run_of config.now host) extents.now) host ∷ [] }
    ensures spare { tags.old.spare ≤ tags.new.spare + 1 }
{
    let mut runs = [Run {
        first: Granule(0),
        count: 0,
    }; 64];
    for i in 0..extents.len() {
        runs[i] = run_of(config, host, &extents[i]);
    }
    tags.open(*tag, region, host, &runs[..extents.len()]);
}

/// The run of an extent that is made of granules.
fn run_of(config: &Config, host: HostId, extent: &Extent) -> Run
    requires host { host < config.now.hosts }
    requires granular { IsTrue (is_granular config.now host extent.now.start extent.now.length) }
    ensures { result ≡ run_of config.now host extent.now }
{
    match extent_list::media_map::run_of(config, host, extent.start, extent.length) {
        Some(run) => run,
        None => unreachable!(),
    }
}
