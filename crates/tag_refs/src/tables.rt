//! The table of live tags.

ghost use Rattle.std.specs.Option.{option_copied, option_map};
ghost use Rattle.std.specs.Prelude.{◌≡◌, ◌==◌, ◌+◌, ◌<◌, ◌≤◌, ◌++◌, ◌∷◌, [], IfErr, IfOk, IsTrue, OnErr, OnOk, Some, false, length, not, slice_get, true, vec_capacity};
ghost use Rattle.indexmap.specs.IndexMap.{spare, values};
ghost use Rattle.tag_refs.specs.Changes.{IsHostsChange, entry_changed};
ghost use Rattle.tag_refs.specs.Stored.{IsStored};
ghost use Rattle.tag_refs.specs.Tables.{AreTags, entries_changed, entries_ended, entries_without, left_by, entry_with, is_held_by, has_entry, entry_offers, entry_referenced, entry_soiled, is_used, entry_with_offer, opened, passes, set_by, settled_by, tag_view, with_reference, with_soil};
ghost use Rattle.tag_refs.specs.declared.entries.TagEntry.{TagEntry};

use crate::changes::Change;
use crate::entries::TagEntry;
use crate::faults::TagFault;
use dcd_base::host_bits::with;
use dcd_base::{HostId, NoMemory, RegionId, Run, Runs, Tag, TagView};
use indexmap::IndexMap;
use std::alloc::Global;
use std::marker::Model;
use std::mem::replace;

/// The live shareable tags, in the order of opening.
///
/// Contracts see their entries and the spare, which is 1 where one tag more can be opened without memory, and else 0.
#[derive(Drop)]
pub struct Tags {
    entries: IndexMap<Tag, TagEntry>,
    /// Memory for the runs of the next tag.
    runs: Vec<Run>,
}

/// A tag has so many runs at most that is opened without memory: one for each extent that a host can have.
const RUNS: usize = 64;

impl Model for Tags {
    ghost use Rattle.indexmap.specs.IndexMap.{spare, values};
    ghost use Rattle.std.specs.Prelude.{◌≡◌, [], vec_capacity};
    ghost use Rattle.tag_refs.specs.Stored.{IsStored, spare_with};
    ghost use Rattle.tag_refs.specs.Tables.{TagTable};

    ghost Value = { TagTable };

    ghost view = { λ tags. record { entries = values tags.entries; spare = spare_with (vec_capacity tags.runs) (spare tags.entries) } };

    ghost invariant = { λ tags. IsStored tags.entries.entries × (tags.runs.items ≡ []) };
}

impl Tags {
    /// No tags. It takes no memory.
    pub fn new(alloc: Global) -> Tags
        ensures { result.entries ≡ [] }
    {
        Tags {
            entries: IndexMap::new(alloc),
            runs: Vec::new(alloc),
        }
    }

    /// How many tags are live.
    pub fn len(&self) -> usize
        ensures len { result ≡ length self.now.entries }
        ensures tags { AreTags self.now.entries }
    {
        self.entries.len()
    }

    /// Whether no tag is live.
    pub fn is_empty(&self) -> bool
        ensures { result ≡ (length self.now.entries == 0) }
    {
        self.entries.len() == 0
    }

    /// An equal table of its own.
    pub fn copy(&self) -> Result<Tags, NoMemory>
        ensures { IfOk result (λ copy. copy.entries ≡ self.now.entries) }
    {
        let mut copy = Tags::new(*self.entries.allocator());
        for i in 0..self.len() {
            copy.push(self.entry(i).copy()?)?;
        }
        Ok(copy)
    }

    /// The entry of the tag; None exactly where the tag is not live.
    pub fn find(&self, tag: &Tag) -> Option<&TagEntry>
        ensures { option_copied result ≡ entry_with tag.now self.now.entries }
    {
        if self.is_empty() {
            return None;
        }
        self.entries.get(tag)
    }

    /// Whether the tag is live.
    pub fn is_live(&self, tag: &Tag) -> bool
        ensures { result ≡ has_entry tag.now self.now.entries }
    {
        self.find(tag).is_some()
    }

    /// Whether the tag is live and the host holds it.
    pub fn is_held_by(&self, tag: &Tag, host: HostId) -> bool
        requires { host < 16 }
        ensures { result ≡ passes tag.now (is_held_by host) self.now.entries }
    {
        match self.find(tag) {
            Some(entry) => entry.is_held_by(host),
            None => false,
        }
    }

    /// Whether the tag is live and an offer of it to the host is unanswered.
    pub fn is_offered_to(&self, tag: &Tag, host: HostId) -> bool
        requires { host < 16 }
        ensures { result ≡ passes tag.now (entry_offers host) self.now.entries }
    {
        match self.find(tag) {
            Some(entry) => entry.is_offered_to(host),
            None => false,
        }
    }

    /// Whether the tag is live and the Fabric Manager has a reference to it.
    pub fn is_referenced(&self, tag: &Tag) -> bool
        ensures { result ≡ passes tag.now entry_referenced self.now.entries }
    {
        match self.find(tag) {
            Some(entry) => entry.referenced,
            None => false,
        }
    }

    /// Whether the tag is live and ends once the host is made a holder of it or not, and offered it or not.
    pub fn ends(&self, tag: &Tag, host: HostId, held: bool, offered: bool) -> bool
        requires { host < 16 }
        ensures { result ≡ passes tag.now (λ e. not (is_used (set_by host held offered e))) self.now.entries }
    {
        match self.find(tag) {
            Some(entry) => entry.ends(host, held, offered),
            None => false,
        }
    }

    /// Whether the tag is live and ends once the Fabric Manager has no reference to it.
    pub fn ends_unreferenced(&self, tag: &Tag) -> bool
        ensures { result ≡ passes tag.now (λ e. not (is_used (with_reference false e))) self.now.entries }
    {
        match self.find(tag) {
            Some(entry) => entry.ends_unreferenced(),
            None => false,
        }
    }

    /// What the Fabric Manager is shown of the entry at an index below the length, in the order of opening.
    pub fn at(&self, index: usize) -> TagView
        requires { index < length self.now.entries }
        ensures { option_map tag_view (slice_get self.now.entries index) ≡ Some result }
    {
        self.entry(index).view()
    }

    /// Whether the tag's granules are dirty once it ends, also where the region does not sanitize. It is false
    /// for a tag that is not live.
    pub fn soiled(&self, tag: &Tag) -> bool
        ensures { result ≡ passes tag.now entry_soiled self.now.entries }
    {
        match self.find(tag) {
            Some(entry) => entry.soiled,
            None => false,
        }
    }

    /// Takes the memory for one tag more, of 64 runs at most. The entries stay, and without memory the spare is no less than it
    /// was.
    pub fn make_room(&mut self) -> Result<(), NoMemory>
        ensures room { OnOk result (0 < self.new.spare) }
        ensures entries { self.new.entries ≡ self.old.entries }
        ensures spare { self.old.spare ≤ self.new.spare }
    {
        self.runs.reserve(RUNS)?;
        self.entries.reserve(1)?;
        Ok(())
    }

    /// Opens a tag that is not live, as the last, offered to the host. It takes memory only where there is no spare,
    /// of which it uses one. Without memory no entry changes.
    pub fn begin(
        &mut self,
        tag: Tag,
        region: RegionId,
        runs: Runs,
        host: HostId,
    ) -> Result<(), NoMemory>
        requires host { host < 16 }
        requires new { has_entry tag self.old.entries ≡ false }
        ensures begun { OnOk result (self.new.entries ≡ self.old.entries ++ opened tag region runs host ∷ []) }
        ensures kept { OnErr result (self.new.entries ≡ self.old.entries) }
        ensures full { OnErr result (self.old.spare ≡ 0) }
        ensures spare { self.old.spare ≤ self.new.spare + 1 }
    {
        self.push(opened(tag, region, runs, host))
    }

    /// Opens a tag that is not live, as the last, offered to the host, with these runs, 64 at most. It takes no memory, and uses
    /// the spare.
    pub fn open(&mut self, tag: Tag, region: RegionId, host: HostId, runs: &[Run])
        requires host { host < 16 }
        requires new { has_entry tag self.old.entries ≡ false }
        requires room { 0 < self.old.spare }
        requires few { length runs.now ≤ 64 }
        ensures opened { self.new.entries ≡ self.old.entries ++ opened tag region runs.now host ∷ [] }
        ensures spare { self.old.spare ≤ self.new.spare + 1 }
    {
        let alloc = *self.entries.allocator();
        let own = filled(replace(&mut self.runs, Vec::new(alloc)), runs);
        let entry = opened(tag, region, Runs::from_vec(alloc, own), host);
        match put_last(&mut self.entries, entry) {
            Ok(()) => (),
            Err(_) => unreachable!(),
        }
    }

    /// Offers a live tag to a host that neither holds it nor is offered it.
    pub fn share(&mut self, tag: &Tag, host: HostId)
        requires host { host < 16 }
        requires live { IsTrue (has_entry tag.now self.old.entries) }
        requires not_held { passes tag.now (is_held_by host) self.old.entries ≡ false }
        requires not_offered { passes tag.now (entry_offers host) self.old.entries ≡ false }
        ensures offered { self.new.entries ≡ entries_changed tag.now (entry_with_offer host) self.old.entries }
        ensures spare { self.old.spare ≤ self.new.spare }
    {
        self.change(tag, Change::Offer(host));
    }

    /// Ends the unanswered offer of the tag to the host, which holds the tag from then on where it accepted.
    /// Answers true exactly where the tag ended, and its entry is gone.
    pub fn settle(&mut self, tag: &Tag, host: HostId, accepted: bool) -> bool
        requires host { host < 16 }
        requires offered { IsTrue (passes tag.now (entry_offers host) self.old.entries) }
        ensures settled { self.new.entries ≡ entries_ended tag.now (entries_changed tag.now (settled_by host accepted) self.old.entries) }
        ensures ended { result ≡ not (has_entry tag.now self.new.entries) }
        ensures spare { self.old.spare ≤ self.new.spare }
    {
        self.change(tag, Change::Settle(host, accepted));
        self.end_unused(tag)
    }

    /// Takes the tag from a host that holds it. Answers true exactly where the tag ended, and its entry is gone.
    pub fn drop_holder(&mut self, tag: &Tag, host: HostId) -> bool
        requires host { host < 16 }
        requires held { IsTrue (passes tag.now (is_held_by host) self.old.entries) }
        ensures dropped { self.new.entries ≡ entries_ended tag.now (entries_changed tag.now (left_by host) self.old.entries) }
        ensures ended { result ≡ not (has_entry tag.now self.new.entries) }
        ensures spare { self.old.spare ≤ self.new.spare }
    {
        self.change(tag, Change::Leave(host));
        self.end_unused(tag)
    }

    /// Makes the host a holder of a live tag or not, and offered it or not. The tag does not end by it, also where no use is
    /// left. Where it is not live nothing changes.
    pub fn set_host(&mut self, tag: &Tag, host: HostId, held: bool, offered: bool)
        requires { host < 16 }
        ensures set { self.new.entries ≡ entries_changed tag.now (set_by host held offered) self.old.entries }
        ensures spare { self.old.spare ≤ self.new.spare }
    {
        self.change(tag, Change::Host(host, held, offered));
    }

    /// Gives the Fabric Manager a reference to a live tag, or takes it away. The tag does not end by it, also where no use is
    /// left. Where it is not live nothing changes.
    pub fn set_reference(&mut self, tag: &Tag, on: bool)
        ensures set { self.new.entries ≡ entries_changed tag.now (with_reference on) self.old.entries }
        ensures spare { self.old.spare ≤ self.new.spare }
    {
        self.change(tag, Change::Refer(on));
    }

    /// Ends the tag: its entry is gone. Where it is not live nothing changes.
    pub fn end(&mut self, tag: &Tag)
        ensures ended { self.new.entries ≡ entries_without tag.now self.old.entries }
        ensures spare { self.old.spare ≤ self.new.spare }
    {
        // No two entries have one tag.
        let _tags = self.entries.len();
        self.entries.shift_remove(tag);
    }

    /// Gives the Fabric Manager a reference to the tag. Answers true exactly where it had none.
    ///
    /// `UnknownTag` comes exactly where the tag is not live; nothing changes then.
    pub fn add_reference(&mut self, tag: &Tag) -> Result<bool, TagFault>
        ensures referenced { OnOk result (self.new.entries ≡ entries_changed tag.now (with_reference true) self.old.entries) }
        ensures new { IfOk result (λ new. new ≡ not (passes tag.now entry_referenced self.old.entries)) }
        ensures live { OnOk result (has_entry tag.now self.old.entries ≡ true) }
        ensures fault { IfErr result (λ fault. fault ≡ TagFault.UnknownTag) }
        ensures unknown { OnErr result (has_entry tag.now self.old.entries ≡ false) }
        ensures kept { OnErr result (self.new ≡ self.old) }
        ensures spare { self.old.spare ≤ self.new.spare }
    {
        match self.find(tag) {
            None => Err(TagFault::UnknownTag),
            Some(entry) => {
                let new = !entry.referenced;
                self.change(tag, Change::Refer(true));
                Ok(new)
            }
        }
    }

    /// Takes the Fabric Manager's reference to the tag away. Answers true exactly where the tag ended, and its
    /// entry is gone.
    ///
    /// `NotReferenced` comes exactly where there is no reference to the tag, also where it is not live; nothing
    /// changes then.
    pub fn remove_reference(&mut self, tag: &Tag) -> Result<bool, TagFault>
        ensures removed { OnOk result (self.new.entries ≡ entries_ended tag.now (entries_changed tag.now (with_reference false) self.old.entries)) }
        ensures ended { IfOk result (λ ended. ended ≡ not (has_entry tag.now self.new.entries)) }
        ensures referenced { OnOk result (passes tag.now entry_referenced self.old.entries ≡ true) }
        ensures fault { IfErr result (λ fault. fault ≡ TagFault.NotReferenced) }
        ensures none { OnErr result (passes tag.now entry_referenced self.old.entries ≡ false) }
        ensures kept { OnErr result (self.new ≡ self.old) }
        ensures spare { self.old.spare ≤ self.new.spare }
    {
        if self.is_referenced(tag) {
            self.change(tag, Change::Refer(false));
            Ok(self.end_unused(tag))
        } else {
            Err(TagFault::NotReferenced)
        }
    }

    /// Makes a live tag's granules dirty once it ends, also where the region does not sanitize. It is there for callers
    /// that keep this of tags; the device keeps it of granules.
    pub fn soil(&mut self, tag: &Tag)
        requires { IsTrue (has_entry tag.now self.old.entries) }
        ensures soiled { self.new.entries ≡ entries_changed tag.now with_soil self.old.entries }
        ensures spare { self.old.spare ≤ self.new.spare }
    {
        self.change(tag, Change::Soil);
    }

    /// The entry at an index below the length.
    fn entry(&self, index: usize) -> &TagEntry
        requires { index < length self.now.entries }
        ensures { slice_get self.now.entries index ≡ Some result.now }
    {
        &self.entries[index]
    }

    /// Puts an entry at the end of a tag that is not live.
    fn push(&mut self, entry: TagEntry) -> Result<(), NoMemory>
        requires { has_entry entry.tag self.old.entries ≡ false }
        ensures pushed { OnOk result (self.new.entries ≡ self.old.entries ++ entry ∷ []) }
        ensures kept { OnErr result (self.new.entries ≡ self.old.entries) }
        ensures full { OnErr result (self.old.spare ≡ 0) }
        ensures spare { self.old.spare ≤ self.new.spare + 1 }
    {
        put_last(&mut self.entries, entry)
    }

    /// Changes the entry of the tag. Where it is not live nothing changes.
    fn change(&mut self, tag: &Tag, change: Change)
        requires { IsHostsChange change }
        ensures changed { self.new.entries ≡ entries_changed tag.now (entry_changed change) self.old.entries }
        ensures spare { self.old.spare ≤ self.new.spare }
    {
        if let Some(entry) = self.entries.get_mut(tag) {
            entry.apply(change);
        }
    }

    /// Ends the tag where it is used no more. Answers true exactly where it is not live then.
    fn end_unused(&mut self, tag: &Tag) -> bool
        ensures ended { self.new.entries ≡ entries_ended tag.now self.old.entries }
        ensures gone { result ≡ not (has_entry tag.now self.new.entries) }
        ensures spare { self.old.spare ≤ self.new.spare }
    {
        if self.is_used(tag) {
            return false;
        }
        self.end(tag);
        true
    }

    /// Whether the tag is live, and a host holds it or is offered it, or the Fabric Manager has a reference to it.
    fn is_used(&self, tag: &Tag) -> bool
        ensures { result ≡ passes tag.now is_used self.now.entries }
    {
        match self.find(tag) {
            Some(entry) => entry.is_used(),
            None => false,
        }
    }
}

/// The entry of a tag that is opened with these runs, offered to the host.
fn opened(tag: Tag, region: RegionId, runs: Runs, host: HostId) -> TagEntry
    requires { host < 16 }
    ensures { result ≡ opened tag region runs host }
{
    TagEntry {
        tag,
        region,
        runs,
        holders: 0,
        offered: with(0, host),
        referenced: false,
        soiled: false,
    }
}

/// These runs in memory that is there for 64.
fn filled(empty: Vec<Run>, runs: &[Run]) -> Vec<Run>
    requires empty { empty.items ≡ [] }
    requires room { 64 ≤ vec_capacity empty }
    requires few { length runs.now ≤ 64 }
    ensures { result.items ≡ runs.now }
{
    let mut own = empty;
    match own.extend_from_slice(runs) {
        Ok(()) => own,
        Err(_) => unreachable!(),
    }
}

/// Puts an entry at the end of a tag that has none.
fn put_last(entries: &mut IndexMap<Tag, TagEntry>, entry: TagEntry) -> Result<(), NoMemory>
    requires stored { IsStored entries.old.entries }
    requires new { has_entry entry.tag (values entries.old) ≡ false }
    ensures stored { IsStored entries.new.entries }
    ensures put { OnOk result (values entries.new ≡ values entries.old ++ entry ∷ []) }
    ensures kept { OnErr result (values entries.new ≡ values entries.old) }
    ensures full { OnErr result (spare entries.old ≡ 0) }
    ensures spare { spare entries.old ≤ spare entries.new + 1 }
{
    entries.insert(entry.tag, entry)?;
    Ok(())
}
