//! What the device keeps of a live tag.

ghost use Rattle.std.specs.Prelude.{◌≡◌, ◌<◌, IfOk, false, not};
ghost use Rattle.tag_refs.specs.Changes.{IsHostsChange, entry_changed};
ghost use Rattle.tag_refs.specs.Tables.{is_held_by, entry_offers, is_used, set_by, tag_view, with_reference};

use crate::changes::Change;
use dcd_base::host_bits::{has, set, with, without};
use dcd_base::{HostId, NoMemory, RegionId, Runs, Tag, TagView};

/// A live shareable tag: the capacity that it stands for, and who uses it.
#[derive(Debug, Drop)]
pub struct TagEntry {
    pub tag: Tag,
    /// The shareable region in which its granules lie.
    pub region: RegionId,
    /// Its granules, in the order of its extents.
    pub runs: Runs,
    /// Bit h stands where host h holds the tag.
    pub holders: u16,
    /// Bit h stands where an offer of the tag to host h is unanswered.
    pub offered: u16,
    /// Whether the Fabric Manager has a reference to the tag.
    pub referenced: bool,
    /// Whether its granules are dirty once it ends, also where the region does not sanitize.
    pub soiled: bool,
}

impl TagEntry {
    /// An equal entry of its own.
    pub fn copy(&self) -> Result<TagEntry, NoMemory>
        ensures { IfOk result (λ copy. copy ≡ self.now) }
    {
        Ok(TagEntry {
            tag: self.tag,
            region: self.region,
            runs: self.runs.copy()?,
            holders: self.holders,
            offered: self.offered,
            referenced: self.referenced,
            soiled: self.soiled,
        })
    }

    /// What the Fabric Manager is shown of it.
    pub fn view(&self) -> TagView
        ensures { result ≡ tag_view self.now }
    {
        TagView {
            tag: self.tag,
            holders: self.holders,
            offered: self.offered,
            referenced: self.referenced,
        }
    }

    /// Whether the host holds the tag.
    pub fn is_held_by(&self, host: HostId) -> bool
        requires { host < 16 }
        ensures { result ≡ is_held_by host self.now }
    {
        has(self.holders, host)
    }

    /// Whether an offer of the tag to the host is unanswered.
    pub fn is_offered_to(&self, host: HostId) -> bool
        requires { host < 16 }
        ensures { result ≡ entry_offers host self.now }
    {
        has(self.offered, host)
    }

    /// Whether a host holds the tag, is offered it, or the Fabric Manager has a reference to it.
    pub(crate) fn is_used(&self) -> bool
        ensures { result ≡ is_used self.now }
    {
        self.holders != 0 || self.offered != 0 || self.referenced
    }

    /// Whether it is no longer used once the host holds the tag or not, and is offered it or not.
    pub(crate) fn ends(&self, host: HostId, held: bool, offered: bool) -> bool
        requires { host < 16 }
        ensures { result ≡ not (is_used (set_by host held offered self.now)) }
    {
        let holders = set(self.holders, host, held);
        let offered = set(self.offered, host, offered);
        holders == 0 && offered == 0 && !self.referenced
    }

    /// Whether it is no longer used once the Fabric Manager has no reference to it.
    pub(crate) fn ends_unreferenced(&self) -> bool
        ensures { result ≡ not (is_used (with_reference false self.now)) }
    {
        self.holders == 0 && self.offered == 0
    }

    /// Makes the change.
    pub(crate) fn apply(&mut self, change: Change)
        requires { IsHostsChange change }
        ensures { self.new ≡ entry_changed change self.old }
    {
        match change {
            Change::Offer(host) => self.offered = with(self.offered, host),
            Change::Settle(host, accepted) => {
                self.offered = without(self.offered, host);
                if accepted {
                    self.holders = with(self.holders, host);
                }
            }
            Change::Leave(host) => self.holders = without(self.holders, host),
            Change::Host(host, held, offered) => {
                self.holders = set(self.holders, host, held);
                self.offered = set(self.offered, host, offered);
            }
            Change::Refer(on) => self.referenced = on,
            Change::Soil => self.soiled = true,
        }
    }
}
