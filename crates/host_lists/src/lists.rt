//! The lists, and what is read of them.

ghost use Rattle.extent_list.specs.dcd_codes.specs.dcd_base.specs.Limits.{extents_supported, tags_supported};
ghost use Rattle.extent_list.specs.ExtentLists.{count_in, has_extent_of, marked, real_tags};
ghost use Rattle.extent_list.specs.HostLists.{extent_total, extents_of_lists, no_lists};
ghost use Rattle.host_lists.specs.Tags.{capped, tag_count};
ghost use Rattle.offer_core.specs.Offerings.{lists_of, oldest_of};
ghost use Rattle.std.specs.List.{list_any};
ghost use Rattle.std.specs.Prelude.{◌≡◌, ◌++◌, ◌+◌, ◌-◌, ◌^◌, ◌<◌, ◌≤◌, [], IfOk, Some, drop, length, map, slice_get};

use crate::accepted::AcceptedList;
use crate::offer_lists::OfferLists;
use crate::tag_counts::{all_tags, has_in_offers, more_tags};
use extent_list::dcd_codes::dcd_base::limits::{EXTENTS, TAGS};
use extent_list::dcd_codes::dcd_base::{Extent, Extents, NoMemory, Tag};
use extent_list::{ExtentList, has_extent_of};
use offer_core::Offers;
use release_core::Releases;
use std::alloc::Global;
use std::marker::Model;

/// What the device keeps of a host's extents.
///
/// It has its memory from the start: for 128 accepted extents, for 64 offers of 64 extents together, and for 64 held ones of
/// responses and of releases.
#[derive(Debug, Drop)]
pub struct HostLists {
    pub(crate) accepted: AcceptedList,
    pub(crate) offers: Offers,
    pub(crate) releases: Releases,
    pub(crate) generation: u32,
}

impl Model for HostLists {
    ghost use Rattle.extent_list.specs.HostLists.{Lists};
    ghost use Rattle.offer_core.specs.Offerings.{lists_of};

    ghost Value = { Lists };

    ghost view = { λ l. record {
      accepted = l.accepted;
      offers = lists_of l.offers.offers;
      responses = l.offers.held;
      releases = l.releases;
      generation = l.generation;
    } };
}

impl HostLists {
    /// Nothing accepted, offered or held.
    pub fn new(alloc: Global) -> Result<HostLists, NoMemory>
        ensures { IfOk result (λ new. new ≡ no_lists) }
    {
        Ok(HostLists {
            accepted: AcceptedList::new(alloc)?,
            offers: Offers::new(alloc)?,
            releases: Releases::new(alloc)?,
            generation: 0,
        })
    }

    /// The extents that the host has accepted, in the order in which it did.
    pub fn accepted(&self) -> &ExtentList
        ensures { result.now.extents ≡ self.now.accepted }
    {
        self.accepted.list()
    }

    /// The extents of the oldest unanswered offer; none where there is no offer.
    pub fn oldest(&self) -> &[Extent]
        ensures { result.now ≡ oldest_of self.now.offers }
    {
        self.offers.oldest()
    }

    /// How many extents all unanswered offers have together.
    pub fn offered(&self) -> usize
        requires few { extent_total self.now ≤ 64 }
        ensures { result ≡ count_in self.now.offers }
    {
        self.offers.extents()
    }

    /// The unanswered offers, and what responses with More hold of the oldest.
    pub fn offers(&self) -> &Offers
        ensures offers { lists_of result.now.offers ≡ self.now.offers }
        ensures held { result.now.held ≡ self.now.responses }
    {
        &self.offers
    }

    /// What responses with More hold so far.
    pub fn responses(&self) -> &[Extent]
        ensures { result.now ≡ self.now.responses }
    {
        self.offers.held()
    }

    /// What releases with More hold so far.
    pub fn releases(&self) -> &[Extent]
        ensures { result.now ≡ self.now.releases }
    {
        self.releases.held()
    }

    /// How many offers are unanswered.
    pub fn offer_count(&self) -> usize
        ensures { result ≡ length self.now.offers }
    {
        self.offers.len()
    }

    /// The extents of an unanswered offer, the oldest at 0.
    pub fn offer_at(&self, index: usize) -> &[Extent]
        requires { index < length self.now.offers }
        ensures { slice_get self.now.offers index ≡ Some result.now }
    {
        self.offers.at(index)
    }

    /// How often the accepted list changed, modulo 2^32 (CXL 3.1, 8.2.9.9.9.2).
    pub fn generation(&self) -> u32
        ensures { result ≡ self.now.generation }
    {
        self.generation
    }

    /// Whether an accepted extent has the tag.
    pub fn has_accepted(&self, tag: &Tag) -> bool
        ensures { result ≡ has_extent_of tag.now self.now.accepted }
    {
        has_extent_of(tag, self.accepted.list().as_slice())
    }

    /// Whether an extent of an unanswered offer has the tag.
    pub fn has_offered(&self, tag: &Tag) -> bool
        ensures { result ≡ list_any (has_extent_of tag.now) self.now.offers }
    {
        has_in_offers(tag, &OfferLists::all(&self.offers), self.offers.len())
    }

    /// Whether an extent of an unanswered offer has the tag, of those from the index `first` on; the oldest has the index 0.
    pub fn has_offered_from(&self, first: usize, tag: &Tag) -> bool
        ensures { result ≡ list_any (has_extent_of tag.now) (drop first self.now.offers) }
    {
        let offers = OfferLists::from(&self.offers, first);
        has_in_offers(tag, &offers, offers.len())
    }

    /// How many more extents the host may get; none where it has more than it may.
    pub fn extents_available(&self) -> u32
        ensures { result ≡ extents_supported - length (extents_of_lists self.now) }
    {
        let left = EXTENTS.saturating_sub(self.accepted.list().len());
        left.saturating_sub(self.offers.extents()) as u32
    }

    /// How many tags the extents have that the host has accepted or is offered, up to the end of 32 bits.
    pub(crate) fn tags(&self) -> u32
        ensures { result ≡ capped (tag_count (extents_of_lists self.now)) }
    {
        all_tags(
            self.accepted.list().as_slice(),
            &OfferLists::all(&self.offers),
        )
    }

    /// How many more tags the host may get; none where it has more than it may.
    pub fn tags_available(&self) -> u32
        ensures { result ≡ tags_supported - length (real_tags (extents_of_lists self.now)) }
    {
        TAGS.saturating_sub(self.tags())
    }

    /// How many tags there would be with these extents behind those that the host has accepted or is offered.
    pub fn tags_with(&self, more: &[Extent]) -> u32
        requires few { extent_total self.now + length more.now < 2 ^ 32 }
        ensures { result ≡ length (real_tags (extents_of_lists self.now ++ more.now)) }
    {
        let accepted = self.accepted.list().as_slice();
        let offers = OfferLists::all(&self.offers);
        more_tags(self.tags(), accepted, &offers, self.offers.len(), more)
    }

    /// What a release gives back with this list of a message behind what is held: each extent with the tag and the sequence of
    /// the accepted extent in which it lies.
    pub fn leaving_of(&self, list: &Extents) -> Result<Extents, NoMemory>
        ensures { IfOk result (λ leaving. leaving ≡ map (marked self.now.accepted) (self.now.releases ++ list.now)) }
    {
        self.releases.leaving_of(self.accepted().as_slice(), list)
    }

    /// Lets go what responses with More hold.
    pub fn drop_responses(&mut self)
        ensures { self.new ≡ record self.old { responses = [] } }
    {
        self.offers.drop_held();
    }

    /// Lets go what releases with More hold.
    pub fn drop_releases(&mut self)
        ensures { self.new ≡ record self.old { releases = [] } }
    {
        self.releases.drop_held();
    }
}
