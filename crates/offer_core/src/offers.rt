//! The unanswered offers of a host, and what it has answered so far.

ghost use Rattle.extent_list.specs.ExtentLists.{count_in};
ghost use Rattle.offer_core.specs.Offerings.{lists_of, oldest_of};
ghost use Rattle.offer_core.specs.Parting.{AreParts, parted};
ghost use Rattle.std.specs.Prelude.{◌≡◌, ◌==◌, ◌++◌, ◌∷◌, ◌+◌, ◌<◌, ◌≤◌, ◌⊎◌, [], IfOk, OnErr, OnOk, Some, drop, length, slice_get, vec_capacity, vec_len};

use crate::offer::Offer;
use extent_list::dcd_codes::dcd_base::limits::{EXTENTS, LISTED_EXTENTS};
use extent_list::dcd_codes::dcd_base::{Extent, NoMemory};
use std::alloc::Global;
use std::marker::Model;

/// The unanswered offers of one host, the oldest first, and the list that it holds.
///
/// It has its memory for 64 offers of 64 extents together and for 64 held extents from the start: as many of each as a host
/// can have by the rules of the device. Contracts see the offers and the held list.
#[derive(Debug, Drop)]
pub struct Offers {
    alloc: Global,
    /// The extents of all offers, those of the oldest first.
    extents: Vec<Extent>,
    /// How many of them each offer has.
    counts: Vec<usize>,
    held: Vec<Extent>,
}

impl Model for Offers {
    ghost use Rattle.offer_core.specs.Offerings.{Offering};
    ghost use Rattle.offer_core.specs.Parting.{AreParts, parted};
    ghost use Rattle.std.specs.Prelude.{◌≤◌, vec_capacity};

    ghost Value = { Offering };

    ghost view = { λ o. record { offers = parted o.counts.items o.extents.items; held = o.held.items } };

    ghost invariant = { λ o.
        AreParts o.counts.items o.extents.items
        × (64 ≤ vec_capacity o.extents)
        × (64 ≤ vec_capacity o.counts)
        × (64 ≤ vec_capacity o.held) };
}

impl Offers {
    /// No offer, and nothing held.
    pub fn new(alloc: Global) -> Result<Offers, NoMemory>
        ensures offers { IfOk result (λ new. new.offers ≡ []) }
        ensures held { IfOk result (λ new. new.held ≡ []) }
    {
        Ok(Offers {
            alloc,
            extents: Vec::with_capacity(alloc, EXTENTS)?,
            counts: Vec::with_capacity(alloc, EXTENTS)?,
            held: Vec::with_capacity(alloc, LISTED_EXTENTS)?,
        })
    }

    /// Equal offers and an equal held list of their own.
    pub fn copy(&self) -> Result<Offers, NoMemory>
        ensures { IfOk result (λ copy. copy ≡ self.now) }
    {
        Ok(Offers {
            alloc: self.alloc,
            extents: copied(self.alloc, self.extents.as_slice())?,
            counts: copied(self.alloc, self.counts.as_slice())?,
            held: copied(self.alloc, self.held.as_slice())?,
        })
    }

    /// Makes the offers and the held list equal to others. Memory is asked for only where those are more than a host can have by the
    /// rules of the device; without it no offer and no held extent is there, or the held list alone.
    pub fn stand_as(&mut self, others: &Offers) -> Result<(), NoMemory>
        ensures equal { OnOk result (self.new ≡ others.now) }
        ensures none { OnErr result (self.new.offers ≡ []) }
    {
        self.counts.clear();
        self.extents.clear();
        self.held.clear();
        self.held.extend_from_slice(others.held.as_slice())?;
        self.counts.reserve(others.counts.len())?;
        self.extents.extend_from_slice(others.extents.as_slice())?;
        match self.counts.extend_from_slice(others.counts.as_slice()) {
            Ok(()) => Ok(()),
            Err(_) => unreachable!(),
        }
    }

    /// The allocator that it grows by.
    pub fn allocator(&self) -> Global {
        self.alloc
    }

    /// Puts an offer behind the others. Without memory, which is asked for only where 64 offers wait or they would have more
    /// than 64 extents together, nothing changes.
    #[tactic(auto, using(crate::proofs::Parts::count_parted, crate::proofs::Parts::length_parted, crate::proofs::Parts::parted_push, crate::proofs::Parts::parts_push))]
    pub fn push(&mut self, offer: Offer) -> Result<(), NoMemory>
        ensures pushed { OnOk result (self.new ≡ record self.old { offers = self.old.offers ++ offer ∷ [] }) }
        ensures kept { OnErr result (self.new ≡ self.old) }
        ensures full { OnErr result ((64 ≤ length self.old.offers) ⊎ (64 < count_in (lists_of self.old.offers) + length offer.extents)) }
    {
        self.counts.reserve(1)?;
        self.extents.extend_from_slice(offer.extents.as_slice())?;
        self.counts.push_reserved(offer.extents.len());
        Ok(())
    }

    /// Puts an offer of these extents behind the others, of which there are fewer than 64, and together 64 extents at most. It
    /// takes no memory.
    #[tactic(auto, using(crate::proofs::Parts::count_parted, crate::proofs::Parts::length_parted, crate::proofs::Parts::parted_push, crate::proofs::Parts::parts_push))]
    pub fn push_within(&mut self, extents: &[Extent])
        requires offers { length self.old.offers < 64 }
        requires extents { count_in (lists_of self.old.offers) + length extents.now ≤ 64 }
        ensures { self.new ≡ record self.old { offers = self.old.offers ++ record { extents = extents.now } ∷ [] } }
    {
        match self.extents.extend_from_slice(extents) {
            Ok(()) => self.counts.push_reserved(extents.len()),
            Err(_) => unreachable!(),
        }
    }

    /// Takes the oldest offer out, where there is one. It takes no memory.
    pub fn drop_oldest(&mut self)
        ensures { self.new ≡ record self.old { offers = drop 1 self.old.offers } }
    {
        if !self.counts.is_empty() {
            let count = self.counts.remove(0);
            drop_front(&mut self.extents, count);
        }
    }

    /// How many offers are unanswered.
    #[tactic(auto, using(crate::proofs::Parts::length_parted))]
    pub fn len(&self) -> usize
        ensures { result ≡ length self.now.offers }
    {
        self.counts.len()
    }

    /// Whether every offer is answered.
    #[tactic(auto, using(crate::proofs::Parts::length_parted))]
    pub fn is_empty(&self) -> bool
        ensures { result ≡ (length self.now.offers == 0) }
    {
        self.counts.is_empty()
    }

    /// The extents of the offer at an index below the length; the oldest has the index 0.
    #[tactic(auto, using(crate::proofs::Parts::length_parted))]
    pub fn at(&self, index: usize) -> &[Extent]
        requires { index < length self.now.offers }
        ensures { slice_get (lists_of self.now.offers) index ≡ Some result.now }
    {
        part_at(self.counts.as_slice(), self.extents.as_slice(), index)
    }

    /// The held list.
    pub fn held(&self) -> &[Extent]
        ensures { result.now ≡ self.now.held }
    {
        self.held.as_slice()
    }

    /// How many extents all offers have together.
    #[tactic(auto, using(crate::proofs::Parts::count_parted))]
    pub fn extents(&self) -> usize
        ensures { result ≡ count_in (lists_of self.now.offers) }
    {
        self.extents.len()
    }

    /// How many extents the offers behind the oldest have together.
    #[tactic(auto, using(crate::proofs::Parts::count_parted, crate::proofs::Counting::count_in_parts))]
    pub fn later_extents(&self) -> usize
        ensures value { result ≡ count_in (drop 1 (lists_of self.now.offers)) }
        ensures fewer { result ≤ count_in (lists_of self.now.offers) }
    {
        self.extents.len() - self.oldest().len()
    }

    /// The extents of the oldest offer; none where there is no offer.
    pub fn oldest(&self) -> &[Extent]
        ensures { result.now ≡ oldest_of (lists_of self.now.offers) }
    {
        match self.counts.first() {
            Some(count) => {
                let (oldest, _) = self.extents.as_slice().split_at(*count);
                oldest
            }
            None => &[],
        }
    }

    /// Holds the list of a message behind the held one. Without memory, which is asked for only where more than 64 would be
    /// held, nothing changes.
    pub fn hold(&mut self, list: &[Extent]) -> Result<(), NoMemory>
        ensures held { OnOk result (self.new ≡ record self.old { held = self.old.held ++ list.now }) }
        ensures kept { OnErr result (self.new ≡ self.old) }
        ensures full { OnErr result (64 < length self.old.held + length list.now) }
    {
        self.held.extend_from_slice(list)?;
        Ok(())
    }

    /// Holds the list of a message behind the held one, where they are 64 at most together. It takes no memory.
    pub fn hold_within(&mut self, list: &[Extent])
        requires { length self.old.held + length list.now ≤ 64 }
        ensures { self.new ≡ record self.old { held = self.old.held ++ list.now } }
    {
        match self.held.extend_from_slice(list) {
            Ok(()) => (),
            Err(_) => unreachable!(),
        }
    }

    /// Lets the held list go, and changes nothing else. Its memory stays.
    pub fn drop_held(&mut self)
        ensures { self.new ≡ record self.old { held = [] } }
    {
        self.held.clear();
    }
}

/// Lets so many extents go from the front.
fn drop_front(extents: &mut Vec<Extent>, count: usize)
    requires { count ≤ vec_len extents.old }
    ensures items { extents.new.items ≡ drop count extents.old.items }
    ensures capacity { vec_capacity extents.new ≡ vec_capacity extents.old }
{
    let len = extents.len();
    if count > 0 {
        extents.copy_within(count..len, 0);
        extents.truncate(len - count);
    }
}

/// The same items in memory for 64 of them at least.
fn copied<T: Copy>(alloc: Global, items: &[T]) -> Result<Vec<T>, NoMemory>
    ensures items { IfOk result (λ copy. copy.items ≡ items.now) }
    ensures room { IfOk result (λ copy. 64 ≤ vec_capacity copy) }
{
    let mut copy = Vec::with_capacity(alloc, EXTENTS.max(items.len()))?;
    copy.extend_from_slice(items)?;
    Ok(copy)
}

fn part_at<'a>(counts: &[usize], extents: &'a [Extent], index: usize) -> &'a [Extent]
    requires parts { AreParts counts.now extents.now }
    requires index { index < length counts.now }
    ensures { slice_get (lists_of (parted counts.now extents.now)) index ≡ Some result.now }
{
    let mut from = 0;
    for i in 0..index {
        from += counts[i];
    }
    let (_, rest) = extents.split_at(from);
    let (part, _) = rest.split_at(counts[index]);
    part
}
