//! The extents of each offer, of all offers or of those from an index on.

ghost use Rattle.offer_core.specs.Offerings.{lists_of};
ghost use Rattle.std.specs.Prelude.{◌≡◌, ◌<◌, Some, drop, length, slice_get};

use extent_list::dcd_codes::dcd_base::Extent;
use offer_core::Offers;
use std::marker::Model;

/// The extents of each offer from an index on, without a copy. Contracts see them.
#[derive(Debug, Drop)]
pub(crate) struct OfferLists<'a> {
    offers: &'a Offers,
    first: usize,
}

impl<'a> Model for OfferLists<'a> {
    ghost use Rattle.extent_list.specs.dcd_codes.specs.dcd_base.specs.declared.capacity.Extent.{Extent};
    ghost use Rattle.offer_core.specs.Offerings.{lists_of};
    ghost use Rattle.std.specs.Prelude.{List, drop};

    ghost Value = { List (List Extent) };

    ghost view = { λ o. drop o.first (lists_of o.offers.now.offers) };
}

impl<'a> OfferLists<'a> {
    /// Those of all offers.
    pub(crate) fn all(offers: &'a Offers) -> OfferLists<'a>
        ensures { result ≡ lists_of offers.now.offers }
    {
        OfferLists { offers, first: 0 }
    }

    /// Those of the offers from an index on.
    pub(crate) fn from(offers: &'a Offers, first: usize) -> OfferLists<'a>
        ensures { result ≡ drop first (lists_of offers.now.offers) }
    {
        OfferLists { offers, first }
    }

    /// How many offers they are.
    pub(crate) fn len(&self) -> usize
        ensures { result ≡ length self.now }
    {
        self.offers.len().saturating_sub(self.first)
    }

    /// The extents of the offer at an index below the length.
    pub(crate) fn at(&self, index: usize) -> &[Extent]
        requires { index < length self.now }
        ensures { slice_get self.now index ≡ Some result.now }
    {
        // The number of offers is below 2^64.
        let _count = self.offers.len();
        self.offers.at(self.first + index)
    }
}
