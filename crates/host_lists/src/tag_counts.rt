//! Tags among the extents that a host has accepted and is offered.

ghost use Rattle.extent_list.specs.ExtentLists.{has_extent_of};
ghost use Rattle.host_lists.specs.Tags.{capped, extents_before, is_new, tag_count};
ghost use Rattle.std.specs.List.{list_any};
ghost use Rattle.std.specs.Prelude.{◌≡◌, ◌++◌, ◌≤◌, List, flat_map, length, take, true};

use crate::offer_lists::OfferLists;
use extent_list::dcd_codes::dcd_base::{Extent, Tag, no_tag};
use extent_list::{has_extent_of, same_tag};

/// Whether an extent of the first `count` offers has the tag.
pub(crate) fn has_in_offers(tag: &Tag, offers: &OfferLists, count: usize) -> bool
    requires { count ≤ length offers.now }
    ensures { result ≡ list_any (has_extent_of tag.now) (take count offers.now) }
{
    for i in 0..count {
        if has_extent_of(tag, offers.at(i)) {
            return true;
        }
    }
    false
}

/// Whether an accepted extent has the tag, or one of the first `count` offers, or one of those before it.
#[tactic(auto, using(crate::proofs::Offered::has_extent_before))]
fn is_among(
    tag: &Tag,
    accepted: &[Extent],
    offers: &OfferLists,
    count: usize,
    before: &[Extent],
) -> bool
    requires { count ≤ length offers.now }
    ensures { result ≡ has_extent_of tag.now (extents_before accepted.now offers.now count ++ before.now) }
{
    has_extent_of(tag, before) || has_extent_of(tag, accepted) || has_in_offers(tag, offers, count)
}

/// Whether the last of the extents has the tag.
pub(crate) fn is_tag_of_last(tag: &Tag, before: &[Extent]) -> bool
    ensures { result ≡ true → has_extent_of tag.now before.now ≡ true }
{
    match before.last() {
        Some(last) => same_tag(&last.tag, tag),
        None => false,
    }
}

/// Whether the tag is one, and is new behind the accepted extents, the first `count` offers and those before it, of
/// which the last one is looked at first.
fn is_new(
    tag: &Tag,
    accepted: &[Extent],
    offers: &OfferLists,
    count: usize,
    before: &[Extent],
) -> bool
    requires { count ≤ length offers.now }
    ensures { result ≡ is_new (extents_before accepted.now offers.now count ++ before.now) tag.now }
{
    if is_tag_of_last(tag, before) {
        return false;
    }
    !same_tag(tag, &no_tag()) && !is_among(tag, accepted, offers, count, before)
}

/// How many extents at the front have no tag. They make no tags more, whatever stands before them.
fn untagged(extents: &[Extent]) -> usize
    ensures known { result ≤ length extents.now }
    ensures none { (before : List Extent) → tag_count (before ++ take result extents.now) ≡ tag_count before }
{
    for i in 0..extents.len() {
        if !same_tag(&extents[i].tag, &no_tag()) {
            return i;
        }
    }
    extents.len()
}

/// How many tags there are with these extents behind the accepted ones and the first `count` offers, which have
/// `tags` of them. The counts stand still at the end of 32 bits.
pub(crate) fn more_tags(
    tags: u32,
    accepted: &[Extent],
    offers: &OfferLists,
    count: usize,
    more: &[Extent],
) -> u32
    requires known { count ≤ length offers.now }
    requires tags { tags ≡ capped (tag_count (extents_before accepted.now offers.now count)) }
    ensures { result ≡ capped (tag_count (extents_before accepted.now offers.now count ++ more.now)) }
{
    let mut tags = tags;
    for i in untagged(more)..more.len() {
        let (before, _) = more.split_at(i);
        if is_new(&more[i].tag, accepted, offers, count, before) {
            tags = tags.saturating_add(1);
        }
    }
    tags
}

/// How many tags these extents have and those of all offers, up to the end of 32 bits.
pub(crate) fn all_tags(accepted: &[Extent], offers: &OfferLists) -> u32
    ensures { result ≡ capped (tag_count (accepted.now ++ flat_map (λ xs. xs) offers.now)) }
{
    let mut tags = list_tags(accepted, offers);
    for i in 0..offers.len() {
        let offer = offers.at(i);
        tags = more_tags(tags, accepted, offers, i, offer);
    }
    tags
}

/// How many tags these extents alone have, up to the end of 32 bits. No offer is looked at.
#[inline(always)]
fn list_tags(extents: &[Extent], offers: &OfferLists) -> u32
    ensures { result ≡ capped (tag_count extents.now) }
{
    if extents.is_empty() {
        return 0;
    }
    more_tags(0, &[], offers, 0, extents)
}
