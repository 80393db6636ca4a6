//! What the Fabric Manager takes from a host, or asks it to give back.

ghost use Rattle.extent_list.specs.dcd_codes.specs.Rules.{ByRow};
ghost use Rattle.extent_list.specs.Listing.{too_many_extents};
ghost use Rattle.extent_list.specs.dcd_codes.specs.dcd_base.specs.Words.{where_true};
ghost use Rattle.release_core.specs.Leaving.{AllCanLeave, AreMarked, count_after};
ghost use Rattle.release_core.specs.Removals.{by_tag_rule, prescribed_removal_rule, extents_of_tag};
ghost use Rattle.std.specs.Prelude.{◌≡◌, ◌+◌, ◌<◌, ◌≤◌, [], IfOk, OnOk, length};

use crate::counting::count_rule;
use crate::marking::marked_list;
use extent_list::dcd_codes::dcd_base::{
    Extent, Extents, HostId, NoMemory, RegionId, Tag, is_no_tag,
};
use extent_list::dcd_codes::{Refusal, Rule};
use extent_list::media_map::region_config::Config;
use extent_list::{
    ExtentList, Owned, Owners, Within, first_unfit, has_extent_of, incomplete_among,
    too_many_listed,
};
use std::alloc::Global;

/// The extents that an Initiate Dynamic Capacity Release of policy Prescriptive means (5605h, profile): the listed
/// ones, each with the tag and the sequence of the accepted extent in which it lies.
///
/// `Broken` comes with the first of these rules that is broken (profile):
///
/// 1. `NoSuchRegion`, where the device has no such region; `EmptyList`; `TooManyListed(n)`, with n extents, above 64.
/// 2. For each extent in order: `ZeroLength`; `OutsideRegion`, where it is not within the region; `Unaligned`;
///    `NotAccepted`, where it lies in no accepted extent; `Overlap` with the first earlier extent with which it
///    shares an address; `NotWhole`, where its region is shareable and it is a part.
/// 3. `TagIncomplete`, for the first tag of a shareable region of which not all accepted extents are listed.
/// 4. Where they are `forced` out, `TooManyExtents(n)`: without them the host has n extents, accepted and offered,
///    above 64. A request to the host takes nothing yet.
///
/// `offered` is how many extents the host is offered.
pub fn removal(
    config: &Config,
    host: HostId,
    accepted: &ExtentList,
    offered: usize,
    region: RegionId,
    list: &Extents,
    forced: bool,
) -> Result<Extents, Refusal>
    requires host { host < config.now.hosts }
    requires few { length accepted.now.extents + offered ≤ 64 }
    ensures { ByRow (prescribed_removal_rule config.now host accepted.now.extents offered region list.now forced)
        (AreMarked accepted.now.extents list.now) result }
{
    if region.0 >= config.regions() {
        return Err(Refusal::Broken(Rule::NoSuchRegion(region.0)));
    }
    if list.is_empty() {
        return Err(Refusal::Broken(Rule::EmptyList));
    }
    if let Some(rule) = too_many_listed(list.as_slice()) {
        return Err(Refusal::Broken(rule));
    }
    let (listed, held) = (list.as_slice(), accepted.as_slice());
    let owners = Owners::of(held);
    let within = Within::Region(region);
    if let Some(rule) = first_unfit(config, host, &within, &owners, Owned::Accepted, listed) {
        return Err(Refusal::Broken(rule));
    }
    let alloc = list.allocator();
    let broken_tag = incomplete_among(alloc, config, host, &owners, listed)?;
    if let Some(rule) = broken_tag {
        return Err(Refusal::Broken(rule));
    }
    let broken_count = forced_rule(forced, accepted, &owners, offered, listed)?;
    if let Some(rule) = broken_count {
        return Err(Refusal::Broken(rule));
    }
    Ok(marked_list(alloc, &owners, listed)?)
}

/// The rule that the host breaks which has too many extents once those of the list are forced out.
fn forced_rule(
    forced: bool,
    accepted: &ExtentList,
    owners: &Owners,
    offered: usize,
    list: &[Extent],
) -> Result<Option<Rule>, NoMemory>
    requires few { length accepted.now.extents + offered ≤ 64 }
    requires owners { owners.now ≡ accepted.now.extents }
    requires listed { length list.now ≤ 64 }
    requires leaving { AllCanLeave accepted.now.extents list.now }
    ensures { IfOk result (λ found. found ≡ where_true forced (too_many_extents (count_after accepted.now.extents offered list.now))) }
{
    if forced {
        return count_rule(accepted, owners, offered, list);
    }
    Ok(None)
}

/// The extents that an Initiate Dynamic Capacity Release of policy Tag means (5605h, profile): the accepted extents
/// that have the tag, in their order.
///
/// `ZeroTag` where the tag is sixteen zero bytes, and else `NoSuchTag` where no accepted extent has it.
pub fn by_tag(alloc: Global, accepted: &ExtentList, tag: &Tag) -> Result<Extents, Refusal>
    ensures { ByRow (by_tag_rule accepted.now.extents tag.now) (λ leaving. leaving ≡ extents_of_tag tag.now accepted.now.extents) result }
{
    if is_no_tag(tag) {
        return Err(Refusal::Broken(Rule::ZeroTag));
    }
    if !has_extent_of(tag, accepted.as_slice()) {
        return Err(Refusal::Broken(Rule::NoSuchTag));
    }
    Ok(tagged_list(alloc, tag, accepted.as_slice())?)
}

/// The extents that have the tag, in their order.
fn tagged_list(alloc: Global, tag: &Tag, extents: &[Extent]) -> Result<Extents, NoMemory>
    ensures { IfOk result (λ leaving. leaving ≡ extents_of_tag tag.now extents.now) }
{
    let mut leaving = Extents::new(alloc);
    append_tagged(tag, extents, &mut leaving)?;
    Ok(leaving)
}

/// Puts them into an empty list.
fn append_tagged(tag: &Tag, extents: &[Extent], leaving: &mut Extents) -> Result<(), NoMemory>
    requires { leaving.old ≡ [] }
    ensures { OnOk result (leaving.new ≡ extents_of_tag tag.now extents.now) }
{
    for extent in extents {
        if extent.tag == *tag {
            leaving.push(*extent)?;
        }
    }
    Ok(())
}
