//! Tags of shareable regions, of which all extents are listed or none.

ghost use Rattle.dcd_base.specs.Words.{where_true};
ghost use Rattle.dcd_codes.specs.Rules.{◌breaks◌};
ghost use Rattle.dcd_codes.specs.declared.rules.Rule.{Rule};
ghost use Rattle.extent_list.specs.ExtentLists.{count_of_tag, has_extent_of};
ghost use Rattle.extent_list.specs.Fitting.{area_of};
ghost use Rattle.extent_list.specs.Listing.{incomplete, shared_of, is_shareable_at, some_left, too_few_of};
ghost use Rattle.extent_list.specs.Sharing.{HasNoShareable, HaveSameTags};
ghost use Rattle.std.specs.Prelude.{◌≡◌, ◌^◌, ◌<◌, ◌≤◌, IfOk, OnOk, [], false, length, nat_lt, not, true};

use crate::fitting::marked_by;
use crate::lookup::Owners;
use crate::owners::is_shareable_at;
use crate::placing::{Area, region_at};
use crate::tags::{has_extent_of, same_tag};
use dcd_base::{Extent, Extents, HostId, NoMemory, RegionId, Tag};
use dcd_codes::Rule;
use media_map::region_config::Config;
use std::alloc::Global;

/// The rule that a list breaks which has some of a tag's extents in a shareable region and not all: how many are
/// listed and how many the owners have, for the first such tag.
///
/// A listed extent has the tag of the first owner in which it lies. The number of owners is below 2^32.
pub fn incomplete_among(
    alloc: Global,
    config: &Config,
    host: HostId,
    owners: &Owners,
    list: &[Extent],
) -> Result<Option<Rule>, NoMemory>
    requires host { host < config.now.hosts }
    requires owners { length owners.now < 2 ^ 32 }
    requires listed { length list.now < 2 ^ 32 }
    ensures { IfOk result (λ found. found ≡ incomplete config.now host owners.now list.now) }
{
    if !has_shareable(config) {
        return Ok(None);
    }
    if are_all_shared(config, host, owners, list) {
        return Ok(None);
    }
    let mut shared = Extents::new(alloc);
    find_shared(config, host, owners, list, &mut shared)?;
    Ok(some_left(owners.as_slice(), shared.as_slice()))
}

/// Whether a region of the device is shareable.
fn has_shareable(config: &Config) -> bool
    ensures { result ≡ false → HasNoShareable config.now }
{
    for number in 0..config.regions() {
        if config.region(RegionId(number)).shareable {
            return true;
        }
    }
    false
}

/// Whether there are as many listed extents as owners, each in a shareable region, and each with the tag of the owner at its
/// index.
fn are_all_shared(config: &Config, host: HostId, owners: &Owners, list: &[Extent]) -> bool
    requires { host < config.now.hosts }
    ensures { result ≡ true → HaveSameTags owners.now (shared_of config.now host owners.now list.now) }
{
    let tagged = owners.as_slice();
    if tagged.len() != list.len() {
        return false;
    }
    let mut near = owners.start(list);
    let region = first_region(config, host, list);
    let area = Area::of(config, host, region);
    for i in 0..list.len() {
        if !is_shareable_near(config, host, region, &area, &list[i]) {
            return false;
        }
        let (owner, place) = (&*owners).owner_of(&list[i], near);
        if !same_tag(&tagged[i].tag, &owner.tag) {
            return false;
        }
        near = place;
    }
    true
}

/// The region in which the first extent of the list begins, or region 0.
fn first_region(config: &Config, host: HostId, list: &[Extent]) -> RegionId
    requires { host < config.now.hosts }
    ensures { result < length config.now.regions }
{
    let start = match list.first() {
        Some(extent) => extent.start,
        None => 0,
    };
    region_at(config, host, start)
}

/// Whether the extent begins in a shareable region; the area of this one is looked at first.
#[inline(always)]
fn is_shareable_near(
    config: &Config,
    host: HostId,
    region: RegionId,
    area: &Area,
    extent: &Extent,
) -> bool
    requires host { host < config.now.hosts }
    requires region { region < length config.now.regions }
    requires area { area.now ≡ area_of config.now host region }
    ensures { result ≡ is_shareable_at config.now host extent.now }
{
    // That regions lie apart, which a configuration says of itself where it is read.
    let _regions = config.regions();
    if area.bounds.has_address(extent.start) {
        return area.shareable;
    }
    is_shareable_at(config, host, extent)
}

/// The listed extents of shareable regions, each with the tag of the one in which it lies.
fn find_shared(
    config: &Config,
    host: HostId,
    owners: &Owners,
    list: &[Extent],
    shared: &mut Extents,
) -> Result<(), NoMemory>
    requires host { host < config.now.hosts }
    requires empty { shared.old ≡ [] }
    ensures shared { OnOk result (shared.new ≡ shared_of config.now host owners.now list.now) }
    ensures few { OnOk result (length shared.new ≤ length list.now) }
{
    let mut near = owners.start(list);
    for extent in list {
        if is_shareable_at(config, host, extent) {
            let (owner, place) = (&*owners).owner_of(extent, near);
            shared.push(marked_by(extent, owner))?;
            near = place;
        }
    }
    Ok(())
}

/// The first tag of which fewer extents are listed than the owners have.
fn some_left(owners: &[Extent], shared: &[Extent]) -> Option<Rule>
    requires owners { length owners.now < 2 ^ 32 }
    requires listed { length shared.now < 2 ^ 32 }
    ensures { result ≡ some_left owners.now shared.now }
{
    if have_same_tags(owners, shared) {
        return None;
    }
    for i in 0..shared.len() {
        let (before, _) = shared.split_at(i);
        if let Some(rule) = left_of(owners, shared, before, &shared[i].tag) {
            return Some(rule);
        }
    }
    None
}

/// Whether there are as many of both, and each has the tag of the other at its index.
fn have_same_tags(owners: &[Extent], shared: &[Extent]) -> bool
    ensures { result ≡ true → HaveSameTags owners.now shared.now }
{
    if owners.len() != shared.len() {
        return false;
    }
    for i in 0..shared.len() {
        if !same_tag(&owners[i].tag, &shared[i].tag) {
            return false;
        }
    }
    true
}

/// The rule of one tag, unless an extent before has it.
fn left_of(owners: &[Extent], shared: &[Extent], before: &[Extent], tag: &Tag) -> Option<Rule>
    requires owners { length owners.now < 2 ^ 32 }
    requires listed { length shared.now < 2 ^ 32 }
    ensures { result ≡ where_true (not (has_extent_of tag.now before.now)) (too_few_of owners.now shared.now tag.now) }
{
    if is_seen(tag, before) {
        return None;
    }
    too_few(count_of_tag(tag, shared), count_of_tag(tag, owners))
}

/// Whether an extent before has the tag; the last one is looked at first.
fn is_seen(tag: &Tag, before: &[Extent]) -> bool
    ensures { result ≡ has_extent_of tag.now before.now }
{
    match before.last() {
        Some(last) if same_tag(&last.tag, tag) => true,
        _ => has_extent_of(tag, before),
    }
}

/// The rule of a tag with so many extents, of which so many are listed.
fn too_few(listed: u32, need: u32) -> Option<Rule>
    ensures { result ≡ nat_lt listed need breaks Rule.TagIncomplete listed need }
{
    if listed < need {
        return Some(Rule::TagIncomplete { listed, need });
    }
    None
}

/// How many of the extents have the tag.
fn count_of_tag(tag: &Tag, extents: &[Extent]) -> u32
    requires { length extents.now < 2 ^ 32 }
    ensures { result ≡ count_of_tag tag.now extents.now }
{
    extents
        .iter()
        .filter(|extent| same_tag(&extent.tag, tag))
        .count() as u32
}
