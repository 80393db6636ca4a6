//! The first rule that an extent of a list breaks.

ghost use Rattle.dcd_codes.specs.Rules.{each_in};
ghost use Rattle.extent_list.specs.Listed.{listed_rule, missing_rule, region_for};
ghost use Rattle.extent_list.specs.Listing.{overlapping};
ghost use Rattle.std.specs.Prelude.{◌≡◌, ◌^◌, ◌<◌, ◌≤◌, None, length, take, true};

use crate::fitted_front::fit_front;
use crate::fitting::{Before, unfit};
use crate::lookup::Owners;
use crate::orders::are_apart;
use crate::placing::{misplaced, region_at};
use dcd_base::{Extent, HostId, RegionId};
use dcd_codes::Rule;
use media_map::region_config::Config;

/// Where the extents of a list have to lie.
#[derive(Debug, Drop)]
pub enum Within {
    /// Each in a region of its own choice.
    AnyRegion,
    /// In the region that the command names.
    Region(RegionId),
}

/// What the host has of the extents in which those of a list have to lie.
#[derive(Clone, Copy, Debug)]
pub enum Owned {
    /// It is offered them.
    Offered,
    /// It has accepted them.
    Accepted,
}

/// The first rule that an extent of the list breaks, whose number is its index: one of its place; `NotOffered` or
/// `NotAccepted`, where it lies in no owner; `Overlap`, where it shares an address with one before it; `NotWhole`, where its
/// region is shareable and it is a part.
///
/// Where each lies in a region of its own choice, those in front that are known to fit are not tried.
pub fn first_unfit(
    config: &Config,
    host: HostId,
    within: &Within,
    owners: &Owners,
    owned: Owned,
    list: &[Extent],
) -> Option<Rule>
    requires host { host < config.now.hosts }
    requires listed { length list.now ≤ 64 }
    ensures { result ≡ each_in list.now (listed_rule config.now host within.now owners.now owned) }
{
    let fit = fit_in_front(config, host, within, owners, list);
    if fit == list.len() {
        return None;
    }
    first_behind(config, host, within, owners, owned, fit, list)
}

/// How many in front are known to fit, whatever the host has of their owners.
fn fit_in_front(
    config: &Config,
    host: HostId,
    within: &Within,
    owners: &Owners,
    list: &[Extent],
) -> usize
    requires { host < config.now.hosts }
    ensures known { result ≤ length list.now }
    ensures fit { (owned : Owned) → each_in (take result list.now) (listed_rule config.now host within.now owners.now owned) ≡ None }
{
    match within {
        Within::AnyRegion => fit_front(config, host, owners, list),
        Within::Region(_) => 0,
    }
}

/// The first rule that an extent of the list breaks, where so many in front break none.
fn first_behind(
    config: &Config,
    host: HostId,
    within: &Within,
    owners: &Owners,
    owned: Owned,
    fit: usize,
    list: &[Extent],
) -> Option<Rule>
    requires host { host < config.now.hosts }
    requires listed { length list.now ≤ 64 }
    requires known { fit ≤ length list.now }
    requires fit { each_in (take fit list.now) (listed_rule config.now host within.now owners.now owned) ≡ None }
    ensures { result ≡ each_in list.now (listed_rule config.now host within.now owners.now owned) }
{
    let apart = are_apart(list);
    let mut near = 0;
    for i in fit..list.len() {
        let before = Before {
            extents: &list[..i],
            apart,
        };
        if let Some(rule) = broken_by(
            config, host, within, owners, owned, &mut near, &before, &list[i],
        ) {
            return Some(rule);
        }
    }
    None
}

/// The first rule that an extent of the list breaks behind those before it, whose number is its index. Its owner is looked
/// for at `near` first.
fn broken_by(
    config: &Config,
    host: HostId,
    within: &Within,
    owners: &Owners,
    owned: Owned,
    near: &mut usize,
    before: &Before,
    extent: &Extent,
) -> Option<Rule>
    requires host { host < config.now.hosts }
    requires listed { length before.now.extents.now < 2 ^ 32 }
    requires apart { before.now.apart ≡ true → overlapping before.now.extents.now extent.now ≡ None }
    ensures { result ≡ listed_rule config.now host within.now owners.now owned before.now.extents.now extent.now }
{
    let index = before.extents.len() as u32;
    let region = region_for(config, host, within, extent);
    if let Some(rule) = misplaced(config, host, region, index, extent) {
        return Some(rule);
    }
    unfit(
        config,
        host,
        owners,
        near,
        before,
        extent,
        missing(owned, index),
    )
}

/// The region in which the extent has to lie: the one that the command names, or else the one that has its first address.
fn region_for(config: &Config, host: HostId, within: &Within, extent: &Extent) -> RegionId
    requires { host < config.now.hosts }
    ensures { result ≡ region_for config.now host within.now extent.now }
{
    match within {
        Within::AnyRegion => region_at(config, host, extent.start),
        Within::Region(region) => *region,
    }
}

/// The rule that the extent of this index breaks where it lies in no owner.
fn missing(owned: Owned, index: u32) -> Rule
    ensures { result ≡ missing_rule owned index }
{
    match owned {
        Owned::Offered => Rule::NotOffered(index),
        Owned::Accepted => Rule::NotAccepted(index),
    }
}
