//! How many extents at the front of a list fit: they break no rule of an extent.

ghost use Rattle.extent_list.specs.Fitting.{Fits, FrontFits, IsOwned, IsOwnedBehind, area_of, fits_area};
ghost use Rattle.extent_list.specs.Listing.{overlapping};
ghost use Rattle.std.specs.Prelude.{◌≡◌, ◌==◌, ◌&&◌, ◌<◌, ◌≤◌, None, false, length, true};

use crate::fitting::Before;
use crate::lookup::Owners;
use crate::orders::are_apart;
use crate::owners::{lies_in, shares_some};
use crate::placing::{Area, region_at};
use dcd_base::{Extent, HostId, RegionId};
use media_map::region_config::Config;

/// How many extents from the front of the list are known to fit: each lies in a region, made of its blocks, and in an owner,
/// whole where the region is shareable, and shares no address with one before it.
pub(crate) fn fit_front(config: &Config, host: HostId, owners: &Owners, list: &[Extent]) -> usize
    requires { host < config.now.hosts }
    ensures known { result ≤ length list.now }
    ensures fit { FrontFits config.now host owners.now list.now result }
{
    match list.first() {
        Some(first) => fit_from(
            config,
            host,
            owners,
            region_at(config, host, first.start),
            first,
            list,
        ),
        None => 0,
    }
}

/// How many fit, of which the first one begins in this region.
fn fit_from(
    config: &Config,
    host: HostId,
    owners: &Owners,
    region: RegionId,
    first: &Extent,
    list: &[Extent],
) -> usize
    requires host { host < config.now.hosts }
    requires region { region < length config.now.regions }
    ensures known { result ≤ length list.now }
    ensures fit { FrontFits config.now host owners.now list.now result }
{
    let area = Area::of(config, host, region);
    let falling = match owners.place_of(first) {
        Some(place) => owners.fit_falling(config, host, region, &area, place, list),
        None => 0,
    };
    if falling == list.len() {
        return falling;
    }
    fit_behind(config, host, owners, region, &area, falling, list)
}

/// How many fit, of which so many are known to.
fn fit_behind(
    config: &Config,
    host: HostId,
    owners: &Owners,
    region: RegionId,
    area: &Area,
    known: usize,
    list: &[Extent],
) -> usize
    requires host { host < config.now.hosts }
    requires region { region < length config.now.regions }
    requires area { area.now ≡ area_of config.now host region }
    requires some { 0 < area.now.block }
    requires known { known ≤ length list.now }
    requires fit { FrontFits config.now host owners.now list.now known }
    ensures known { result ≤ length list.now }
    ensures fit { FrontFits config.now host owners.now list.now result }
{
    let apart = are_apart(list);
    let mut near = 0;
    for i in known..list.len() {
        let (extents, _) = list.split_at(i);
        let before = Before { extents, apart };
        if !fits_behind(
            config, host, owners, &mut near, region, area, &before, &list[i],
        ) {
            return i;
        }
    }
    list.len()
}

/// Whether the extent fits behind those before it. Its owner is looked for at `near` first, and its place in this region.
#[inline(always)]
fn fits_behind(
    config: &Config,
    host: HostId,
    owners: &Owners,
    near: &mut usize,
    region: RegionId,
    area: &Area,
    before: &Before,
    extent: &Extent,
) -> bool
    requires host { host < config.now.hosts }
    requires region { region < length config.now.regions }
    requires area { area.now ≡ area_of config.now host region }
    requires some { 0 < area.now.block }
    requires apart { before.now.apart ≡ true → overlapping before.now.extents.now extent.now ≡ None }
    ensures { result ≡ true → Fits config.now host owners.now before.now.extents.now extent.now }
{
    // That regions lie apart, which a configuration says of itself where it is read.
    let _regions = config.regions();
    if area.has(extent) {
        return is_owned_behind(
            owners,
            near,
            area.shareable,
            before.apart,
            before.extents,
            extent,
        );
    }
    let other = Area::of(config, host, region_at(config, host, extent.start));
    if !other.has(extent) {
        return false;
    }
    is_owned_behind(
        owners,
        near,
        other.shareable,
        before.apart,
        before.extents,
        extent,
    )
}

/// Whether the extent lies in an owner, whole in a shareable region, and shares no address with those before it.
#[inline(always)]
fn is_owned_behind(
    owners: &Owners,
    near: &mut usize,
    shareable: bool,
    apart: bool,
    before: &[Extent],
    extent: &Extent,
) -> bool
    requires { apart ≡ true → overlapping before.now extent.now ≡ None }
    ensures { result ≡ true → IsOwnedBehind shareable owners.now before.now extent.now }
{
    let index = match owners.index_of(extent, *near) {
        Some(index) => index,
        None => return false,
    };
    *near = index;
    if shareable && !is_same(&owners.as_slice()[index], extent) {
        return false;
    }
    apart || !shares_some(before, extent)
}

/// Whether the extent fits into the area and into this owner.
#[inline(always)]
pub(crate) fn fits(area: &Area, owner: &Extent, extent: &Extent) -> bool
    requires { 0 < area.now.block }
    ensures placed { result ≡ true → fits_area area.now extent.now ≡ true }
    ensures owned { result ≡ true → IsOwned area.now.shareable owner.now extent.now }
{
    area.has(extent) && is_owned(area.shareable, owner, extent)
}

/// Whether the extent lies in this owner, and is all of it in a shareable region.
#[inline(always)]
fn is_owned(shareable: bool, owner: &Extent, extent: &Extent) -> bool
    ensures { result ≡ true → IsOwned shareable owner.now extent.now }
{
    is_same(owner, extent) || !shareable && lies_in(extent, owner)
}

/// Whether the extent is all of this owner.
#[inline(always)]
fn is_same(owner: &Extent, extent: &Extent) -> bool
    ensures { result ≡ ((extent.now.start == owner.now.start) && (extent.now.length == owner.now.length)) }
{
    extent.start == owner.start && extent.length == owner.length
}
