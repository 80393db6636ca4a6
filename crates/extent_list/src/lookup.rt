//! Owners, and the search for those of one listed extent after another.

ghost use Rattle.extent_list.specs.ExtentLists.{lies_in, owner_of};
ghost use Rattle.extent_list.specs.Fitting.{FrontFits, area_of};
ghost use Rattle.std.specs.Prelude.{◌≡◌, ◌<◌, ◌≤◌, IfSome, IsTrue, Some, length, position, slice_index_or};
ghost use Rattle.dcd_base.specs.declared.capacity.Extent.{Extent};

use crate::fitted_front::fits;
use crate::owners::{first_owner, lies_in};
use crate::placing::Area;
use crate::standing::stand_apart;
use dcd_base::{Extent, HostId, RegionId};
use media_map::region_config::Config;
use std::marker::Model;

/// The extents in which those of a list have to lie.
///
/// Contracts see the owners. Where no two have an address in common, an extent lies in one of them only, and the search
/// for it begins beside the last one that was found.
#[derive(Debug, Drop)]
pub struct Owners<'a> {
    list: &'a [Extent],
    apart: bool,
}

impl<'a> Model for Owners<'a> {
    ghost use Rattle.dcd_base.specs.declared.capacity.Extent.{Extent};
    ghost use Rattle.extent_list.specs.Apart.{StandApart};
    ghost use Rattle.std.specs.Prelude.{◌≡◌, List, true};

    ghost Value = { List Extent };

    ghost view = { λ o. o.list.now };

    ghost invariant = { λ o. o.apart ≡ true → StandApart o.list.now };
}

impl<'a> Owners<'a> {
    /// These owners.
    pub fn of(list: &'a [Extent]) -> Owners<'a>
        ensures { result ≡ list.now }
    {
        let apart = stand_apart(list);
        Owners { list, apart }
    }

    /// The owners in order.
    pub(crate) fn as_slice(&self) -> &[Extent]
        ensures { result.now ≡ self.now }
    {
        self.list
    }

    /// How many extents from the front of the list are known to fit into the area of this region: the first of them in the
    /// owner at `place`, and each of the others in the owner before that of the last one.
    pub(crate) fn fit_falling(
        &self,
        config: &Config,
        host: HostId,
        region: RegionId,
        area: &Area,
        place: usize,
        list: &[Extent],
    ) -> usize
        requires host { host < config.now.hosts }
        requires region { region < length config.now.regions }
        requires area { area.now ≡ area_of config.now host region }
        requires some { 0 < area.now.block }
        requires place { place < length self.now }
        ensures known { result ≤ length list.now }
        ensures fit { FrontFits config.now host self.now list.now result }
    {
        if !self.apart {
            return 0;
        }
        // That regions lie apart, which a configuration says of itself where it is read.
        let _regions = config.regions();
        let most = list.len().min(place + 1);
        for i in 0..most {
            if !fits(area, &self.list[place - i], &list[i]) {
                return i;
            }
        }
        most
    }

    /// The index of the first owner in which the extent lies, which is looked for beside the index `near` first.
    #[inline(always)]
    pub(crate) fn index_of(&self, extent: &Extent, near: usize) -> Option<usize>
        ensures value { result ≡ position (lies_in extent.now) self.now }
        ensures known { IfSome result (λ index. index < length self.now) }
    {
        match self.beside(extent, near) {
            Some(index) => Some(index),
            None => self.index_anywhere(extent, near),
        }
    }

    /// The index of the first owner in which the extent lies.
    pub fn place_of(&self, extent: &Extent) -> Option<usize>
        ensures value { result ≡ position (lies_in extent.now) self.now }
        ensures known { IfSome result (λ index. index < length self.now) }
    {
        self.index_anywhere(extent, 0)
    }

    /// Where the search for the extents of a list begins: behind the owner in which the first one lies.
    pub(crate) fn start(&self, list: &[Extent]) -> usize {
        if let Some(extent) = list.first() {
            if let Some(index) = self.place_of(extent) {
                return index.wrapping_add(1);
            }
        }
        0
    }

    /// The first owner in which the extent lies, and its index; the extent itself and `near` where it lies in none. It is
    /// looked for beside the index `near` first.
    #[inline(always)]
    pub(crate) fn owner_of<'b>(&'b self, extent: &'b Extent, near: usize) -> (&'b Extent, usize)
        ensures { result.0.now ≡ owner_of self.now extent.now }
    {
        match self.index_of(extent, near) {
            Some(index) => (&self.list[index], index),
            None => (extent, near),
        }
    }

    /// The index of the first owner in which the extent lies, if that is the one before the index `near` or the one at it.
    /// Those of a host's extents fall most often, or are parts of one.
    #[inline(always)]
    fn beside(&self, extent: &Extent, near: usize) -> Option<usize>
        ensures value { IfSome result (λ index. position (lies_in extent.now) self.now ≡ Some index) }
        ensures known { IfSome result (λ index. index < length self.now) }
    {
        if self.apart && extent.length > 0 {
            if let Some(index) = owner_at(self.list, near.wrapping_sub(1), extent) {
                return Some(index);
            }
            if let Some(index) = owner_at(self.list, near, extent) {
                return Some(index);
            }
        }
        None
    }

    /// The index of the first owner in which the extent lies, looked for behind `near` first.
    #[inline(never)]
    fn index_anywhere(&self, extent: &Extent, near: usize) -> Option<usize>
        ensures value { result ≡ position (lies_in extent.now) self.now }
        ensures known { IfSome result (λ index. index < length self.now) }
    {
        if self.apart && extent.length > 0 {
            if let Some(index) = owner_near(self.list, near, extent) {
                return Some(index);
            }
        }
        first_owner(self.list, extent)
    }
}

/// The index, if there is an owner at it in which the extent lies.
fn owner_at(owners: &[Extent], index: usize, extent: &Extent) -> Option<usize>
    ensures known { IfSome result (λ index. index < length owners.now) }
    ensures owner { IfSome result (λ index. (d : Extent) → IsTrue (lies_in extent.now (slice_index_or owners.now index d))) }
{
    if index < owners.len() && lies_in(extent, &owners[index]) {
        return Some(index);
    }
    None
}

/// An owner in which the extent lies: behind the index `near`, or else where it stands in owners by rising or by
/// falling address.
fn owner_near(owners: &[Extent], near: usize, extent: &Extent) -> Option<usize>
    ensures known { IfSome result (λ index. index < length owners.now) }
    ensures owner { IfSome result (λ index. (d : Extent) → IsTrue (lies_in extent.now (slice_index_or owners.now index d))) }
{
    if let Some(index) = owner_at(owners, near.wrapping_add(1), extent) {
        return Some(index);
    }
    match last_begun(owners, extent) {
        Some(index) => Some(index),
        None => first_begun(owners, extent),
    }
}

/// The last owner that begins where the extent does or before, if the extent lies in it. It is looked for as in owners
/// by rising address.
fn last_begun(owners: &[Extent], extent: &Extent) -> Option<usize>
    ensures known { IfSome result (λ index. index < length owners.now) }
    ensures owner { IfSome result (λ index. (d : Extent) → IsTrue (lies_in extent.now (slice_index_or owners.now index d))) }
{
    let begun = owners.partition_point(|owner| owner.start <= extent.start);
    if begun > 0 && lies_in(extent, &owners[begun - 1]) {
        return Some(begun - 1);
    }
    None
}

/// The first owner that begins where the extent does or before, if the extent lies in it. It is looked for as in owners
/// by falling address.
fn first_begun(owners: &[Extent], extent: &Extent) -> Option<usize>
    ensures known { IfSome result (λ index. index < length owners.now) }
    ensures owner { IfSome result (λ index. (d : Extent) → IsTrue (lies_in extent.now (slice_index_or owners.now index d))) }
{
    let begun = owners.partition_point(|owner| extent.start < owner.start);
    if begun < owners.len() && lies_in(extent, &owners[begun]) {
        return Some(begun);
    }
    None
}
