//! The extents that a host has accepted, with their memory.

ghost use Rattle.extent_list.specs.ExtentLists.{cut_all};
ghost use Rattle.std.specs.Prelude.{◌≡◌, ◌++◌, ◌+◌, ◌^◌, ◌<◌, ◌≤◌, [], All, IfOk, OnOk, length};

use crate::changes::add_all;
use extent_list::ExtentList;
use extent_list::dcd_codes::dcd_base::{Extent, NoMemory};
use std::alloc::Global;
use std::marker::Model;

/// So many extents have their memory: 64 that a host may have, and one more for each of 64 that leave in a step.
const PLACES: usize = 128;

/// The extents that a host has accepted, in the order in which it did, with memory for 128 of them at least.
#[derive(Debug, Drop)]
pub struct AcceptedList {
    list: ExtentList,
}

impl Model for AcceptedList {
    ghost use Rattle.extent_list.specs.dcd_codes.specs.dcd_base.specs.declared.capacity.Extent.{Extent};
    ghost use Rattle.std.specs.Prelude.{◌+◌, ◌≤◌, List, length};

    ghost Value = { List Extent };

    ghost view = { λ a. a.list.extents };

    ghost invariant = { λ a. 128 ≤ length a.list.extents + a.list.spare };
}

impl AcceptedList {
    /// No extents.
    pub(crate) fn new(alloc: Global) -> Result<AcceptedList, NoMemory>
        ensures { IfOk result (λ new. new ≡ []) }
    {
        Ok(AcceptedList {
            list: ExtentList::with_room(alloc, PLACES)?,
        })
    }

    /// The extents of this list.
    pub(crate) fn of(list: ExtentList) -> Result<AcceptedList, NoMemory>
        ensures { IfOk result (λ of. of ≡ list.extents) }
    {
        let mut list = list;
        list.reserve(PLACES)?;
        Ok(AcceptedList { list })
    }

    /// Makes this list equal to another.
    pub(crate) fn stand_as(&mut self, other: &AcceptedList) -> Result<(), NoMemory>
        ensures { OnOk result (self.new ≡ other.now) }
    {
        self.list.stand_as(other.list.as_slice())
    }

    /// The list.
    pub(crate) fn list(&self) -> &ExtentList
        ensures { result.now.extents ≡ self.now }
    {
        &self.list
    }

    /// Puts the extents behind the others, 128 at most together. It takes no memory.
    pub(crate) fn add_all(&mut self, extents: &[Extent])
        requires { length self.old + length extents.now ≤ 128 }
        ensures { self.new ≡ self.old ++ extents.now }
    {
        add_all(&mut self.list, extents);
    }

    /// Cuts these extents out one after another, each where it lies in one of the list when its turn comes. Together they are 128
    /// at most, and each ends below 2^64. It takes no memory.
    pub(crate) fn leave_all(&mut self, leaving: &[Extent])
        requires few { length self.old + length leaving.now ≤ 128 }
        requires ends { All (λ x. x.start + x.length < 2 ^ 64) leaving.now }
        ensures { self.new ≡ cut_all leaving.now self.old }
    {
        self.list.cut_all(leaving);
    }
}
