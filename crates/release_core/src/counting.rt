//! How many extents a host has once those of a list have left.

ghost use Rattle.extent_list.specs.ExtentLists.{cut, cut_all};
ghost use Rattle.extent_list.specs.Listing.{too_many_extents};
ghost use Rattle.release_core.specs.Leaving.{AllCanLeave, count_after};
ghost use Rattle.std.specs.Prelude.{◌≡◌, ◌+◌, ◌^◌, ◌<◌, ◌≤◌, All, IfOk, length};

use extent_list::dcd_codes::Rule;
use extent_list::dcd_codes::dcd_base::limits::EXTENTS;
use extent_list::dcd_codes::dcd_base::{Extent, NoMemory};
use extent_list::{ExtentList, Owners, too_many_extents};

/// The rule that the host breaks which has too many extents once those of the list have left.
///
/// A part out of the middle of an accepted extent leaves two in its place, so that each of the list makes at most one
/// more.
#[tactic(auto, using(crate::proofs::Lengths::length_cut_all))]
pub(crate) fn count_rule(
    accepted: &ExtentList,
    owners: &Owners,
    offered: usize,
    list: &[Extent],
) -> Result<Option<Rule>, NoMemory>
    requires few { length accepted.now.extents + offered ≤ 64 }
    requires owners { owners.now ≡ accepted.now.extents }
    requires listed { length list.now ≤ 64 }
    requires leaving { AllCanLeave accepted.now.extents list.now }
    ensures { IfOk result (λ found. found ≡ too_many_extents (count_after accepted.now.extents offered list.now)) }
{
    if accepted.len() + list.len() + offered <= EXTENTS {
        return Ok(None);
    }
    let left = extents_left(accepted, owners, list)?;
    Ok(too_many_extents(left + offered))
}

/// How many of the accepted extents and their pieces are left without the extents of the list. For one extent, as most
/// lists have, nothing is cut.
#[tactic(auto, using(crate::proofs::Lengths::length_cut_all, crate::proofs::Lengths::cut_only))]
fn extents_left(accepted: &ExtentList, owners: &Owners, list: &[Extent]) -> Result<usize, NoMemory>
    requires owners { owners.now ≡ accepted.now.extents }
    requires ends { All (λ x. x.start + x.length < 2 ^ 64) list.now }
    ensures left { IfOk result (λ left. left ≡ length (cut_all list.now accepted.now.extents)) }
    ensures few { IfOk result (λ left. left ≤ length accepted.now.extents + length list.now) }
{
    if list.len() == 1 {
        return Ok(left_by(accepted, owners, &list[0]));
    }
    let mut left = accepted.copy_with_room(list.len())?;
    left.reserve(list.len())?;
    left.cut_all(list);
    Ok(left.len())
}

/// How many of the accepted extents and their pieces are left without this one.
fn left_by(accepted: &ExtentList, owners: &Owners, extent: &Extent) -> usize
    requires owners { owners.now ≡ accepted.now.extents }
    requires ends { extent.now.start + extent.now.length < 2 ^ 64 }
    ensures left { result ≡ length (cut extent.now.start extent.now.length accepted.now.extents) }
    ensures few { result ≤ length accepted.now.extents + 1 }
{
    match owners.place_of(extent) {
        Some(index) => accepted.len_without_at(index, extent.start, extent.length),
        None => accepted.len(),
    }
}
