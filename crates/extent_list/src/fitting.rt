//! An extent of a list beside its owner and those before it.

ghost use Rattle.dcd_base.specs.Words.{◌or◌};
ghost use Rattle.dcd_codes.specs.Rules.{◌breaks◌};
ghost use Rattle.dcd_codes.specs.declared.rules.Rule.{Rule};
ghost use Rattle.extent_list.specs.ExtentLists.{is_in, marked};
ghost use Rattle.extent_list.specs.Listing.{is_shareable_at, not_whole, overlapping};
ghost use Rattle.std.specs.Prelude.{◌≡◌, ◌==◌, ◌&&◌, ◌++◌, ◌^◌, ◌<◌, IfOk, None, OnOk, length, map, not, true};

use crate::lookup::Owners;
use crate::owners::{is_shareable_at, shares_address};
use dcd_base::{Extent, Extents, HostId, NoMemory};
use dcd_codes::Rule;
use media_map::region_config::Config;
use std::alloc::Global;

/// What stands before an extent in its list.
#[derive(Clone, Copy, Debug)]
pub struct Before<'a> {
    /// The extents before it.
    pub extents: &'a [Extent],
    /// Whether it is known that it shares no address with one of them.
    pub apart: bool,
}

/// The first rule that an extent breaks beside its owner and the extents before it, whose number is its index:
/// `missing`, where it lies in no owner; `Overlap` with the first of those before with which it shares an address;
/// `NotWhole`, where its region is shareable and it is a part.
///
/// The owner is looked for at `near` first, which then becomes its index.
pub(crate) fn unfit(
    config: &Config,
    host: HostId,
    owners: &Owners,
    near: &mut usize,
    before: &Before,
    extent: &Extent,
    missing: Rule,
) -> Option<Rule>
    requires host { host < config.now.hosts }
    requires listed { length before.now.extents.now < 2 ^ 32 }
    requires apart { before.now.apart ≡ true → overlapping before.now.extents.now extent.now ≡ None }
    ensures { result ≡ (not (is_in owners.now extent.now) breaks missing
        or overlapping before.now.extents.now extent.now
        or not_whole config.now host owners.now (length before.now.extents.now) extent.now) }
{
    let index = match owners.index_of(extent, *near) {
        Some(index) => index,
        None => return Some(missing),
    };
    *near = index;
    if let Some(rule) = sharing(before, extent) {
        return Some(rule);
    }
    let owner = &owners.as_slice()[index];
    part_rule(config, host, owner, before.extents.len() as u32, extent)
}

/// The rule that an extent breaks which shares an address with one before it.
pub fn sharing(before: &Before, extent: &Extent) -> Option<Rule>
    requires listed { length before.now.extents.now < 2 ^ 32 }
    requires apart { before.now.apart ≡ true → overlapping before.now.extents.now extent.now ≡ None }
    ensures { result ≡ overlapping before.now.extents.now extent.now }
{
    if before.apart {
        return None;
    }
    shares_address(before.extents, extent)
}

/// The rule of a part of its owner, where the region is shareable.
fn part_rule(
    config: &Config,
    host: HostId,
    owner: &Extent,
    index: u32,
    extent: &Extent,
) -> Option<Rule>
    requires { host < config.now.hosts }
    ensures { result ≡ (is_shareable_at config.now host extent.now
        && not ((extent.now.start == owner.now.start) && (extent.now.length == owner.now.length))) breaks Rule.NotWhole index }
{
    if extent.start == owner.start && extent.length == owner.length {
        return None;
    }
    if is_shareable_at(config, host, extent) {
        return Some(Rule::NotWhole(index));
    }
    None
}

/// Puts the extents of the list behind the others, each with the tag and the sequence of the first owner in which it
/// lies.
pub fn append_marked(owners: &Owners, list: &[Extent], out: &mut Extents) -> Result<(), NoMemory>
    ensures { OnOk result (out.new ≡ out.old ++ map (marked owners.now) list.now) }
{
    let mut near = owners.start(list);
    for extent in list {
        let (owner, place) = (&*owners).owner_of(extent, near);
        out.push(marked_by(extent, owner))?;
        near = place;
    }
    Ok(())
}

/// The extents of both lists, each with the tag and the sequence of the first owner in which it lies.
pub fn marked_lists(
    alloc: Global,
    owners: &[Extent],
    held: &[Extent],
    list: &[Extent],
) -> Result<Extents, NoMemory>
    ensures { IfOk result (λ both. both ≡ map (marked owners.now) (held.now ++ list.now)) }
{
    let mut both = Extents::with_capacity(alloc, held.len() + list.len())?;
    let sought = Owners::of(owners);
    append_marked(&sought, held, &mut both)?;
    append_marked(&sought, list, &mut both)?;
    Ok(both)
}

/// The extent with the tag and the sequence of this owner.
pub(crate) fn marked_by(extent: &Extent, owner: &Extent) -> Extent
    ensures { result ≡ record extent.now { tag = owner.now.tag; sequence = owner.now.sequence } }
{
    Extent {
        start: extent.start,
        length: extent.length,
        tag: owner.tag,
        sequence: owner.sequence,
    }
}
