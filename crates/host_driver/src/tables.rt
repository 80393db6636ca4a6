//! Tables of extents, changed without memory.

ghost use Rattle.host_driver.specs.Driving.{bare, bytes_of, cut_all_out, cut_out, is_below_end};
ghost use Rattle.std.specs.Prelude.{◌≡◌, ◌+◌, ◌*◌, ◌++◌, ◌-◌, ◌^◌, ◌<◌, ◌≤◌, [], IfOk, length, map};

use dcd_base::{Extent, Extents, NoMemory, no_tag};
use extent_list::ExtentList;
use std::alloc::Global;

/// The first number that is no address: 2^64.
const END: u128 = 18_446_744_073_709_551_616;

/// An empty list that takes so many extents without memory.
pub(crate) fn with_room(alloc: Global, extents: usize) -> Result<ExtentList, NoMemory>
    ensures empty { IfOk result (λ list. list.extents ≡ []) }
    ensures room { IfOk result (λ list. extents ≤ list.spare) }
{
    let mut list = ExtentList::new(alloc);
    list.reserve(extents)?;
    Ok(list)
}

/// Puts extents at the end, in order.
pub(crate) fn append(table: &mut ExtentList, extents: &[Extent])
    requires { length extents.now ≤ table.old.spare }
    ensures appended { table.new.extents ≡ table.old.extents ++ extents.now }
    ensures spare { table.old.spare ≤ table.new.spare + length extents.now }
{
    for extent in extents {
        table.add(*extent);
    }
}

/// Cuts an extent out of the first one in which it lies. Where it lies in none, or what remains above would begin past
/// the last address, nothing changes.
pub(crate) fn cut_out(table: &mut ExtentList, extent: &Extent)
    requires { 0 < table.old.spare }
    ensures cut { table.new.extents ≡ cut_out table.old.extents extent.now }
    ensures spare { table.old.spare ≤ table.new.spare + 1 }
{
    match table.holder_of(extent.start, extent.length) {
        None => (),
        Some(index) => {
            let owner = table.at(index);
            if is_below_end(extent, &owner) {
                match table.cut(extent.start, extent.length, usize::MAX) {
                    Ok(()) => (),
                    Err(_) => unreachable!(),
                }
            }
        }
    }
}

/// Whether the extent, or the one in which it lies, ends with the last address or before it.
fn is_below_end(extent: &Extent, owner: &Extent) -> bool
    ensures { result ≡ is_below_end extent.now owner.now }
{
    end_of(extent) < END || end_of(owner) <= END
}

/// The first address behind the extent.
fn end_of(extent: &Extent) -> u128
    ensures { result ≡ extent.now.start + extent.now.length }
{
    extent.start as u128 + extent.length as u128
}

/// Cuts extents out one after another.
pub(crate) fn cut_all_out(table: &mut ExtentList, extents: &[Extent])
    requires { length extents.now ≤ table.old.spare }
    ensures cut { table.new.extents ≡ cut_all_out extents.now table.old.extents }
    ensures spare { table.old.spare ≤ table.new.spare + length extents.now }
{
    for extent in extents {
        cut_out(table, extent);
    }
}

/// The bytes of the extents together.
pub(crate) fn bytes_of(extents: &[Extent]) -> u128
    ensures bytes { result ≡ bytes_of extents.now }
    ensures few { result ≤ length extents.now * (2 ^ 64 - 1) }
    ensures count { length extents.now < 2 ^ 63 }
{
    let mut bytes = 0u128;
    for extent in extents {
        bytes += extent.length as u128;
    }
    bytes
}

/// The extents as they are listed in a message: without tags and sequences.
pub(crate) fn listed(alloc: Global, extents: &[Extent]) -> Result<Extents, NoMemory>
    ensures { IfOk result (λ list. list ≡ map bare extents.now) }
{
    let mut list = Extents::with_capacity(alloc, extents.len())?;
    for extent in extents {
        list.push(Extent {
            tag: no_tag(),
            sequence: 0,
            ..*extent
        })?;
    }
    Ok(list)
}
