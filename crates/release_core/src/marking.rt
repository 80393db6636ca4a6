//! Extents as they leave: with the tag and the sequence of the accepted extent in which each lies.

ghost use Rattle.extent_list.specs.ExtentLists.{marked};
ghost use Rattle.std.specs.Prelude.{◌≡◌, IfOk, map};

use extent_list::dcd_codes::dcd_base::{Extent, Extents, NoMemory};
use extent_list::{Owners, append_marked};
use std::alloc::Global;

/// The extents of the list, each with the tag and the sequence of the accepted extent in which it lies.
pub(crate) fn marked_list(
    alloc: Global,
    accepted: &Owners,
    list: &[Extent],
) -> Result<Extents, NoMemory>
    ensures { IfOk result (λ leaving. leaving ≡ map (marked accepted.now) list.now) }
{
    let mut leaving = Extents::with_capacity(alloc, list.len())?;
    append_marked(accepted, list, &mut leaving)?;
    Ok(leaving)
}
