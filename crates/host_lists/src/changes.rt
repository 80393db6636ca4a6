//! Changes of an accepted list, and how they are counted.

ghost use Rattle.extent_list.specs.HostLists.{next_generation};
ghost use Rattle.std.specs.Prelude.{◌≡◌, ◌++◌, ◌+◌, ◌≤◌, length};

use extent_list::ExtentList;
use extent_list::dcd_codes::dcd_base::Extent;

/// The count after one more change; it begins anew at 2^32.
pub(crate) fn next_generation(generation: u32) -> u32
    ensures { result ≡ next_generation generation }
{
    generation.wrapping_add(1)
}

/// Puts the extents behind the accepted ones. It takes no memory.
pub(crate) fn add_all(accepted: &mut ExtentList, extents: &[Extent])
    requires { length extents.now ≤ accepted.old.spare }
    ensures added { accepted.new.extents ≡ accepted.old.extents ++ extents.now }
    ensures room { length accepted.old.extents + accepted.old.spare ≤ length accepted.new.extents + accepted.new.spare }
{
    for extent in extents {
        accepted.add(*extent);
    }
}
