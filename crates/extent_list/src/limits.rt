//! How many extents there may be.

ghost use Rattle.extent_list.specs.Listing.{too_many_extents, too_many_listed};
ghost use Rattle.std.specs.Prelude.{◌≡◌};

use dcd_base::Extent;
use dcd_base::limits::{EXTENTS, LISTED_EXTENTS};
use dcd_codes::Rule;

/// The rule that a list of more than 64 extents breaks, with its length.
pub fn too_many_listed(list: &[Extent]) -> Option<Rule>
    ensures { result ≡ too_many_listed list.now }
{
    if list.len() > LISTED_EXTENTS {
        return Some(Rule::TooManyListed(list.len() as u64));
    }
    None
}

/// The rule that a host with more than 64 extents breaks, with their number.
pub fn too_many_extents(extents: usize) -> Option<Rule>
    ensures { result ≡ too_many_extents extents }
{
    if extents > EXTENTS {
        return Some(Rule::TooManyExtents(extents as u64));
    }
    None
}
