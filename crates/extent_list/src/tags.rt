//! Tags among extents.

ghost use Rattle.dcd_base.specs.Words.{same_tag};
ghost use Rattle.extent_list.specs.ExtentLists.{has_extent_of};
ghost use Rattle.std.specs.Int.{from_le_bytes, w64};
ghost use Rattle.std.specs.Prelude.{◌≡◌, ℕ, ◌+◌, ◌<◌, ◌≤◌, drop, length, slice_index, take};

use dcd_base::{Extent, Tag};

/// Whether these are one tag, by two numbers of eight bytes.
pub fn same_tag(tag: &Tag, other: &Tag) -> bool
    ensures { result ≡ same_tag tag.now other.now }
{
    number_of(&tag.0, 0) == number_of(&other.0, 0) && number_of(&tag.0, 8) == number_of(&other.0, 8)
}

/// Eight bytes of a tag as a number.
fn number_of(bytes: &[u8], at: usize) -> u64
    requires { at + 8 ≤ length bytes.now }
    ensures value { result ≡ from_le_bytes w64 (take 8 (drop at bytes.now)) }
    ensures bytes { (i : ℕ) → slice_index bytes.now i < 256 }
{
    let (_, rest) = bytes.split_at(at);
    u64::from_le_bytes([
        rest[0], rest[1], rest[2], rest[3], rest[4], rest[5], rest[6], rest[7],
    ])
}

/// Whether one of the extents has the tag.
pub fn has_extent_of(tag: &Tag, extents: &[Extent]) -> bool
    ensures { result ≡ has_extent_of tag.now extents.now }
{
    extents.iter().any(|extent| same_tag(&extent.tag, tag))
}
