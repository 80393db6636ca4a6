//! What one extent is to a range of addresses.

ghost use Rattle.extent_list.specs.ExtentLists.{has_range, shares_range, piece};
ghost use Rattle.extent_list.specs.Rooms.{IsInAddresses};
ghost use Rattle.std.specs.Prelude.{◌≡◌, ◌+◌, ◌^◌, ◌<◌, ◌≤◌, ◌⊎◌, length, option_to_list};

use dcd_base::Extent;

/// The first address behind a range, which may be 2^64 and more.
fn end_of(start: u64, bytes: u64) -> u128
    ensures { result ≡ start + bytes }
{
    start as u128 + bytes as u128
}

/// Whether the range lies in the extent.
pub(crate) fn has_range_in(extent: &Extent, start: u64, bytes: u64) -> bool
    ensures { result ≡ has_range start bytes extent.now }
{
    if start < extent.start || extent.length < start - extent.start {
        return false;
    }
    bytes <= extent.length - (start - extent.start)
}

/// Whether the range and the extent overlap.
pub(crate) fn shares_range_with(extent: &Extent, start: u64, bytes: u64) -> bool
    ensures { result ≡ shares_range start bytes extent.now }
{
    if extent.start < start {
        return start - extent.start < extent.length;
    }
    extent.start - start < bytes && (start < extent.start || 0 < extent.length)
}

/// What remains of the extent below the range, if anything.
pub(crate) fn lower_piece(extent: &Extent, start: u64) -> Option<Extent>
    ensures { option_to_list result ≡ piece extent.now extent.now.start start }
{
    if extent.start < start {
        return Some(Extent {
            length: start - extent.start,
            ..*extent
        });
    }
    None
}

/// What remains of the extent above the range, if anything.
pub(crate) fn upper_piece(extent: &Extent, start: u64, bytes: u64) -> Option<Extent>
    requires begins { extent.now.start ≤ start }
    requires ends { (start + bytes < 2 ^ 64) ⊎ IsInAddresses extent.now }
    ensures { option_to_list result ≡ piece extent.now (start + bytes) (extent.now.start + extent.now.length) }
{
    let from = end_of(start, bytes);
    let to = end_of(extent.start, extent.length);
    if from < to {
        return Some(Extent {
            start: from as u64,
            length: (to - from) as u64,
            ..*extent
        });
    }
    None
}

/// 1 where there is a piece, and 0 where there is none.
pub(crate) fn count_of(piece: &Option<Extent>) -> usize
    ensures count { result ≡ length (option_to_list piece.now) }
    ensures one { result ≤ 1 }
{
    match piece {
        Some(_) => 1,
        None => 0,
    }
}
