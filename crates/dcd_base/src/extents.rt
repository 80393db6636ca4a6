//! Extents with their tags, 40 bytes each.

ghost use Rattle.dcd_base.specs.Extents.{FitsExtent, extent_bytes, whole_extent};
ghost use Rattle.dcd_base.specs.Layouts.{pieces};
ghost use Rattle.std.specs.List.{AllByRecursion};
ghost use Rattle.std.specs.Prelude.{◌≡◌, ◌+◌, ◌*◌, ◌≤◌, ◌++◌, IfOk, drop, flat_map, length, map, take};

use crate::capacity::Extent;
use crate::failures::NoMemory;
use crate::field_reading::{tag_at, u16_at, u64_at};
use crate::field_writing::{put_tag, put_u16, put_u64, put_zeros};
use crate::sequence::Extents;
use std::alloc::Global;

/// The extent that 40 bytes are. The last six are reserved.
fn whole_extent(bytes: &[u8]) -> Extent
    requires { 40 ≤ length bytes.now }
    ensures { result ≡ whole_extent bytes.now }
{
    Extent {
        start: u64_at(bytes, 0),
        length: u64_at(bytes, 8),
        tag: tag_at(bytes, 16),
        sequence: u16_at(bytes, 32),
    }
}

/// So many extents of 40 bytes each.
pub fn extents_of(alloc: Global, count: usize, bytes: &[u8]) -> Result<Extents, NoMemory>
    requires { 40 * count ≤ length bytes.now }
    ensures { IfOk result (λ extents. extents ≡ map whole_extent (pieces 40 count bytes.now)) }
{
    let mut extents = Extents::with_capacity(alloc, count)?;
    let mut rest = bytes;
    for _ in 0..count {
        let (piece, after) = rest.split_at(40);
        extents.push(whole_extent(piece))?;
        rest = after;
    }
    Ok(extents)
}

/// Fills 40 bytes with an extent: start, length, tag, sequence number; the last six are reserved
/// (CXL 3.1, 8.2.9.9.9.2).
#[tactic(auto, unfolding(crate::specs::Extents::extent_bytes))]
fn fill_extent(out: &mut [u8], extent: &Extent)
    requires { length out.old ≡ 40 }
    ensures bytes { out.new ≡ extent_bytes extent.now }
    // The numbers and the tag are those of so many bytes.
    ensures fits { FitsExtent extent.now }
{
    put_u64(out, 0, extent.start);
    put_u64(out, 8, extent.length);
    put_tag(out, 16, &extent.tag);
    put_u16(out, 32, extent.sequence);
    put_zeros::<6>(out, 34);
}

/// Puts an extent's 40 bytes at a place, and leaves what stands before and behind them.
pub fn put_extent(out: &mut [u8], at: usize, extent: &Extent)
    requires { at + 40 ≤ length out.old }
    ensures put { take (at + 40) out.new ≡ take at out.old ++ extent_bytes extent.now }
    ensures rest { drop (at + 40) out.new ≡ drop (at + 40) out.old }
    // The numbers and the tag are those of so many bytes.
    ensures fits { FitsExtent extent.now }
{
    let (_, rest) = out.split_at_mut(at);
    let (front, _) = rest.split_at_mut(40);
    fill_extent(front, extent);
}

/// Puts extents at a place, 40 bytes each, and leaves what stands before and behind them.
pub fn put_extents(out: &mut [u8], at: usize, extents: &[Extent])
    requires { at + 40 * length extents.now ≤ length out.old }
    ensures put { take (at + 40 * length extents.now) out.new ≡ take at out.old ++ flat_map extent_bytes extents.now }
    ensures rest { drop (at + 40 * length extents.now) out.new ≡ drop (at + 40 * length extents.now) out.old }
    ensures fit { AllByRecursion FitsExtent extents.now }
{
    let mut place = at;
    for extent in extents {
        put_extent(out, place, extent);
        place += 40;
    }
}
