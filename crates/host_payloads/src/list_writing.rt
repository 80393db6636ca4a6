//! Lists of extents without tags as they are written.

ghost use Rattle.host_payloads.specs.HostPayloads.{FitsListed, listed_bytes};
ghost use Rattle.std.specs.List.{AllByRecursion};
ghost use Rattle.std.specs.Prelude.{◌≡◌, ◌+◌, ◌*◌, ◌++◌, ◌≤◌, flat_map, length, take};

use event_records::dcd_base::{Extent, put_u64, put_zeros};

/// Fills 24 bytes with an extent without its tag and sequence number. The last eight are reserved.
#[tactic(auto, unfolding(crate::specs::HostPayloads::listed_bytes))]
fn fill_listed(out: &mut [u8], extent: &Extent)
    requires { length out.old ≡ 24 }
    ensures bytes { out.new ≡ listed_bytes extent.now }
    ensures fits { FitsListed extent.now }
{
    put_u64(out, 0, extent.start);
    put_u64(out, 8, extent.length);
    put_zeros::<8>(out, 16);
}

/// Puts an extent's 24 bytes at a place, and leaves what stands before it.
fn put_listed(out: &mut [u8], at: usize, extent: &Extent)
    requires { at + 24 ≤ length out.old }
    ensures put { take (at + 24) out.new ≡ take at out.old ++ listed_bytes extent.now }
    ensures fits { FitsListed extent.now }
{
    let (_, rest) = out.split_at_mut(at);
    let (front, _) = rest.split_at_mut(24);
    fill_listed(front, extent);
}

/// Puts extents without their tags and sequence numbers at a place, 24 bytes each, and leaves what stands before them.
pub fn put_all_listed(out: &mut [u8], at: usize, extents: &[Extent])
    requires { at + 24 * length extents.now ≤ length out.old }
    ensures put { take (at + 24 * length extents.now) out.new ≡ take at out.old ++ flat_map listed_bytes extents.now }
    ensures fit { AllByRecursion FitsListed extents.now }
{
    let mut place = at;
    for extent in extents {
        put_listed(out, place, extent);
        place += 24;
    }
}
