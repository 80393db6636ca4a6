//! Regions and counts as a reply shows them.

ghost use Rattle.host_payloads.specs.HostPayloads.{counts_bytes, region_bytes};
ghost use Rattle.std.specs.Prelude.{◌≡◌, ◌+◌, ◌++◌, ◌≤◌, length, take};

use event_records::dcd_base::{put_u8, put_u32, put_u64, put_zeros};

/// A region as the reply to Get Dynamic Capacity Configuration shows it (CXL 3.1, 8.2.9.9.9.1).
#[derive(Clone, Copy, Debug, PartialEq, Eq)]
pub struct RegionView {
    /// The first device physical address of the region, in bytes.
    pub base: u64,
    /// The length that is decoded, in units of 256 MiB.
    pub decode_units: u64,
    /// The length that has capacity, in bytes.
    pub length: u64,
    /// The size of a block, in bytes.
    pub block: u64,
    /// The DSMAD handle.
    pub handle: u32,
    /// Bit 0 stands where the region sanitizes on release (profile).
    pub flags: u8,
}

/// What a host may have, and what is left of it (CXL 3.1, 8.2.9.9.9.1).
#[derive(Clone, Copy, Debug, PartialEq, Eq)]
pub struct Counts {
    /// How many extents are supported.
    pub extents: u32,
    pub extents_available: u32,
    /// How many tags are supported.
    pub tags: u32,
    pub tags_available: u32,
}

/// Fills 40 bytes with a region; the last three are reserved.
#[tactic(auto, unfolding(crate::specs::HostPayloads::region_bytes))]
fn fill_region(out: &mut [u8], view: &RegionView)
    requires { length out.old ≡ 40 }
    ensures { out.new ≡ region_bytes view.now }
{
    put_u64(out, 0, view.base);
    put_u64(out, 8, view.decode_units);
    put_u64(out, 16, view.length);
    put_u64(out, 24, view.block);
    put_u32(out, 32, view.handle);
    put_u8(out, 36, view.flags);
    put_zeros::<3>(out, 37);
}

/// Puts a region's 40 bytes at a place, and leaves what stands before it.
pub fn put_region(out: &mut [u8], at: usize, view: &RegionView)
    requires { at + 40 ≤ length out.old }
    ensures { take (at + 40) out.new ≡ take at out.old ++ region_bytes view.now }
{
    let (_, rest) = out.split_at_mut(at);
    let (front, _) = rest.split_at_mut(40);
    fill_region(front, view);
}

/// A region's 40 bytes in a reply; the last three are reserved.
pub fn region_bytes(view: &RegionView) -> [u8; 40]
    ensures { result ≡ region_bytes view.now }
{
    let mut bytes = [0; 40];
    fill_region(&mut bytes, view);
    bytes
}

/// Fills 16 bytes with the counts.
#[tactic(auto, unfolding(crate::specs::HostPayloads::counts_bytes))]
fn fill_counts(out: &mut [u8], counts: &Counts)
    requires { length out.old ≡ 16 }
    ensures { out.new ≡ counts_bytes counts.now }
{
    put_u32(out, 0, counts.extents);
    put_u32(out, 4, counts.extents_available);
    put_u32(out, 8, counts.tags);
    put_u32(out, 12, counts.tags_available);
}

/// Puts the 16 bytes of the counts at a place, and leaves what stands before them.
pub fn put_counts(out: &mut [u8], at: usize, counts: &Counts)
    requires { at + 16 ≤ length out.old }
    ensures { take (at + 16) out.new ≡ take at out.old ++ counts_bytes counts.now }
{
    let (_, rest) = out.split_at_mut(at);
    let (front, _) = rest.split_at_mut(16);
    fill_counts(front, counts);
}

/// The 16 bytes of the counts: extents supported and available, tags supported and available.
pub fn counts_bytes(counts: &Counts) -> [u8; 16]
    ensures { result ≡ counts_bytes counts.now }
{
    let mut bytes = [0; 16];
    fill_counts(&mut bytes, counts);
    bytes
}
