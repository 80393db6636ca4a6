//! The payloads of the replies to the manager.

ghost use Rattle.dcd_base.specs.Layouts.{u64_bytes};
ghost use Rattle.fm_payloads.specs.ManagerPayloads.{info_head, info_payload, lists_head, regions_head, tag_bytes, tags_head, tags_payload};
ghost use Rattle.std.specs.Prelude.{◌≡◌, ◌+◌, ◌*◌, ◌++◌, ◌≤◌, IfOk, OnErr, OnOk, flat_map, length, take};

use dcd_base::{
    Bytes, NoMemory, TagView, put_flag, put_tag, put_u8, put_u16, put_u32, put_u64, put_zeros,
    with_zeros,
};

/// Puts the first 24 bytes of the reply to Get DCD Info at the start: hosts, regions, the policies of adds and of
/// releases, and how many granules there are, are free and are dirty.
#[tactic(auto, unfolding(crate::specs::ManagerPayloads::info_head))]
fn put_info_head(out: &mut [u8], hosts: u8, regions: u8, granules: u32, free: u32, dirty: u32)
    requires { 24 ≤ length out.old }
    ensures { take 24 out.new ≡ info_head hosts regions granules free dirty }
{
    put_u8(out, 0, hosts);
    put_u8(out, 1, regions);
    put_u16(out, 2, 0x000F);
    put_u16(out, 4, 0x0003);
    put_zeros::<2>(out, 6);
    put_u32(out, 8, granules);
    put_u32(out, 12, free);
    put_u32(out, 16, dirty);
    put_zeros::<4>(out, 20);
}

/// Puts numbers of eight bytes each at a place, and leaves what stands before them.
fn put_sizes(out: &mut [u8], at: usize, sizes: &[u64])
    requires { at + 8 * length sizes.now ≤ length out.old }
    ensures { take (at + 8 * length sizes.now) out.new ≡ take at out.old ++ flat_map u64_bytes sizes.now }
{
    let mut place = at;
    for size in sizes {
        put_u64(out, place, *size);
        place += 8;
    }
}

/// Fills the payload of the reply to Get DCD Info.
fn fill_info(out: &mut [u8], hosts: u8, granules: u32, free: u32, dirty: u32, sizes: &[u64])
    requires few { length sizes.now ≤ 8 }
    requires whole { length out.old ≡ 24 + 8 * length sizes.now }
    ensures { out.new ≡ info_payload hosts granules free dirty sizes.now }
{
    put_info_head(out, hosts, sizes.len() as u8, granules, free, dirty);
    put_sizes(out, 24, sizes);
}

/// Appends the payload of the reply to Get DCD Info (profile): how many hosts and regions there are, the policies
/// that 5604h (bits 0 to 3) and 5605h (bits 0 and 1) know, how many granules there are, are free and are dirty,
/// and for each region, 1 to 8, the block sizes that it supports, bit n for 2^n bytes. Without memory `out` is as
/// it was.
pub fn write_info(
    hosts: u8,
    granules: u32,
    free: u32,
    dirty: u32,
    sizes: &[u64],
    out: &mut Bytes,
) -> Result<(), NoMemory>
    requires some { 1 ≤ length sizes.now }
    requires few { length sizes.now ≤ 8 }
    ensures appended { OnOk result
        (out.new ≡ out.old ++ info_payload hosts granules free dirty sizes.now) }
    ensures kept { OnErr result (out.new ≡ out.old) }
{
    let at = out.len();
    let mut bytes = with_zeros(out, 24 + 8 * sizes.len())?;
    let (_, rest) = bytes.split_at_mut(at);
    fill_info(rest, hosts, granules, free, dirty, sizes);
    *out = Bytes::from_vec(out.allocator(), bytes);
    Ok(())
}

/// Fills the eight bytes before the regions.
#[tactic(auto, unfolding(crate::specs::ManagerPayloads::regions_head))]
fn fill_regions_head(out: &mut [u8], host: u16, total: u8, returned: u8)
    requires { length out.old ≡ 8 }
    ensures { out.new ≡ regions_head host total returned }
{
    put_u16(out, 0, host);
    put_u8(out, 2, total);
    put_u8(out, 3, returned);
    put_zeros::<4>(out, 4);
}

/// The eight bytes before the regions in the reply to Get Host DC Region Configuration (profile): the host, how many
/// regions the device has, how many follow.
pub fn regions_head(host: u16, total: u8, returned: u8) -> [u8; 8]
    ensures { result ≡ regions_head host total returned }
{
    let mut head = [0; 8];
    fill_regions_head(&mut head, host, total, returned);
    head
}

/// Fills the 24 bytes before the extents.
#[tactic(auto, unfolding(crate::specs::ManagerPayloads::lists_head))]
fn fill_lists_head(
    out: &mut [u8],
    host: u16,
    first: u32,
    returned: u32,
    total: u32,
    generation: u32,
)
    requires { length out.old ≡ 24 }
    ensures { out.new ≡ lists_head host first returned total generation }
{
    put_u16(out, 0, host);
    put_zeros::<2>(out, 2);
    put_u32(out, 4, first);
    put_u32(out, 8, returned);
    put_u32(out, 12, total);
    put_u32(out, 16, generation);
    put_zeros::<4>(out, 20);
}

/// The 24 bytes before the extents in the reply to Get DC Region Extent Lists (profile): the host, the first index,
/// how many extents follow, how many the host has, how often its list changed, modulo 2^32.
pub fn lists_head(host: u16, first: u32, returned: u32, total: u32, generation: u32) -> [u8; 24]
    ensures { result ≡ lists_head host first returned total generation }
{
    let mut head = [0; 24];
    fill_lists_head(&mut head, host, first, returned, total, generation);
    head
}

/// Fills 24 bytes with a tag: the tag, holders, offered, flags; the last three are reserved.
#[tactic(auto, unfolding(crate::specs::ManagerPayloads::tag_bytes))]
fn fill_tag(out: &mut [u8], view: &TagView)
    requires { length out.old ≡ 24 }
    ensures { out.new ≡ tag_bytes view.now }
{
    put_tag(out, 0, &view.tag);
    put_u16(out, 16, view.holders);
    put_u16(out, 18, view.offered);
    put_flag(out, 20, view.referenced);
    put_zeros::<3>(out, 21);
}

/// Puts a tag's 24 bytes at a place, and leaves what stands before them.
fn put_view(out: &mut [u8], at: usize, view: &TagView)
    requires { at + 24 ≤ length out.old }
    ensures { take (at + 24) out.new ≡ take at out.old ++ tag_bytes view.now }
{
    let (_, rest) = out.split_at_mut(at);
    let (front, _) = rest.split_at_mut(24);
    fill_tag(front, view);
}

/// Puts tags at a place, 24 bytes each, and leaves what stands before them.
fn put_tags(out: &mut [u8], at: usize, tags: &[TagView])
    requires { at + 24 * length tags.now ≤ length out.old }
    ensures { take (at + 24 * length tags.now) out.new ≡ take at out.old ++ flat_map tag_bytes tags.now }
{
    let mut place = at;
    for tag in tags {
        put_view(out, place, tag);
        place += 24;
    }
}

/// Puts the 16 bytes before the tags at the start.
#[tactic(auto, unfolding(crate::specs::ManagerPayloads::tags_head))]
fn put_tags_head(out: &mut [u8], first: u32, returned: u32, total: u32)
    requires { 16 ≤ length out.old }
    ensures { take 16 out.new ≡ tags_head first returned total }
{
    put_u32(out, 0, first);
    put_u32(out, 4, returned);
    put_u32(out, 8, total);
    put_zeros::<4>(out, 12);
}

/// Fills the payload of the reply to List Tags.
fn fill_tags(out: &mut [u8], first: u32, total: u32, tags: &[TagView])
    requires few { length tags.now ≤ 84 }
    requires whole { length out.old ≡ 16 + 24 * length tags.now }
    ensures { out.new ≡ tags_payload first total tags.now }
{
    put_tags_head(out, first, tags.len() as u32, total);
    put_tags(out, 16, tags);
}

/// Appends the payload of the reply to List Tags (profile): the first index, how many tags follow, how many there
/// are, and the tags asked for, at most 84. Without memory `out` is as it was.
pub fn write_tags(first: u32, total: u32, tags: &[TagView], out: &mut Bytes) -> Result<(), NoMemory>
    requires { length tags.now ≤ 84 }
    ensures appended { OnOk result (out.new ≡ out.old ++ tags_payload first total tags.now) }
    ensures kept { OnErr result (out.new ≡ out.old) }
{
    let at = out.len();
    let mut bytes = with_zeros(out, 16 + 24 * tags.len())?;
    let (_, rest) = bytes.split_at_mut(at);
    fill_tags(rest, first, total, tags);
    *out = Bytes::from_vec(out.allocator(), bytes);
    Ok(())
}
