//! Fields read at their place.

ghost use Rattle.dcd_base.specs.Layouts.{number_at};
ghost use Rattle.dcd_base.specs.Payloads.{has_flag, tag_at};
ghost use Rattle.std.specs.Int.{w16, w32, w64};
ghost use Rattle.std.specs.Prelude.{◌≡◌, ◌+◌, ◌<◌, ◌≤◌, length};

use crate::capacity::Tag;

/// The two bytes at the place as a number.
pub fn u16_at(bytes: &[u8], at: usize) -> u16
    requires { at + 2 ≤ length bytes.now }
    ensures { result ≡ number_at w16 bytes.now at }
{
    let (_, rest) = bytes.split_at(at);
    u16::from_le_bytes([rest[0], rest[1]])
}

/// The four bytes at the place as a number.
pub fn u32_at(bytes: &[u8], at: usize) -> u32
    requires { at + 4 ≤ length bytes.now }
    ensures { result ≡ number_at w32 bytes.now at }
{
    let (_, rest) = bytes.split_at(at);
    u32::from_le_bytes([rest[0], rest[1], rest[2], rest[3]])
}

/// The eight bytes at the place as a number.
pub fn u64_at(bytes: &[u8], at: usize) -> u64
    requires { at + 8 ≤ length bytes.now }
    ensures { result ≡ number_at w64 bytes.now at }
{
    let (_, rest) = bytes.split_at(at);
    u64::from_le_bytes([
        rest[0], rest[1], rest[2], rest[3], rest[4], rest[5], rest[6], rest[7],
    ])
}

/// Bit 0 of the byte at the place. Its other bits are reserved.
pub fn flag_at(bytes: &[u8], at: usize) -> bool
    requires { at < length bytes.now }
    ensures { result ≡ has_flag bytes.now at }
{
    bytes[at] & 1 == 1
}

/// The 16 bytes at the place as a tag.
pub fn tag_at(bytes: &[u8], at: usize) -> Tag
    requires { at + 16 ≤ length bytes.now }
    ensures { result ≡ tag_at bytes.now at }
{
    let (_, rest) = bytes.split_at(at);
    let (front, _) = rest.split_at(16);
    let mut tag = [0; 16];
    tag.copy_from_slice(front);
    Tag(tag)
}
