//! Fields put into bytes at their place: numbers low byte first, flags, tags, and bytes as they are.
//!
//! Each call writes what its name says at the place and leaves what stands before and behind it.

ghost use Rattle.dcd_base.specs.Words.{flag_of};
ghost use Rattle.dcd_base.specs.Layouts.{is_byte, u16_bytes, u24_bytes, u32_bytes, u64_bytes, u8_bytes};
ghost use Rattle.std.specs.List.{list_all};
ghost use Rattle.std.specs.Prelude.{◌≡◌, ◌+◌, ◌++◌, ◌<◌, ◌≤◌, ◌^◌, [], ◌∷◌, IsTrue, drop, length, replicate, take};

use crate::capacity::Tag;
use crate::ranges::are_bytes;
use byteorder::{ByteOrder, LittleEndian};

/// Bytes as they are.
pub fn put_bytes(out: &mut [u8], at: usize, part: &[u8])
    requires { at + length part.now ≤ length out.old }
    ensures put { take (at + length part.now) out.new ≡ take at out.old ++ part.now }
    ensures rest { drop (at + length part.now) out.new ≡ drop (at + length part.now) out.old }
{
    let (_, rest) = out.split_at_mut(at);
    let (front, _) = rest.split_at_mut(part.len());
    front.copy_from_slice(part);
}

/// A byte as it is.
pub fn put_byte(out: &mut [u8], at: usize, byte: u8)
    requires { at < length out.old }
    ensures put { take (at + 1) out.new ≡ take at out.old ++ byte ∷ [] }
    ensures rest { drop (at + 1) out.new ≡ drop (at + 1) out.old }
{
    let (_, rest) = out.split_at_mut(at);
    rest[0] = byte;
}

/// A number of one byte.
pub fn put_u8(out: &mut [u8], at: usize, number: u8)
    requires { at < length out.old }
    ensures put { take (at + 1) out.new ≡ take at out.old ++ u8_bytes number }
    ensures rest { drop (at + 1) out.new ≡ drop (at + 1) out.old }
{
    put_byte(out, at, number);
}

/// A number of two bytes.
pub fn put_u16(out: &mut [u8], at: usize, number: u16)
    requires { at + 2 ≤ length out.old }
    ensures put { take (at + 2) out.new ≡ take at out.old ++ u16_bytes number }
    ensures rest { drop (at + 2) out.new ≡ drop (at + 2) out.old }
{
    let (_, rest) = out.split_at_mut(at);
    LittleEndian::write_u16(rest, number);
}

/// A number below 2^24 of three bytes.
pub fn put_u24(out: &mut [u8], at: usize, number: u32)
    requires within { at + 3 ≤ length out.old }
    requires fits { number < 2 ^ 24 }
    ensures put { take (at + 3) out.new ≡ take at out.old ++ u24_bytes number }
    ensures rest { drop (at + 3) out.new ≡ drop (at + 3) out.old }
{
    let (_, rest) = out.split_at_mut(at);
    LittleEndian::write_u24(rest, number);
}

/// A number of four bytes.
pub fn put_u32(out: &mut [u8], at: usize, number: u32)
    requires { at + 4 ≤ length out.old }
    ensures put { take (at + 4) out.new ≡ take at out.old ++ u32_bytes number }
    ensures rest { drop (at + 4) out.new ≡ drop (at + 4) out.old }
{
    let (_, rest) = out.split_at_mut(at);
    LittleEndian::write_u32(rest, number);
}

/// A number of eight bytes.
pub fn put_u64(out: &mut [u8], at: usize, number: u64)
    requires { at + 8 ≤ length out.old }
    ensures put { take (at + 8) out.new ≡ take at out.old ++ u64_bytes number }
    ensures rest { drop (at + 8) out.new ≡ drop (at + 8) out.old }
{
    let (_, rest) = out.split_at_mut(at);
    LittleEndian::write_u64(rest, number);
}

/// A byte whose bit 0 is the flag. Its other bits are reserved.
pub fn put_flag(out: &mut [u8], at: usize, flag: bool)
    requires { at < length out.old }
    ensures put { take (at + 1) out.new ≡ take at out.old ++ flag_of flag ∷ [] }
    ensures rest { drop (at + 1) out.new ≡ drop (at + 1) out.old }
{
    put_byte(out, at, u8::from(flag));
}

/// So many reserved bytes.
pub fn put_zeros<const N: usize>(out: &mut [u8], at: usize)
    requires { at + N ≤ length out.old }
    ensures put { take (at + N) out.new ≡ take at out.old ++ replicate N 0 }
    ensures rest { drop (at + N) out.new ≡ drop (at + N) out.old }
{
    put_bytes(out, at, &[0; N]);
}

/// The sixteen bytes of a tag.
pub fn put_tag(out: &mut [u8], at: usize, tag: &Tag)
    requires { at + 16 ≤ length out.old }
    ensures put { take (at + 16) out.new ≡ take at out.old ++ tag.now.0 }
    ensures rest { drop (at + 16) out.new ≡ drop (at + 16) out.old }
    // What a tag's type says: it is sixteen bytes.
    ensures bytes { (length tag.now.0 ≡ 16) × IsTrue (list_all is_byte tag.now.0) }
{
    are_bytes(&tag.0);
    put_bytes(out, at, &tag.0);
}
