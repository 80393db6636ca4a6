//! Granules by their marks: a byte for each, searched many at a time.

ghost use Rattle.granule_map.specs.Stretches.{AreAlike, IsNext, fails};
ghost use Rattle.memchr.specs.Find.{is_byte};
ghost use Rattle.std.specs.Prelude.{◌≡◌, ◌+◌, ◌<◌, ◌≤◌, ℕ, IsTrue, ◌++◌, drop, false, length, replicate, slice_index, take};

use memchr::memchr;
use std::simd::prelude::*;

/// So many places are read at once.
pub(crate) const LANES: usize = 16;

/// The lowest place from one on that has the mark, or the end where none below it has.
pub(crate) fn next_with(marks: &[u8], mark: u8, from: usize, end: usize) -> usize
    requires ordered { from ≤ end }
    requires within { end ≤ length marks.now }
    ensures { IsNext (λ k. is_byte mark (slice_index marks.now k)) from end result }
{
    if end - from < LANES {
        return far_with(marks, mark, from, end);
    }
    let place = next_of_16(marks, mark, from);
    if place < from + LANES {
        return place;
    }
    far_with(marks, mark, place, end)
}

/// The lowest of 16 places from one on that has the mark, or the one behind them where none has.
pub(crate) fn next_of_16(marks: &[u8], mark: u8, from: usize) -> usize
    requires { from + 16 ≤ length marks.now }
    ensures { IsNext (λ k. is_byte mark (slice_index marks.now k)) from (from + 16) result }
{
    let found = u8x16::from_slice(&marks[from..])
        .simd_eq(u8x16::splat(mark))
        .to_bitmask();
    if found == 0 {
        from + LANES
    } else {
        from + found.trailing_zeros() as usize
    }
}

/// The same, many places at a time.
pub(crate) fn far_with(marks: &[u8], mark: u8, from: usize, end: usize) -> usize
    requires ordered { from ≤ end }
    requires within { end ≤ length marks.now }
    ensures { IsNext (λ k. is_byte mark (slice_index marks.now k)) from end result }
{
    match memchr(mark, &marks[from..end]) {
        Some(place) => from + place,
        None => end,
    }
}

/// The lowest place from one on that has another mark than this one, or the end where none below it has.
pub(crate) fn next_other(marks: &[u8], mark: u8, from: usize, end: usize) -> usize
    requires ordered { from ≤ end }
    requires within { end ≤ length marks.now }
    ensures { IsNext (fails (λ k. is_byte mark (slice_index marks.now k))) from end result }
{
    let mut next = from;
    while end - next >= LANES {
        let place = other_of_16(marks, mark, next);
        if place < next + LANES {
            return place;
        }
        next = place;
    }
    near_other(marks, mark, next, end)
}

/// The lowest of 16 places from one on that has another mark than this one, or the one behind them where none has.
#[inline(always)]
fn other_of_16(marks: &[u8], mark: u8, from: usize) -> usize
    requires { from + 16 ≤ length marks.now }
    ensures { IsNext (fails (λ k. is_byte mark (slice_index marks.now k))) from (from + 16) result }
{
    let found = u8x16::from_slice(&marks[from..])
        .simd_ne(u8x16::splat(mark))
        .to_bitmask();
    if found == 0 {
        from + LANES
    } else {
        from + found.trailing_zeros() as usize
    }
}

/// The lowest place from one on that has another mark, looked for one by one.
fn near_other(marks: &[u8], mark: u8, from: usize, end: usize) -> usize
    requires ordered { from ≤ end }
    requires within { end ≤ length marks.now }
    ensures { IsNext (fails (λ k. is_byte mark (slice_index marks.now k))) from end result }
{
    for place in from..end {
        if marks[place] != mark {
            return place;
        }
    }
    end
}

/// The first place from one on, but not that one itself, that has another mark, or the end where none below it has.
pub fn alike_from(marks: &[u8], mark: u8, from: usize, end: usize) -> usize
    requires below { from < end }
    requires within { end ≤ length marks.now }
    requires here { slice_index marks.now from ≡ mark }
    ensures later { from < result }
    ensures within { result ≤ end }
    ensures alike { (k : ℕ) → from ≤ k → k < result → slice_index marks.now k ≡ mark }
    ensures ends { result < end → is_byte mark (slice_index marks.now result) ≡ false }
{
    let mut next = from;
    while end - next >= LANES && are_alike(marks, mark, next) {
        next += LANES;
    }
    for place in next.max(from + 1)..end {
        if marks[place] != mark {
            return place;
        }
    }
    end
}

/// Whether each of 16 places from one on has the mark.
#[inline(always)]
pub(crate) fn are_alike(marks: &[u8], mark: u8, from: usize) -> bool
    requires { from + 16 ≤ length marks.now }
    ensures { IsTrue result → (k : ℕ) → from ≤ k → k < from + 16 → slice_index marks.now k ≡ mark }
{
    u8x16::from_slice(&marks[from..])
        .simd_ne(u8x16::splat(mark))
        .to_bitmask()
        == 0
}

/// Makes each of 16 bytes from one on this one.
#[inline(always)]
pub(crate) fn fill_16(bytes: &mut [u8], from: usize, byte: u8)
    requires { from + 16 ≤ length bytes.old }
    ensures { bytes.new ≡ take from bytes.old ++ replicate 16 byte ++ drop (from + 16) bytes.old }
{
    u8x16::splat(byte).copy_to_slice(&mut bytes[from..]);
}

/// Makes each of 8 bytes from one on this one.
#[inline(always)]
fn fill_8(bytes: &mut [u8], from: usize, byte: u8)
    requires { from + 8 ≤ length bytes.old }
    ensures { bytes.new ≡ take from bytes.old ++ replicate 8 byte ++ drop (from + 8) bytes.old }
{
    u8x8::splat(byte).copy_to_slice(&mut bytes[from..]);
}

/// Makes each of 4 bytes from one on this one.
#[inline(always)]
fn fill_4(bytes: &mut [u8], from: usize, byte: u8)
    requires { from + 4 ≤ length bytes.old }
    ensures { bytes.new ≡ take from bytes.old ++ replicate 4 byte ++ drop (from + 4) bytes.old }
{
    u8x4::splat(byte).copy_to_slice(&mut bytes[from..]);
}

/// Makes each of 2 bytes from one on this one.
#[inline(always)]
fn fill_2(bytes: &mut [u8], from: usize, byte: u8)
    requires { from + 2 ≤ length bytes.old }
    ensures { bytes.new ≡ take from bytes.old ++ replicate 2 byte ++ drop (from + 2) bytes.old }
{
    u8x2::splat(byte).copy_to_slice(&mut bytes[from..]);
}

/// Makes each of so many bytes from one on this one, 16 at most: the first of them at once, and the last of them at once.
#[inline(always)]
pub fn fill_few(bytes: &mut [u8], from: usize, count: usize, byte: u8)
    requires within { from + count ≤ length bytes.old }
    requires few { count ≤ 16 }
    ensures { bytes.new ≡ take from bytes.old ++ replicate count byte ++ drop (from + count) bytes.old }
{
    if count >= 8 {
        fill_8(bytes, from, byte);
        fill_8(bytes, from + (count - 8), byte);
    } else if count >= 4 {
        fill_4(bytes, from, byte);
        fill_4(bytes, from + (count - 4), byte);
    } else if count >= 2 {
        fill_2(bytes, from, byte);
        fill_2(bytes, from + (count - 2), byte);
    } else if count == 1 {
        bytes[from] = byte;
    }
}

/// Whether it is one mark, or so many marks from one on are alike, 16 at most, and can be read at once: 16 lie there.
#[inline(always)]
pub fn are_few_alike(marks: &[u8], from: usize, count: usize) -> bool
    requires { from + count ≤ length marks.now }
    ensures few { IsTrue result → count ≤ 16 }
    ensures within { IsTrue result → from < length marks.now }
    ensures alike { IsTrue result → AreAlike marks.now from count }
    ensures one { count ≡ 1 → IsTrue result }
    ensures each { count ≤ 16 → from + 16 ≤ length marks.now → AreAlike marks.now from count → IsTrue result }
{
    if count == 1 {
        return true;
    }
    count <= LANES
        && marks.len() - from >= LANES
        && other_of_16(marks, marks[from], from) >= from + count
}
