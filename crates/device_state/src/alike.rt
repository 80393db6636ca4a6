//! Granules that the same hosts hold, read many at a time.

ghost use Rattle.std.specs.Prelude.{◌≡◌, ◌==◌, ◌+◌, ◌<◌, ◌≤◌, IsTrue, false, length, slice_index_or, ℕ};

use std::simd::prelude::*;

/// So many granules are read at once.
const LANES: usize = 32;

/// So many where fewer are left.
const HALF: usize = 16;

/// The granule behind those strides from one on that these hosts hold throughout, and no others; up to the end at most.
pub(crate) fn held_so_up_to(bits: &[u16], held: u16, first: u32, end: u32) -> u32
    requires { first ≤ end }
    ensures from { first ≤ result }
    ensures within { result ≤ end }
    ensures same { (g : ℕ) → first ≤ g → g < result → slice_index_or bits.now g 0 ≡ held }
{
    // Fewer than half a stride are looked at one by one.
    if end - first < HALF as u32 {
        return first;
    }
    let known = bits.len().min(end as usize);
    let mut next = first as usize;
    while next + LANES <= known && are_held_so(bits, held, next) {
        next += LANES;
    }
    if next + HALF <= known && is_half_held_so(bits, held, next) {
        next += HALF;
    }
    next as u32
}

/// The first granule from one on that others hold than these hosts, or the end. Nobody holds one past the last.
pub(crate) fn other_from(bits: &[u16], held: u16, first: u32, end: u32) -> u32
    requires { first ≤ end }
    ensures from { first ≤ result }
    ensures within { result ≤ end }
    ensures same { (g : ℕ) → first ≤ g → g < result → slice_index_or bits.now g 0 ≡ held }
    ensures other { result < end → (slice_index_or bits.now result 0 == held) ≡ false }
{
    let known = bits.len().min(end as usize);
    for next in first as usize..known {
        if bits[next] != held {
            return next as u32;
        }
    }
    if held == 0 {
        return end;
    }
    first.max(known as u32)
}

/// Whether these hosts hold each granule of the stride from one on, and no others.
#[inline(always)]
fn are_held_so(bits: &[u16], held: u16, first: usize) -> bool
    requires { first + 32 ≤ length bits.now }
    ensures { IsTrue result → (g : ℕ) → first ≤ g → g < first + 32 → slice_index_or bits.now g 0 ≡ held }
{
    u16x32::from_slice(&bits[first..])
        .simd_ne(u16x32::splat(held))
        .to_bitmask()
        == 0
}

/// The same of half a stride.
#[inline(always)]
fn is_half_held_so(bits: &[u16], held: u16, first: usize) -> bool
    requires { first + 16 ≤ length bits.now }
    ensures { IsTrue result → (g : ℕ) → first ≤ g → g < first + 16 → slice_index_or bits.now g 0 ≡ held }
{
    u16x16::from_slice(&bits[first..])
        .simd_ne(u16x16::splat(held))
        .to_bitmask()
        == 0
}
