//! The number below which no granule is free.

ghost use Rattle.granule_map.specs.Stretches.{IsNext};
ghost use Rattle.memchr.specs.Find.{is_byte};
ghost use Rattle.std.specs.Prelude.{◌≡◌, ◌+◌, ◌^◌, ◌<◌, ◌≤◌, ℕ, false, length, slice_index};

use crate::marks::{LANES, far_with, next_of_16};
use crate::states::FREE;
use dcd_base::Run;

/// What it becomes once each granule of the run has the mark: no more than the first of the run where the mark says
/// free, and else the end of the run where the run covers it.
#[inline(always)]
pub(crate) fn lowest_after(lowest: u32, run: &Run, mark: u8) -> u32
    requires { run.now.first + run.now.count < 2 ^ 32 }
    ensures free { mark ≡ FREE → result ≤ run.now.first }
    ensures covered { lowest < result → run.now.first ≤ lowest }
    ensures ends { lowest < result → result ≤ run.now.first + run.now.count }
{
    let first = run.first.0;
    if lowest < first {
        return lowest;
    }
    let end = first + run.count;
    if mark == FREE {
        first
    } else if lowest < end {
        end
    } else {
        lowest
    }
}

/// The lowest place from one on that has the mark, or the end where none below it has, where none below `lowest` has.
pub(crate) fn next_behind(marks: &[u8], mark: u8, lowest: usize, from: usize, end: usize) -> usize
    requires ordered { from ≤ end }
    requires within { end ≤ length marks.now }
    requires none { (g : ℕ) → g < lowest → is_byte mark (slice_index marks.now g) ≡ false }
    ensures { IsNext (λ k. is_byte mark (slice_index marks.now k)) from end result }
{
    if end - from < LANES {
        return far_with(marks, mark, from, end);
    }
    let place = next_of_16(marks, mark, from);
    if place < from + LANES {
        return place;
    }
    far_behind(marks, mark, lowest, place, end)
}

/// The same, many places at a time.
fn far_behind(marks: &[u8], mark: u8, lowest: usize, from: usize, end: usize) -> usize
    requires ordered { from ≤ end }
    requires within { end ≤ length marks.now }
    requires none { (g : ℕ) → g < lowest → is_byte mark (slice_index marks.now g) ≡ false }
    ensures { IsNext (λ k. is_byte mark (slice_index marks.now k)) from end result }
{
    if lowest <= from {
        far_with(marks, mark, from, end)
    } else if lowest < end {
        far_with(marks, mark, lowest, end)
    } else {
        end
    }
}
