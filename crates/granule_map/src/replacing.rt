//! A run that is given another state, and what it was before.

ghost use Rattle.granule_map.specs.Told.{tags_with, with_item};
ghost use Rattle.memchr.specs.Find.{is_byte};
ghost use Rattle.std.specs.Prelude.{◌≡◌, ◌+◌, ◌≤◌, count_by, drop, if◌then◌else◌, length, take};

use crate::marks::{LANES, are_alike, are_few_alike, fill_16, fill_few};
use crate::states::{DIRTY, FREE, GranuleState};
use dcd_base::{Run, Tag};
use std::simd::prelude::*;

/// How many granules of a run were free, and how many dirty.
#[derive(Clone, Copy, Debug)]
pub struct Replaced {
    pub free: u32,
    pub dirty: u32,
}

/// Makes each mark and each host of the run the ones given, and counts the marks that were there.
#[inline(always)]
pub(crate) fn replace_both(
    marks: &mut [u8],
    hosts: &mut [u8],
    run: &Run,
    mark: u8,
    host: u8,
) -> Replaced
    requires marks { run.now.first + run.now.count ≤ length marks.old }
    requires hosts { run.now.first + run.now.count ≤ length hosts.old }
    ensures marks { marks.new ≡ with_item run.now mark marks.old }
    ensures hosts { hosts.new ≡ with_item run.now host hosts.old }
    ensures free { result.free ≡ count_by (is_byte FREE) (take run.now.count (drop run.now.first marks.old)) }
    ensures dirty { result.dirty ≡ count_by (is_byte DIRTY) (take run.now.count (drop run.now.first marks.old)) }
{
    let first = run.first.0 as usize;
    let count = run.count as usize;
    if are_few_alike(marks, first, count) {
        let was = marks[first];
        fill_few(marks, first, count, mark);
        fill_few(hosts, first, count, host);
        return Replaced {
            free: all_if(FREE, was, run.count),
            dirty: all_if(DIRTY, was, run.count),
        };
    }
    replace_many(marks, hosts, run, mark, host)
}

/// The same, many at a time.
#[inline(never)]
fn replace_many(marks: &mut [u8], hosts: &mut [u8], run: &Run, mark: u8, host: u8) -> Replaced
    requires marks { run.now.first + run.now.count ≤ length marks.old }
    requires hosts { run.now.first + run.now.count ≤ length hosts.old }
    ensures marks { marks.new ≡ with_item run.now mark marks.old }
    ensures hosts { hosts.new ≡ with_item run.now host hosts.old }
    ensures free { result.free ≡ count_by (is_byte FREE) (take run.now.count (drop run.now.first marks.old)) }
    ensures dirty { result.dirty ≡ count_by (is_byte DIRTY) (take run.now.count (drop run.now.first marks.old)) }
{
    let first = run.first.0 as usize;
    let count = run.count as usize;
    let (mut free, mut dirty) = (0, 0);
    let mut i = 0;
    while i < count {
        let begun = i;
        let was = marks[first + i];
        while count - i >= LANES && are_alike(marks, was, first + i) {
            fill_16(marks, first + i, mark);
            fill_16(hosts, first + i, host);
            i += LANES;
        }
        while i < count && marks[first + i] == was {
            marks[first + i] = mark;
            hosts[first + i] = host;
            i += 1;
        }
        let alike = (i - begun) as u32;
        free += all_if(FREE, was, alike);
        dirty += all_if(DIRTY, was, alike);
    }
    Replaced { free, dirty }
}

/// Makes the tag of each granule of the run the one that the state names, where it names one.
#[inline(always)]
pub(crate) fn write_tag(tags: &mut [Tag], run: &Run, state: &GranuleState)
    requires { run.now.first + run.now.count ≤ length tags.old }
    ensures { tags.new ≡ tags_with run.now state.now tags.old }
{
    match state {
        GranuleState::Tagged(tag) => fill_tags(tags, run, tag),
        _ => (),
    }
}

/// Makes each tag of the run this one.
#[inline(never)]
fn fill_tags(tags: &mut [Tag], run: &Run, tag: &Tag)
    requires { run.now.first + run.now.count ≤ length tags.old }
    ensures { tags.new ≡ with_item run.now tag.now tags.old }
{
    let first = run.first.0 as usize;
    let lanes = u8x16::from_array(tag.0);
    for i in 0..run.count as usize {
        tags[first + i] = Tag(lanes.to_array());
    }
}

/// All of so many where the mark is this one, and else none.
fn all_if(mark: u8, found: u8, count: u32) -> u32
    ensures { result ≡ (if is_byte mark found then count else 0) }
{
    if found == mark { count } else { 0 }
}
