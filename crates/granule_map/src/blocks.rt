//! The free blocks of an area.

ghost use Rattle.granule_map.specs.Blocks.{IsArea, block_count, free_block_count, is_block_free, longest_free_run, lowest_free_run};
ghost use Rattle.granule_map.specs.Stretches.{BlocksBetween, NextStretch};
ghost use Rattle.std.specs.Prelude.{◌≡◌, ◌+◌, ◌-◌, ◌*◌, ◌<◌, ◌≤◌, ℕ, IfSome};

use crate::map::GranuleMap;
use dcd_base::Run;

/// Free blocks that lie together: the first, and how many.
#[derive(Clone, Copy, Debug)]
pub struct FreeBlocks {
    pub first: u32,
    pub count: u32,
}

impl GranuleMap {
    /// The next free blocks of the area from one on, as many as lie together; None exactly where none is free from
    /// there on.
    #[inline(always)]
    pub fn next_free_blocks(&self, area: Run, per_block: u32, from: u32) -> Option<FreeBlocks>
        requires { IsArea self.now.states area per_block }
        ensures { NextStretch (is_block_free self.now.states area per_block) (block_count area per_block) from result }
    {
        next_blocks(self, &area, per_block, from)
    }
}

/// The number of the first granule of an area.
fn start_of(area: &Run) -> u32
    ensures { result ≡ area.now.first }
{
    area.first.0
}

/// The lowest block that begins at a granule or behind it, where both count from the start of the area.
fn first_whole(granule: u32, per_block: u32) -> u32
    requires { 0 < per_block }
    ensures reaches { granule ≤ result * per_block }
    ensures lowest { (k : ℕ) → k < result → k * per_block < granule }
{
    if per_block == 1 {
        return granule;
    }
    let block = granule / per_block;
    if block * per_block < granule {
        block + 1
    } else {
        block
    }
}

/// The block that has a granule, or the one behind the last, where both count from the start of the area.
fn block_of(granule: u32, per_block: u32) -> u32
    requires { 0 < per_block }
    ensures from { result * per_block ≤ granule }
    ensures below { granule < result * per_block + per_block }
{
    if per_block == 1 {
        granule
    } else {
        granule / per_block
    }
}

/// The whole blocks in adjacent granules, which count from the start of the area.
fn blocks_between(first: u32, end: u32, per_block: u32) -> Option<FreeBlocks>
    requires { 0 < per_block }
    ensures { BlocksBetween per_block first end result }
{
    let low = first_whole(first, per_block);
    let high = block_of(end, per_block);
    if low < high {
        Some(FreeBlocks {
            first: low,
            count: high - low,
        })
    } else {
        None
    }
}

/// The next free blocks from one on, as many as lie together; None exactly where none is free from there on.
#[inline(always)]
fn next_blocks(map: &GranuleMap, area: &Run, per_block: u32, from: u32) -> Option<FreeBlocks>
    requires area { IsArea map.now.states area.now per_block }
    ensures { NextStretch (is_block_free map.now.states area.now per_block) (block_count area.now per_block) from result }
{
    // There are fewer than 2^32 granules, so that their numbers do not wrap.
    let _granules = map.len();
    if from >= area.count / per_block {
        return None;
    }
    let start = start_of(area);
    let end = start + area.count;
    let mut at = start + from * per_block;
    while at < end {
        let free = map.next_free(at, end);
        let taken = map.next_taken(free, end);
        if let Some(blocks) = blocks_between(free - start, taken - start, per_block) {
            return Some(blocks);
        }
        at = taken;
    }
    None
}

/// How many blocks are free.
pub(crate) fn count_free_blocks(map: &GranuleMap, area: &Run, per_block: u32) -> u32
    requires { IsArea map.now.states area.now per_block }
    ensures { result ≡ free_block_count map.now.states area.now per_block }
{
    let _granules = map.len();
    let mut at = 0;
    let mut free = 0;
    while let Some(blocks) = next_blocks(map, area, per_block, at) {
        free += blocks.count;
        at = blocks.first + blocks.count;
    }
    free
}

/// The most free blocks that lie together.
pub(crate) fn longest_run_of(map: &GranuleMap, area: &Run, per_block: u32) -> u32
    requires { IsArea map.now.states area.now per_block }
    ensures { result ≡ longest_free_run map.now.states area.now per_block }
{
    let _granules = map.len();
    let mut at = 0;
    let mut longest = 0;
    while let Some(blocks) = next_blocks(map, area, per_block, at) {
        longest = blocks.count.max(longest);
        at = blocks.first + blocks.count;
    }
    longest
}

/// The lowest block from which on so many free blocks lie together.
pub(crate) fn lowest_block(map: &GranuleMap, area: &Run, per_block: u32, count: u32) -> Option<u32>
    requires area { IsArea map.now.states area.now per_block }
    requires some { 0 < count }
    ensures lowest { result ≡ lowest_free_run map.now.states area.now per_block count }
    ensures within { IfSome result (λ k. k + count ≤ block_count area.now per_block) }
{
    let _granules = map.len();
    let mut at = 0;
    while let Some(blocks) = next_blocks(map, area, per_block, at) {
        if count <= blocks.count {
            return Some(blocks.first);
        }
        at = blocks.first + blocks.count;
    }
    None
}
