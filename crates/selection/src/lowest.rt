//! The policy Free: the lowest free blocks, wherever they lie.

ghost use Rattle.granule_map.specs.Blocks.{IsArea, block_count, free_block_count, is_block_free};
ghost use Rattle.extent_list.specs.dcd_codes.specs.declared.refusals.Refusal.TheVariants.{Broken};
ghost use Rattle.extent_list.specs.dcd_codes.specs.declared.rules.Rule.{Rule};
ghost use Rattle.granule_map.specs.Choices.{lowest_from};
ghost use Rattle.granule_map.specs.StateLists.{is_free_at};
ghost use Rattle.selection.specs.Picks.{PicksLowest};
ghost use Rattle.selection.specs.Selections.{AreApart, AreBetween, NextRun, are_free, free_runs};
ghost use Rattle.std.specs.Prelude.{◌≡◌, ◌+◌, ◌<◌, IfOk, IsTrue, OnOk, [], length};

use crate::blocks::run_of_blocks;
use extent_list::dcd_codes::dcd_base::{NoMemory, Run, Runs};
use extent_list::dcd_codes::{Refusal, Rule};
use granule_map::GranuleMap;

/// The lowest free blocks of the area, so many, adjacent ones joined: runs of granules in rising order.
///
/// The area is made of blocks of `per_block` granules from its first granule on, and a block is free where all
/// its granules are. `TooFewFree` comes exactly where fewer blocks are free than asked for, with both numbers.
/// `NoMemory` may come in place of any answer (profile).
///
/// The runs are put in the memory of `room`, whatever it holds, which is let go where they are refused.
pub fn free(
    map: &GranuleMap,
    area: Run,
    per_block: u32,
    blocks: u64,
    mut room: Runs,
) -> Result<Runs, Refusal>
    requires area { IsArea map.now.states area per_block }
    requires some { 0 < blocks }
    ensures answer { PicksLowest map.now.states area per_block blocks result }
    ensures some { IfOk result (λ runs. 0 < length runs) }
    ensures within { IfOk result (λ runs. AreBetween area.first (area.first + area.count) runs) }
    ensures apart { IfOk result (λ runs. AreApart runs) }
    ensures are_free { IfOk result (λ runs. IsTrue (are_free (is_free_at map.now.states) runs)) }
{
    if blocks > u64::from(area.count / per_block) {
        return Err(too_few(map, &area, per_block, blocks));
    }
    room.clear();
    if find_lowest(map, &area, per_block, blocks as u32, &mut room)? > 0 {
        return Err(too_few(map, &area, per_block, blocks));
    }
    Ok(room)
}

/// The refusal of a request for more blocks than are free.
fn too_few(map: &GranuleMap, area: &Run, per_block: u32, blocks: u64) -> Refusal
    requires { IsArea map.now.states area.now per_block }
    ensures { result ≡ Broken (Rule.TooFewFree blocks (free_block_count map.now.states area.now per_block)) }
{
    Refusal::Broken(Rule::TooFewFree {
        need: blocks,
        have: u64::from(count_free(map, area, per_block)),
    })
}

/// How many blocks of the area are free.
fn count_free(map: &GranuleMap, area: &Run, per_block: u32) -> u32
    requires { IsArea map.now.states area.now per_block }
    ensures { result ≡ free_block_count map.now.states area.now per_block }
{
    map.free_blocks(*area, per_block)
}

/// The runs of the lowest free blocks, so many or all that there are, and how many blocks are wanting.
fn find_lowest(
    map: &GranuleMap,
    area: &Run,
    per_block: u32,
    blocks: u32,
    runs: &mut Runs,
) -> Result<u32, NoMemory>
    requires area { IsArea map.now.states area.now per_block }
    requires empty { runs.old ≡ [] }
    ensures runs { OnOk result (runs.new ≡ free_runs (is_free_at map.now.states) area.now per_block blocks) }
    ensures wanting { IfOk result (λ left.
        left + length (lowest_from (is_block_free map.now.states area.now per_block) (block_count area.now per_block) 0 blocks) ≡ blocks) }
{
    let _granules = map.len();
    let mut at = 0;
    let mut left = blocks;
    while let Some((first, count)) = next_run(map, area, per_block, at, left) {
        runs.push(run_of_blocks(area, per_block, first, count))?;
        at = first + count;
        left -= count;
    }
    Ok(left)
}

/// The lowest run of free blocks from one on, at most so many of them, by its first block and its blocks.
fn next_run(
    map: &GranuleMap,
    area: &Run,
    per_block: u32,
    from: u32,
    most: u32,
) -> Option<(u32, u32)>
    requires area { IsArea map.now.states area.now per_block }
    ensures { NextRun (is_block_free map.now.states area.now per_block) (block_count area.now per_block) from most result }
{
    if most == 0 {
        return None;
    }
    match map.next_free_blocks(*area, per_block, from) {
        None => None,
        Some(blocks) => Some((blocks.first, most.min(blocks.count))),
    }
}
