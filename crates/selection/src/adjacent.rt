//! The policy Contiguous: free blocks that lie together.

ghost use Rattle.granule_map.specs.Blocks.{IsArea, longest_free_run};
ghost use Rattle.granule_map.specs.StateLists.{is_free_at};
ghost use Rattle.selection.specs.Picks.{PicksAdjacent};
ghost use Rattle.selection.specs.Selections.{AreBetween, are_free};
ghost use Rattle.std.specs.Prelude.{◌≡◌, ◌+◌, ◌<◌, IfOk, IsTrue, length};

use extent_list::dcd_codes::dcd_base::{Run, Runs};
use extent_list::dcd_codes::{Refusal, Rule};
use granule_map::GranuleMap;

/// The lowest free blocks of the area that lie together, so many, as one run of granules.
///
/// The area is made of blocks of `per_block` granules from its first granule on, and a block is free where all
/// its granules are. `TooFewFree` comes exactly where no so many free blocks lie together, with the number asked
/// for and the most that do. `NoMemory` may come in place of any answer (profile).
///
/// The run is put in the memory of `room`, whatever it holds, which is let go where it is refused.
pub fn contiguous(
    map: &GranuleMap,
    area: Run,
    per_block: u32,
    blocks: u64,
    mut room: Runs,
) -> Result<Runs, Refusal>
    requires area { IsArea map.now.states area per_block }
    requires some { 0 < blocks }
    ensures answer { PicksAdjacent map.now.states area per_block blocks result }
    ensures one { IfOk result (λ runs. length runs ≡ 1) }
    ensures within { IfOk result (λ runs. AreBetween area.first (area.first + area.count) runs) }
    ensures are_free { IfOk result (λ runs. IsTrue (are_free (is_free_at map.now.states) runs)) }
{
    let have = longest(map, &area, per_block);
    if u64::from(have) < blocks {
        return Err(Refusal::Broken(Rule::TooFewFree {
            need: blocks,
            have: u64::from(have),
        }));
    }
    room.clear();
    match map.lowest_run(area, per_block, blocks as u32) {
        Some(run) => {
            room.push(run)?;
            Ok(room)
        }
        None => Ok(room),
    }
}

/// The most free blocks of the area that lie together.
fn longest(map: &GranuleMap, area: &Run, per_block: u32) -> u32
    requires { IsArea map.now.states area.now per_block }
    ensures { result ≡ longest_free_run map.now.states area.now per_block }
{
    map.longest(*area, per_block)
}
