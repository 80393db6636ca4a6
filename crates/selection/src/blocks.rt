//! The free blocks of an area, as the map of states finds them.

ghost use Rattle.granule_map.specs.Blocks.{block_count, run_of_blocks};
ghost use Rattle.granule_map.specs.StateLists.{is_free_at};
ghost use Rattle.std.specs.List.{list_all, range_with_len};
ghost use Rattle.std.specs.Prelude.{◌≡◌, ◌+◌, ◌^◌, ◌<◌, ◌≤◌, length};

use extent_list::dcd_codes::dcd_base::{Granule, Run};
use granule_map::GranuleMap;

/// Whether so many granules from the first on are free.
pub(crate) fn are_free(map: &GranuleMap, first: u32, count: u32) -> bool
    requires { first + count ≤ length map.now.states }
    ensures { result ≡ list_all (is_free_at map.now.states) (range_with_len first count) }
{
    map.are_free(first, count)
}

/// Blocks of the area, by the first one and their number, as a run of granules.
pub(crate) fn run_of_blocks(area: &Run, per_block: u32, first: u32, count: u32) -> Run
    requires some { 0 < per_block }
    requires within { first + count ≤ block_count area.now per_block }
    requires fits { area.now.first + area.now.count < 2 ^ 32 }
    ensures { result ≡ run_of_blocks area.now per_block count first }
{
    Run {
        first: Granule(area.first.0 + first * per_block),
        count: count * per_block,
    }
}
