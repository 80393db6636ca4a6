//! The granules of a shard, by their numbers in it.

ghost use Rattle.shard_laws.specs.Stripes.{own_below as own_granules};
ghost use Rattle.std.specs.Prelude.{◌≡◌, ◌+◌, ◌/◌, ◌<◌, ◌≤◌, ◌^◌};

use dcd_base::{Granule, Run};

/// The number of a granule in its shard.
pub(crate) fn own_number(granule: Granule) -> Granule
    ensures { result ≡ granule / 16 }
{
    Granule(granule.0 / 16)
}

/// How many granules below a number are of the shard.
pub(crate) fn own_below(index: u32, end: u64) -> u32
    requires index { index < 16 }
    requires end { end < 2 ^ 33 }
    ensures { result ≡ own_granules index end }
{
    ((end + 15 - u64::from(index)) / 16) as u32
}

/// Those granules of the run that are of the shard, by their numbers in it.
pub(crate) fn own_part(index: u32, run: &Run) -> Run
    requires index { index < 16 }
    requires few { run.now.first + run.now.count ≤ 4096 }
    ensures first { result.first ≡ own_granules index run.now.first }
    ensures end { result.first + result.count ≡ own_granules index (run.now.first + run.now.count) }
{
    let first = own_below(index, u64::from(run.first.0));
    let end = own_below(index, u64::from(run.first.0) + u64::from(run.count));
    Run {
        first: Granule(first),
        count: end - first,
    }
}
