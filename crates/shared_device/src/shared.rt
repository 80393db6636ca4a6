//! The shared device.

ghost use Rattle.block_shard.specs.ruled_cells.specs.Calls.{opened_with, row_of};
ghost use Rattle.std.specs.Prelude.{◌≡◌};

use crate::cells::{ControlCell, ShardCell};
use block_shard::ruled_cells::Cells;
use region_config::Config;
use std::alloc::Global;

/// A device that several threads use at once. Each load and store takes the turn of one shard, and each command or scrub
/// that of the control and of the shards that it changes.
#[derive(Drop)]
pub struct Shared {
    pub(crate) alloc: Global,
    pub(crate) cells: Cells<ControlCell, ShardCell>,
    /// The configuration that it was made with, for places.
    pub(crate) config: Config,
    ghost sixteen: { row_of cells ≡ 16 },
    ghost config_is: { (opened_with cells).config ≡ config },
}
