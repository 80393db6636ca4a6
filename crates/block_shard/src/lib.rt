//! A shard of the device: who holds every sixteenth granule, its words, and the loads and stores there.
#![tactic(auto)]

mod accesses;
mod changing;
mod numbers;
mod shard;
mod touching;

pub use journal_core;
pub use shard::Shard;
pub use shard_laws;
pub use shard_laws::{device_rules, ruled_cells};
pub use touching::touches;
