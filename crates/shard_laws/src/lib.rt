//! What the shards of a device owe the cells that hold them, and the law of the whole journal.
//!
//! A shard has every sixteenth granule of the device, and the loads and stores there. The commands and scrubs are kept
//! apart, by the control.
#![tactic(auto)]

mod laws;

pub use device_rules;
pub use laws::{law_at_rest, law_changed, law_merged};
pub use ruled_cells;
