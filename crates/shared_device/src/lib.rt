//! The device that several threads use at once.
//!
//! Nothing is promised of waiting. A turn that is given back goes to whoever asks first. So a lane that loads and stores in
//! one shard without a pause can hold up a command that changes that shard, and with it all other commands.
#![tactic(auto)]

mod access;
mod actors;
mod cells;
mod close;
mod command;
mod faults;
mod lending;
mod making;
mod moment;
mod pass;
mod shared;
mod start;
mod target;
mod tries;

pub use block_shard;
pub use block_shard::ruled_cells;
pub use control_core;
pub use control_core::device_rules;
pub use faults::TryFault;
pub use lending::lend_journal;
pub use moment::Moment;
pub use pass::Pass;
pub use shared::Shared;
