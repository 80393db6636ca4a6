//! The control of the device: one command or scrub at a time, from its bytes to its reply and effects.
//!
//! `LiveControl` decides and enters steps and keeps nothing of the past. `Control` has its entries beside it:
//! `Control::prepare` takes all the memory that a step needs and decides it, `Control::apply` enters it and cannot
//! fail. What the device keeps is `device_state::State`. Each command has a file in `host_commands`,
//! in `manager_commands` or, where hosts and the manager both have it, in `device_commands`.
#![tactic(auto)]

mod broken;
mod changing;
mod control;
mod decided;
mod ending;
mod fitting;
mod host_steps;
mod live;
mod live_readers;
mod manager_steps;
mod plan;
mod readers;
mod recording;
mod scrub_steps;

pub use control::Control;
pub use decided::Decided;
pub use device_commands;
pub use device_commands::device_rules;
pub use host_commands;
pub use kept_journal;
pub use live::LiveControl;
pub use manager_commands;
pub use manager_commands::device_state;
pub use plan::Plan;
