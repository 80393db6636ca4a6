//! The commands of a host: what each replies, changes and tells, from what the device keeps of that host.
//!
//! Each command has a file of its own by the specification's name. `host_messages` says which command a message
//! is; `held_lists` is what the two commands share whose lists may come in several messages. The commands of event logs
//! stand in `device_commands`.
#![tactic(auto)]

mod add_dynamic_capacity_response;
mod get_dynamic_capacity_configuration;
mod get_dynamic_capacity_extent_list;
mod held_lists;
mod host_messages;
mod release_dynamic_capacity;

pub use held_lists::dropped;
pub use host_messages::host_draft;
