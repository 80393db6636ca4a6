//! The commands of the Fabric Manager and the scrub: what each replies, changes and tells, from what the device keeps.
//!
//! Each command has a file of its own by the specification's name. `manager_messages` says which command a
//! message is; `choosing` which extents an offer has; `full_logs` whether
//! a log has room for the records. The commands of event logs stand in `device_commands`.
#![tactic(auto)]

mod choosing;
mod dynamic_capacity_add_reference;
mod dynamic_capacity_list_tags;
mod dynamic_capacity_remove_reference;
mod full_logs;
mod get_dc_region_extent_lists;
mod get_dcd_info;
mod get_host_dc_region_configuration;
mod initiate_dynamic_capacity_add;
mod initiate_dynamic_capacity_release;
mod manager_messages;
mod scrub;
mod set_dc_region_configuration;

pub use device_state;
pub use manager_messages::manager_draft;
pub use scrub::{Zeroed, zero_dirty};
