//! Which configurations of a Dynamic Capacity Device there are, and how their granules are numbered.
//!
//! A `Config` says how many hosts there are, what the regions are, and where each host's regions begin.
//! `Config::new` refuses with the first of six faults, in a fixed order; what the faults exclude holds of
//! every `Config` from then on.
#![tactic(auto)]

pub use dcd_base;

mod configuration;
mod faults;
mod first_fault;
mod layout;
mod readers;
mod region_spec;
mod sizes;

pub use configuration::Config;
pub use faults::{BlockFault, ConfigFault};
pub use region_spec::RegionSpec;
