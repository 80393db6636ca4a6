//! Where a host's addresses lie in the device.
//!
//! A device physical address (DPA) of a host has one place: a region, a granule of the device, and a 64-bit
//! word of that granule. Two hosts' addresses meet in a granule only where the configuration says so: at the
//! same offset in the same region.
#![tactic(auto)]

pub use region_config;

mod bounds;
mod places;
mod runs;

pub use bounds::{Bounds, bounds_of};
pub use places::{dpa_of, has_address, locate, region_at};
pub use runs::{extent_of, run_of};
