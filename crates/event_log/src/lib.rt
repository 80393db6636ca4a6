//! An event log of a host or of the Fabric Manager: records in the order in which they came, each under a handle.
//!
//! A log has a fixed number of places, which it takes from memory once. Contracts see it as a record of its
//! capacity, its records from the oldest on, the handle of the next record and the count of those that it missed.
#![tactic(auto)]

mod faults;
mod laws;
mod logs;

pub use faults::{ClearFault, LogFull};
pub use laws::law_history;
pub use logs::{EventLog, handle_after};
