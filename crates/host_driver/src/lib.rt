//! A driver for one host of the device: it answers what the host is offered and asked for, and keeps its table of extents.
#![tactic(auto)]

mod asking;
mod driver;
mod driving;
mod due;
mod faults;
mod kept;
mod laws;
mod pages;
mod printed;
mod printing;
mod program;
mod settling;
mod spelling;
mod status;
mod tables;
mod words;

pub use driver::Driver;
pub use driving::drive;
pub use due::Due;
pub use faults::DriverFault;
pub use laws::law_driven;
pub use program::run_driver;
pub use status::DriveStatus;
