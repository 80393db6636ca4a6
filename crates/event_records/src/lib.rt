//! Event records: what the device tells a host and the Fabric Manager about capacity, in 128 bytes each.
#![tactic(auto)]

pub use dcd_base;

mod events;
mod faults;
mod identifier;
mod kinds;
mod laws;
mod reading;
mod writing;

pub use events::{Event, EventKind};
pub use faults::RecordFault;
pub use laws::{decoded_again, law_event_is_spelled, law_spelling_reads};
pub use reading::decode;
pub use writing::{encode, put_record};
