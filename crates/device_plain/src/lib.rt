//! Two devices of one thread: the serial device, one step at a time with the journal of all of them, and the live device, which
//! keeps nothing of its past: each reply is as every journal that leads to it asks for.
//!
//! Beside them `solo_replies` answers what a device replies that has one host alone, which isolation promises that host.
#![tactic(auto)]

mod accesses;
mod acting;
mod alone;
mod bringing;
mod device;
mod faults;
mod laws;
mod lists_alone;
mod live;
mod live_accesses;
mod replying;
mod words_alone;
mod zeroing;

pub use control_core;
pub use control_core::{device_rules, device_state, kept_journal};
pub use device::Device;
pub use faults::StepFault;
pub use isolation_laws;
pub use laws::law_lives;
pub use live::LiveDevice;
pub use live_accesses::{granted, loaded, refused_by, store_at, stored, word_at};
pub use replying::{SoloFault, solo_replies};
pub use zeroing::zero_all;
