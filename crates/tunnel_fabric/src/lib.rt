//! Several devices behind a tunnel: the Fabric Manager reaches each by its number.
//!
//! A fabric has the configurations of its devices and lines, each an act on one of the devices or a message to the tunnel.
//! `read_fabric` reads its bytes or answers the first fault with its place. `run_lines` runs the lines, each on the device that
//! it is for, and answers the messages to the tunnel. `run_fabric` does so from bytes to bytes.
#![tactic(auto)]

mod devices;
mod fabric_lines;
mod fabric_scripts;
mod fabrics;
mod faults;
mod laws;
mod line_bytes;
mod opening;
mod printing;
mod program;
mod reading;
mod refusals;
mod replies;
mod replying;
mod rules;
mod running;
mod status;
mod stepping;
mod texts;

pub use fabric_lines::{FabricLine, FabricLines};
pub use fabric_scripts::{Configs, FabricScript};
pub use fabrics::Fabric;
pub use faults::FabricFault;
pub use laws::law_devices;
pub use program::run_fabric;
pub use reading::read_fabric;
pub use replies::{Replied, Replies};
pub use rules::{TunnelRule, tunnel_code};
pub use running::run_lines;
pub use status::FabricStatus;
