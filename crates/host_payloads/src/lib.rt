//! What hosts say to the device and are told by it, byte for byte.
//!
//! A payload is what stands behind the header of a message. `decode` reads the payloads of the six commands of a
//! host, `encode` spells them, and the `write_` functions append the payloads of the answers. All numbers are
//! little-endian. Reserved bytes and bits are free on input and zero on output.
#![tactic(auto)]

mod counted;
mod decoding;
mod encoding;
mod extents;
mod list_reading;
mod list_writing;
mod pages;
mod replies;
mod requests;
mod views;

pub use decoding::decode;
pub use encoding::encode;
pub use event_records::dcd_base::PayloadFault;
pub use extents::{extent_bytes, with_extents};
pub use pages::{ExtentsPage, read_extents, write_extents};
pub use replies::{write_configuration, write_events};
pub use requests::HostRequest;
pub use views::{Counts, RegionView, counts_bytes, region_bytes};
