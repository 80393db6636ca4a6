//! What the Fabric Manager says to the device and is told by it, byte for byte.
//!
//! The two event commands are those of a host. The layouts of the commands 5600h to 5608h, their opcodes and the
//! numbers of their policies are this project's own (profile). `decode` reads the payloads of the eleven commands,
//! `encode` spells them, and the `write_` functions append the payloads of the replies. The replies to 5601h and
//! 5603h are a header of this crate, and then regions and counts, or extents, as hosts are told them. All numbers
//! are little-endian. Reserved bytes and bits are free on input and zero on output.
#![tactic(auto)]

mod counted;
mod decoding;
mod encoding;
mod placing;
mod replies;
mod requests;

pub use dcd_base::PayloadFault;
pub use decoding::decode;
pub use encoding::encode;
pub use replies::{lists_head, regions_head, write_info, write_tags};
pub use requests::FmRequest;
