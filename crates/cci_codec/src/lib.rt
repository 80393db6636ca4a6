//! The form of a message between a host or the Fabric Manager and the device: a header of 12 bytes and a payload.
#![tactic(auto)]

pub use dcd_base;

mod counted;
mod faults;
mod headers;
mod held;
mod laws;
mod messages;
mod payloads;
mod requests;
mod responses;

pub use faults::MessageFault;
pub use laws::{law_request_is_spelled, law_spelling_reads};
pub use messages::{Request, Response};
pub use payloads::Payload;
pub use requests::{decode, encode_request};
pub use responses::response_head;
