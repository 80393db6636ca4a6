//! Replies to the Fabric Manager's messages to the tunnel.

use cci_codec::Response;
use dcd_base::Seq;

/// The reply to a message to the tunnel.
#[derive(Debug, Drop)]
pub struct Replied {
    /// The number of its line, from 1.
    pub line: u32,
    pub response: Response,
}

/// The replies to all messages to the tunnel, in the order of their lines.
pub type Replies = Seq<Replied>;
