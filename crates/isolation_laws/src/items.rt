//! What a host does and what is delivered to it, and what it is told.

use dcd_base::{Extents, RegionId, Seq};
use journal_core::{Act, Reply};

/// A step of one host, or something that others bring it.
#[derive(Debug, Drop)]
pub enum Item {
    /// An act of the host.
    Own(Act),
    /// An offer of these extents.
    Given(Extents),
    /// A request to give these extents back.
    Asked(Extents),
    /// These extents are taken by force.
    Taken(Extents),
    /// A region has blocks of another size, in bytes.
    Block(RegionId, u64),
}

/// Items in the order in which they happened.
pub type Items = Seq<Item>;

/// What the device with one host alone replies to an act.
#[derive(Debug, Drop)]
pub enum SoloReply {
    Said(Reply),
    /// Nothing is said of a granted load in a region that hosts can share or that is not sanitized, and of a scrub.
    Unsaid,
}

/// Replies in the order of the acts.
pub type SoloReplies = Seq<SoloReply>;
