//! What can change of a live tag.

use dcd_base::HostId;

/// A change of one entry.
#[derive(Clone, Copy, Debug, PartialEq, Eq)]
pub(crate) enum Change {
    /// The host is offered the tag.
    Offer(HostId),
    /// The host answered its offer, and holds the tag where it accepted.
    Settle(HostId, bool),
    /// The host no longer holds the tag.
    Leave(HostId),
    /// Whether the host holds the tag, and whether it is offered it.
    Host(HostId, bool, bool),
    /// Whether the Fabric Manager has a reference.
    Refer(bool),
    /// The granules are dirty once the tag ends.
    Soil,
}
