//! What a driver asks next.

/// Which request is next, or is out.
#[derive(Clone, Copy, Debug, PartialEq, Eq)]
pub enum Due {
    /// A page of the event log: Get Event Records, 0100h.
    Page,
    /// The records of a page are cleared: Clear Event Records, 0101h.
    Clear,
    /// An offer is answered: Add Dynamic Capacity Response, 4802h.
    Response,
    /// A request to release is met: Release Dynamic Capacity, 4803h.
    Release,
}
