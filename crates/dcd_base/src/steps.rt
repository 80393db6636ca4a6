//! Who acts on the device, where records go and when an entry happened.

use crate::ids::HostId;

/// Who takes a step.
#[derive(Clone, Copy, Debug, PartialEq, Eq)]
pub enum Actor {
    Host(HostId),
    /// The Fabric Manager.
    Manager,
    Sanitizer,
}

/// An event log: one for each host, and the Fabric Manager's.
#[derive(Clone, Copy, Debug, PartialEq, Eq)]
pub enum LogId {
    Host(HostId),
    Manager,
}

/// When an entry happened: how many commands and scrubs there were by then, and a count of the accesses
/// after the last of them. A command or scrub has its own number and the count 0.
#[derive(Clone, Copy, Debug, PartialEq, Eq)]
pub struct Stamp {
    pub number: u64,
    pub count: u64,
}
