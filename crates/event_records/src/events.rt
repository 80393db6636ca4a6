//! Events and their kinds.

use dcd_base::Extent;

/// What happened to the capacity of a host (CXL 3.1, 8.2.9.2.1.6, Dynamic Capacity event type).
#[derive(Clone, Copy, Debug, PartialEq, Eq)]
pub enum EventKind {
    /// 0: an extent is offered to the host.
    Add,
    /// 1: the host is asked to give an extent back.
    Release,
    /// 2: an extent was taken from the host.
    Forced,
    /// 3: the block size of a region was set.
    RegionUpdated,
    /// 4, in the manager's log: the host answered an offer.
    AddResponse,
    /// 5, in the manager's log: the host gave an extent back.
    Released,
}

/// The fields of a Dynamic Capacity event record (CXL 3.1, 8.2.9.2.1.6) that the device varies.
#[derive(Clone, Copy, Debug, PartialEq, Eq)]
pub struct Event {
    /// The record's handle in its log; the device counts from 1.
    pub handle: u16,
    pub kind: EventKind,
    /// The host whose capacity it is about.
    pub host: u16,
    /// The updated region of a `RegionUpdated`; the device writes 0 in the other kinds.
    pub region: u8,
    /// Whether a further record of the same command follows in the log.
    pub more: bool,
    /// In the host's addresses; the device writes zeros in a `RegionUpdated`.
    pub extent: Extent,
    /// How many more extents the host may have.
    pub extents_available: u32,
    /// How many more tags the host may have.
    pub tags_available: u32,
}
