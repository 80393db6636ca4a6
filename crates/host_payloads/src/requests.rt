//! The commands of a host.

use event_records::dcd_base::{Extents, ShortList};

/// What a host asks of the device, the payload of its message.
#[derive(Debug, Drop)]
pub enum HostRequest {
    /// Get Event Records, 0100h (CXL 3.1, 8.2.9.2.2).
    GetEvents {
        log: u8,
    },
    /// Clear Event Records, 0101h (CXL 3.1, 8.2.9.2.3): the records of the handles, or all of the log.
    ClearEvents {
        log: u8,
        all: bool,
        handles: ShortList<u16>,
    },
    /// Get Dynamic Capacity Configuration, 4800h (CXL 3.1, 8.2.9.9.9.1): at most `count` regions from `first` on.
    GetConfiguration {
        count: u8,
        first: u8,
    },
    /// Get Dynamic Capacity Extent List, 4801h (CXL 3.1, 8.2.9.9.9.2): at most `count` extents from `first` on.
    GetExtents {
        count: u32,
        first: u32,
    },
    /// Add Dynamic Capacity Response, 4802h (CXL 3.1, 8.2.9.9.9.3): what the host takes of an offer. `more` says
    /// that a further message goes on with the list. The extents have neither a tag nor a sequence number.
    AddResponse {
        more: bool,
        extents: Extents,
    },
    /// Release Dynamic Capacity, 4803h (CXL 3.1, 8.2.9.9.9.4): what the host gives back, listed likewise.
    GiveBack {
        more: bool,
        extents: Extents,
    },
}
