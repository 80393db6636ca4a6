//! The commands of the Fabric Manager.

use dcd_base::{Extents, ShortList, Tag};

/// What the Fabric Manager asks of the device, the payload of its message.
///
/// Each field is part of the request as it stands in the payload, also where a policy or a flag ignores it.
#[derive(Debug, Drop)]
pub enum FmRequest {
    /// Get Event Records, 0100h (CXL 3.1, 8.2.9.2.2), of the manager's log.
    GetEvents {
        log: u8,
    },
    /// Clear Event Records, 0101h (CXL 3.1, 8.2.9.2.3): the records of the handles, or all of the log.
    ClearEvents {
        log: u8,
        all: bool,
        handles: ShortList<u16>,
    },
    /// Get DCD Info, 5600h (profile).
    GetInfo,
    /// Get Host DC Region Configuration, 5601h (profile): at most `count` regions of the host from `first` on.
    GetRegions {
        host: u16,
        count: u8,
        first: u8,
    },
    /// Set DC Region Configuration, 5602h (profile): the block size in bytes, and whether the region sanitizes.
    SetRegion {
        region: u8,
        sanitize: bool,
        block: u64,
    },
    /// Get DC Region Extent Lists, 5603h (profile): at most `count` extents of the host from `first` on.
    GetExtentLists {
        host: u16,
        count: u32,
        first: u32,
    },
    /// Initiate Dynamic Capacity Add, 5604h (profile). Policies: 0 Free, 1 Contiguous, 2 Prescriptive, 3 Enable
    /// Shared Access. The length is in bytes.
    Add {
        host: u16,
        policy: u8,
        region: u8,
        length: u64,
        tag: Tag,
        extents: Extents,
    },
    /// Initiate Dynamic Capacity Release, 5605h (profile). Flags: bits 3:0 policy, 0 by tag, 1 Prescriptive; bit 4
    /// forced; the others as they stand.
    Remove {
        host: u16,
        flags: u8,
        region: u8,
        length: u64,
        tag: Tag,
        extents: Extents,
    },
    /// Add Reference, 5606h (profile).
    AddReference {
        tag: Tag,
    },
    /// Remove Reference, 5607h (profile).
    RemoveReference {
        tag: Tag,
    },
    /// List Tags, 5608h (profile): at most `count` live shareable tags from `first` on.
    ListTags {
        first: u32,
        count: u32,
    },
}
