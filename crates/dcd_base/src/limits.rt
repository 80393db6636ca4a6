//! How much a device keeps at most, and how much one message has (profile).

/// How many extents a host has, accepted and offered together.
pub const EXTENTS: usize = 64;

/// How many extents the list of one command has, over all its messages.
pub const LISTED_EXTENTS: usize = 64;

/// How many tags the extents of a host have, accepted and offered together.
pub const TAGS: u32 = 32;

/// How many records a reply to Get Event Records has.
pub const REPLY_RECORDS: usize = 15;

/// How many extents a reply with accepted extents has.
pub const PAGE_EXTENTS: u32 = 50;

/// How many tags a reply to List Tags has.
pub const PAGE_TAGS: u32 = 84;

/// How many records the log of a host holds.
pub const HOST_RECORDS: u32 = 64;

/// How many records the log of the Fabric Manager holds.
pub const MANAGER_RECORDS: u32 = 128;
