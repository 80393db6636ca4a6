//! What commands say behind their names.

use dcd_base::{Extents, Handles, Tag};

/// A log, whether all of its records are meant, and handles of records.
#[derive(Debug, Drop)]
pub struct Clearing {
    pub log: u8,
    pub all: bool,
    pub handles: Handles,
}

/// How many are wanted, and the index of the first.
#[derive(Clone, Copy, Debug)]
pub struct Page {
    pub first: u32,
    pub count: u32,
}

/// Whether a further message goes on with the list, and extents without tags.
#[derive(Debug, Drop)]
pub struct Listing {
    pub more: bool,
    pub extents: Extents,
}

/// A page of what a host has.
#[derive(Clone, Copy, Debug)]
pub struct HostPage {
    pub host: u16,
    pub page: Page,
}

/// A region, its block size in bytes, and whether it sanitizes.
#[derive(Clone, Copy, Debug)]
pub struct Setting {
    pub region: u8,
    pub block: u64,
    pub sanitize: bool,
}

/// A region of a host.
#[derive(Clone, Copy, Debug)]
pub struct Spot {
    pub host: u16,
    pub region: u8,
}

/// A length in bytes, a tag, and extents without tags.
#[derive(Debug, Drop)]
pub struct Capacity {
    pub length: u64,
    pub tag: Tag,
    pub extents: Extents,
}
