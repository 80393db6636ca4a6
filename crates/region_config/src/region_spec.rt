//! A region as it is configured.

/// A region of dynamic capacity (CXL 3.1, 8.2.9.9.9.1): how far its addresses reach, what of them can be
/// given to hosts, and in which pieces.
#[derive(Clone, Copy, Debug, PartialEq, Eq)]
pub struct RegionSpec {
    /// The decode length, in units of 256 MiB.
    pub decode_units: u64,
    /// The length in bytes, at most the decode length.
    pub length: u64,
    /// The block size in bytes, one of the supported sizes. Extents are made of blocks.
    pub block: u64,
    /// Bit n says that blocks of 2^n bytes are supported; n is 6 to 40. The smallest is the granule.
    pub sizes: u64,
    /// The handle of the region's entry in the CDAT table.
    pub handle: u32,
    /// Whether granules that a host gave back are dirty until they are zeroed.
    pub sanitize: bool,
    /// Whether several hosts may hold one granule.
    pub shareable: bool,
}
