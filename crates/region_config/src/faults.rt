//! Why a configuration or a block size is refused.

/// Why a configuration is refused. The faults are tried in this order, each over all hosts and regions in
/// rising order, host by host.
#[derive(Clone, Copy, Debug, PartialEq, Eq)]
pub enum ConfigFault {
    /// Hosts are not 1 to 16, or regions not 1 to 8.
    Count,
    /// The base is no multiple of 256 MiB, or the decode range ends above 2^52.
    Base { host: u8, region: u8 },
    /// No size is supported, or one that is not 2^6 to 2^40, or the block is none of the supported sizes.
    BlockSize(u8),
    /// The length is 0, no multiple of the largest supported size, or above the decode length.
    Length(u8),
    /// The base is below the end of the decode range of the region before it.
    Overlap { host: u8, region: u8 },
    /// There are so many granules, above 4,096.
    TooManyGranules(u64),
    /// Memory was wanted and not to be had.
    NoMemory,
}

/// Why a new block size is refused, in the order in which the faults are tried.
#[derive(Clone, Copy, Debug, PartialEq, Eq)]
pub enum BlockFault {
    /// The region does not support this size, in bytes.
    NotSupportedSize(u64),
    /// The region sanitizes on release and the request says that it does not, or the other way round.
    SanitizeDiffers,
    /// So many granules of the region are in use.
    InUse(u32),
}
