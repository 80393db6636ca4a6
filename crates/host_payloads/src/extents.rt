//! Extents with their tags, 40 bytes each.

ghost use Rattle.event_records.specs.dcd_base.specs.Extents.{FitsExtent, extent_bytes};
ghost use Rattle.std.specs.List.{AllByRecursion};
ghost use Rattle.std.specs.Prelude.{◌≡◌, ◌++◌, IfOk, OnOk, flat_map};

use event_records::dcd_base::{Bytes, Extent, NoMemory, put_extent};

/// An extent's 40 bytes in a reply: start, length, tag, sequence number; the last six are reserved
/// (CXL 3.1, 8.2.9.9.9.2).
pub fn extent_bytes(extent: &Extent) -> [u8; 40]
    ensures bytes { result ≡ extent_bytes extent.now }
    // The numbers and the tag are those of so many bytes.
    ensures fits { FitsExtent extent.now }
{
    let mut bytes = [0; 40];
    put_extent(&mut bytes, 0, extent);
    bytes
}

/// The bytes with extents behind them, 40 bytes each. Without memory the bytes are let go.
pub fn with_extents(bytes: Bytes, extents: &[Extent]) -> Result<Bytes, NoMemory>
    ensures put { IfOk result (λ put. put ≡ bytes ++ flat_map extent_bytes extents.now) }
    ensures fit { OnOk result (AllByRecursion FitsExtent extents.now) }
{
    let mut out = bytes;
    for extent in extents {
        out.extend_from_slice(&extent_bytes(extent))?;
    }
    Ok(out)
}
