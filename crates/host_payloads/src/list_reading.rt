//! Lists of extents without tags.

ghost use Rattle.event_records.specs.dcd_base.specs.Layouts.{pieces};
ghost use Rattle.host_payloads.specs.HostPayloads.{listed_extent};
ghost use Rattle.std.specs.Prelude.{◌≡◌, ◌*◌, ◌≤◌, IfOk, length, map};

use event_records::dcd_base::{Extent, Extents, NoMemory, no_tag, u64_at};
use std::alloc::Global;

/// The extent that 24 bytes list.
fn listed_extent(bytes: &[u8]) -> Extent
    requires { 24 ≤ length bytes.now }
    ensures { result ≡ listed_extent bytes.now }
{
    Extent {
        start: u64_at(bytes, 0),
        length: u64_at(bytes, 8),
        tag: no_tag(),
        sequence: 0,
    }
}

/// So many extents without tags, of 24 bytes each.
pub fn listed_of(alloc: Global, count: usize, bytes: &[u8]) -> Result<Extents, NoMemory>
    requires { 24 * count ≤ length bytes.now }
    ensures { IfOk result (λ extents. extents ≡ map listed_extent (pieces 24 count bytes.now)) }
{
    let mut extents = Extents::with_capacity(alloc, count)?;
    let mut rest = bytes;
    for _ in 0..count {
        let (piece, after) = rest.split_at(24);
        extents.push(listed_extent(piece))?;
        rest = after;
    }
    Ok(extents)
}
