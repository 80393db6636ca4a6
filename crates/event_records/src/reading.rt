//! Records to events.

ghost use Rattle.event_records.specs.Records.{DecodesRecord, ReadsRecord};
ghost use Rattle.event_records.specs.declared.events.Event.{Event};
ghost use Rattle.std.specs.Prelude.{◌≡◌, IfOk, Ok};

use crate::events::Event;
use crate::faults::RecordFault;
use crate::identifier::is_identifier;
use crate::kinds::kind_of;
use dcd_base::{Extent, tag_at, u16_at, u32_at, u64_at};

/// Reads an event from a Dynamic Capacity event record (CXL 3.1, 8.2.9.2.1.6).
///
/// Each fault comes exactly in its place. Bytes 17 to 19, 22 to 47, 49, 54, 55 and 90 to 119 and bits 7:1 of byte
/// 53 are ignored.
pub fn decode(bytes: &[u8; 128]) -> Result<Event, RecordFault>
    ensures cases { DecodesRecord bytes.now result }
    ensures reads { IfOk result (λ event. ReadsRecord bytes.now event) }
    ensures only { (event : Event) → ReadsRecord bytes.now event → result ≡ Ok event }
{
    let (front, _) = bytes.split_at(16);
    if !is_identifier(front) {
        return Err(RecordFault::OtherUuid);
    }
    if bytes[16] != 128 {
        return Err(RecordFault::OtherLength(bytes[16]));
    }
    let Some(kind) = kind_of(bytes[48]) else {
        return Err(RecordFault::UnknownKind(bytes[48]));
    };
    let extent = Extent {
        start: u64_at(bytes, 56),
        length: u64_at(bytes, 64),
        tag: tag_at(bytes, 72),
        sequence: u16_at(bytes, 88),
    };
    Ok(Event {
        handle: u16_at(bytes, 20),
        kind,
        host: u16_at(bytes, 50),
        region: bytes[52],
        more: bytes[53] & 1 == 1,
        extent,
        extents_available: u32_at(bytes, 120),
        tags_available: u32_at(bytes, 124),
    })
}
