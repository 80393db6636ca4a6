//! Events to records.

ghost use Rattle.event_records.specs.Records.{end_bytes, head_bytes, record_bytes, record_uuid};
ghost use Rattle.std.specs.Prelude.{◌≡◌, ◌+◌, ◌++◌, ◌≤◌, drop, length, take};

use crate::events::Event;
use crate::identifier::identifier;
use crate::kinds::kind_number;
use dcd_base::{put_byte, put_bytes, put_extent, put_flag, put_u8, put_u16, put_u32, put_zeros};

/// The identifier, bytes 0 to 15.
fn put_identifier(out: &mut [u8])
    requires { 16 ≤ length out.old }
    ensures { take 16 out.new ≡ record_uuid }
{
    put_bytes(out, 0, &identifier().into_bytes());
}

/// Bytes 0 to 55 of a record: the identifier; length, flags, handle and the other fields of the header that all
/// event records have; kind, host, region and More.
#[tactic(auto, unfolding(crate::specs::Records::head_bytes))]
fn put_head(out: &mut [u8], event: &Event)
    requires { 56 ≤ length out.old }
    ensures { take 56 out.new ≡ head_bytes event.now }
{
    put_identifier(out);
    put_u8(out, 16, 128);
    put_zeros::<3>(out, 17);
    put_u16(out, 20, event.handle);
    put_zeros::<26>(out, 22);
    put_u8(out, 48, kind_number(event.kind));
    put_byte(out, 49, 3);
    put_u16(out, 50, event.host);
    put_u8(out, 52, event.region);
    put_flag(out, 53, event.more);
    put_zeros::<2>(out, 54);
}

/// Bytes 96 to 127 of a record.
#[tactic(auto, unfolding(crate::specs::Records::end_bytes))]
fn put_end(out: &mut [u8], event: &Event)
    requires { 128 ≤ length out.old }
    ensures { take 128 out.new ≡ take 96 out.old ++ end_bytes event.now }
{
    put_zeros::<24>(out, 96);
    put_u32(out, 120, event.extents_available);
    put_u32(out, 124, event.tags_available);
}

/// Fills the 128 bytes of a record.
fn fill_record(out: &mut [u8], event: &Event)
    requires { length out.old ≡ 128 }
    ensures { out.new ≡ record_bytes event.now }
{
    put_head(out, event);
    put_extent(out, 56, &event.extent);
    put_end(out, event);
}

/// Puts an event's record of 128 bytes at a place, and leaves what stands before and behind it.
pub fn put_record(out: &mut [u8], at: usize, event: &Event)
    requires { at + 128 ≤ length out.old }
    ensures put { take (at + 128) out.new ≡ take at out.old ++ record_bytes event.now }
    ensures rest { drop (at + 128) out.new ≡ drop (at + 128) out.old }
{
    let (_, rest) = out.split_at_mut(at);
    let (front, _) = rest.split_at_mut(128);
    fill_record(front, event);
}

/// The record of an event (CXL 3.1, 8.2.9.2.1.6): each field as it stands, the length 128, validity flags 3, and 0
/// in all other bytes.
pub fn encode(event: &Event) -> [u8; 128]
    ensures { result ≡ record_bytes event.now }
{
    let mut record = [0; 128];
    fill_record(&mut record, event);
    record
}
