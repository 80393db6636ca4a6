//! The payloads of the replies to a host.

ghost use Rattle.event_records.specs.dcd_base.specs.Words.{flag_of};
ghost use Rattle.event_records.specs.Records.{record_bytes};
ghost use Rattle.host_payloads.specs.HostPayloads.{configuration_head, configuration_payload, events_head, events_payload, region_bytes};
ghost use Rattle.std.specs.Prelude.{◌≡◌, ◌==◌, ◌+◌, ◌*◌, ◌++◌, ◌≤◌, IfOk, OnErr, OnOk, flat_map, length, not, take};

use crate::views::{Counts, RegionView, put_counts, put_region};
use event_records::dcd_base::{Bytes, NoMemory, put_byte, put_u8, put_u16, put_zeros, with_zeros};
use event_records::{Event, put_record};

/// The flags before the records: bit 0 where records were missed, bit 1 where more records follow later.
fn event_flags(missed: u16, more: bool) -> u8
    ensures { result ≡ flag_of (not (missed == 0)) + 2 * flag_of more }
{
    u8::from(missed != 0) + 2 * u8::from(more)
}

/// Puts the 32 bytes before the records at the start: flags, the missed records, the times of the first and the last
/// of them, how many records follow.
#[tactic(auto, unfolding(crate::specs::HostPayloads::events_head))]
fn put_events_head(out: &mut [u8], missed: u16, more: bool, count: u16)
    requires { 32 ≤ length out.old }
    ensures { take 32 out.new ≡ events_head missed more count }
{
    put_byte(out, 0, event_flags(missed, more));
    put_zeros::<1>(out, 1);
    put_u16(out, 2, missed);
    put_zeros::<16>(out, 4);
    put_u16(out, 20, count);
    put_zeros::<10>(out, 22);
}

/// Puts records at a place, 128 bytes each, and leaves what stands before them.
fn put_records(out: &mut [u8], at: usize, events: &[Event])
    requires { at + 128 * length events.now ≤ length out.old }
    ensures { take (at + 128 * length events.now) out.new ≡ take at out.old ++ flat_map record_bytes events.now }
{
    let mut place = at;
    for event in events {
        put_record(out, place, event);
        place += 128;
    }
}

/// Fills the payload of the reply to Get Event Records.
fn fill_events(out: &mut [u8], missed: u16, more: bool, events: &[Event])
    requires few { length events.now ≤ 15 }
    requires whole { length out.old ≡ 32 + 128 * length events.now }
    ensures { out.new ≡ events_payload missed more events.now }
{
    put_events_head(out, missed, more, events.len() as u16);
    put_records(out, 32, events);
}

/// Appends the payload of the reply to Get Event Records (CXL 3.1, 8.2.9.2.2): a flag where records were missed,
/// a flag where the log has more than follow, how many were missed, and the records, at most 15.
///
/// The times of the first and the last missed record are 0 (profile). Without memory `out` is as it was.
pub fn write_events(
    missed: u16,
    more: bool,
    events: &[Event],
    out: &mut Bytes,
) -> Result<(), NoMemory>
    requires { length events.now ≤ 15 }
    ensures appended { OnOk result (out.new ≡ out.old ++ events_payload missed more events.now) }
    ensures kept { OnErr result (out.new ≡ out.old) }
{
    let at = out.len();
    let mut bytes = with_zeros(out, 32 + 128 * events.len())?;
    let (_, rest) = bytes.split_at_mut(at);
    fill_events(rest, missed, more, events);
    *out = Bytes::from_vec(out.allocator(), bytes);
    Ok(())
}

/// Puts the eight bytes before the regions at the start.
#[tactic(auto, unfolding(crate::specs::HostPayloads::configuration_head))]
fn put_configuration_head(out: &mut [u8], total: u8, returned: u8)
    requires { 8 ≤ length out.old }
    ensures { take 8 out.new ≡ configuration_head total returned }
{
    put_u8(out, 0, total);
    put_u8(out, 1, returned);
    put_zeros::<6>(out, 2);
}

/// Puts regions at a place, 40 bytes each, and leaves what stands before them.
fn put_regions(out: &mut [u8], at: usize, regions: &[RegionView])
    requires { at + 40 * length regions.now ≤ length out.old }
    ensures { take (at + 40 * length regions.now) out.new ≡ take at out.old ++ flat_map region_bytes regions.now }
{
    let mut place = at;
    for region in regions {
        put_region(out, place, region);
        place += 40;
    }
}

/// Fills the payload of the reply to Get Dynamic Capacity Configuration.
fn fill_configuration(out: &mut [u8], total: u8, regions: &[RegionView], counts: &Counts)
    requires few { length regions.now ≤ 8 }
    requires whole { length out.old ≡ 24 + 40 * length regions.now }
    ensures { out.new ≡ configuration_payload total regions.now counts.now }
{
    put_configuration_head(out, total, regions.len() as u8);
    put_regions(out, 8, regions);
    put_counts(out, 8 + 40 * regions.len(), counts);
}

/// Appends the payload of the reply to Get Dynamic Capacity Configuration: how many regions the device has, the
/// regions asked for, at most 8, and what the host may have (CXL 3.1, 8.2.9.9.9.1). Without memory `out` is as it
/// was.
pub fn write_configuration(
    total: u8,
    regions: &[RegionView],
    counts: &Counts,
    out: &mut Bytes,
) -> Result<(), NoMemory>
    requires { length regions.now ≤ 8 }
    ensures appended { OnOk result (out.new ≡ out.old ++ configuration_payload total regions.now counts.now) }
    ensures kept { OnErr result (out.new ≡ out.old) }
{
    let at = out.len();
    let mut bytes = with_zeros(out, 24 + 40 * regions.len())?;
    let (_, rest) = bytes.split_at_mut(at);
    fill_configuration(rest, total, regions, counts);
    *out = Bytes::from_vec(out.allocator(), bytes);
    Ok(())
}
