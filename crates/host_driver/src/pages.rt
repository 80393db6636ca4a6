//! Pages of event records, read.

ghost use Rattle.event_records.specs.Records.{record_fault};
ghost use Rattle.dcd_base.specs.Layouts.{pieces};
ghost use Rattle.host_driver.specs.Pages.{bad_at, bad_record, event_in, events_in, page_fault, records_length};
ghost use Rattle.host_driver.specs.declared.faults.DriverFault.{DriverFault};
ghost use Rattle.event_records.specs.declared.events.Event.{Event};
ghost use Rattle.std.specs.Prelude.{◌≡◌, ◌≢◌, ◌+◌, ◌*◌, IfErr, IfOk, None, OnOk, Some, length, map};

use crate::faults::DriverFault;
use dcd_base::{Handles, NoMemory, Seq, u16_at};
use event_records::{Event, decode};
use std::alloc::Global;

/// How long a page has to be: 32 bytes and 128 for each record of its count.
fn records_length(payload: &[u8]) -> u64
    ensures { result ≡ records_length payload.now }
{
    if payload.len() < 32 {
        32
    } else {
        32 + 128 * u64::from(u16_at(payload, 20))
    }
}

/// The event of a record, the one of this index in its page.
fn event_at(bytes: &[u8], index: u32) -> Result<Event, DriverFault>
    requires { length bytes.now ≡ 128 }
    ensures found { IfOk result (λ event. event ≡ event_in bytes.now) }
    ensures sound { OnOk result (record_fault bytes.now ≡ None) }
    ensures fault { IfErr result (λ fault. bad_at index (record_fault bytes.now) ≡ Some fault) }
{
    let mut record = [0; 128];
    record.copy_from_slice(bytes);
    match decode(&record) {
        Ok(event) => Ok(event),
        Err(fault) => Err(DriverFault::BadRecord { index, fault }),
    }
}

/// The events of so many records.
fn events_of(alloc: Global, count: u16, bytes: &[u8]) -> Result<Seq<Event>, DriverFault>
    requires { length bytes.now ≡ 128 * count }
    ensures found { IfOk result (λ events. events ≡ map event_in (pieces 128 count bytes.now)) }
    ensures sound { OnOk result (bad_record 0 (pieces 128 count bytes.now) ≡ None) }
    ensures fault { IfErr result (λ fault. fault ≢ DriverFault.NoMemory → bad_record 0 (pieces 128 count bytes.now) ≡ Some fault) }
{
    let mut events = Seq::with_capacity(alloc, usize::from(count))?;
    let mut rest = bytes;
    for index in 0..count {
        let (piece, after) = rest.split_at(128);
        let event = event_at(piece, u32::from(index))?;
        events.push(event)?;
        rest = after;
    }
    Ok(events)
}

/// The events of a page, in order.
pub(crate) fn events_in(alloc: Global, payload: &[u8]) -> Result<Seq<Event>, DriverFault>
    ensures found { IfOk result (λ events. events ≡ events_in payload.now) }
    ensures sound { OnOk result (page_fault payload.now ≡ None) }
    ensures fault { IfErr result (λ fault. fault ≢ DriverFault.NoMemory → page_fault payload.now ≡ Some fault) }
{
    let need = records_length(payload);
    let have = payload.len() as u64;
    if have != need {
        return Err(DriverFault::WrongLength { need, have });
    }
    let (_, rest) = payload.split_at(32);
    events_of(alloc, u16_at(payload, 20), rest)
}

/// The handles of events, in order.
pub(crate) fn handles_of(alloc: Global, events: &[Event]) -> Result<Handles, NoMemory>
    ensures { IfOk result (λ handles. handles ≡ map (λ (e : Event). e.handle) events.now) }
{
    let mut handles = Handles::with_capacity(alloc, events.len())?;
    for event in events {
        handles.push(event.handle)?;
    }
    Ok(handles)
}
