//! 0100h Get Event Records, of a host and of the Fabric Manager (CXL 3.1, 8.2.9.2.2).
//! Row: `no_such_log`, device_rules/specs/EventCommands.antt.
//! Outcome: `events_reply`, device_rules/specs/EventCommands.antt; it changes nothing.
//! Bytes: docs/formats.md, 'Commands of a host', 'Replies to a host'.

ghost use Rattle.device_commands.specs.GetEventRecords.{AnswersEvents};
ghost use Rattle.device_rules.specs.Outcomes.{only};
ghost use Rattle.host_payloads.specs.HostPayloads.{events_payload};
ghost use Rattle.std.specs.Prelude.{◌≡◌, ◌≤◌, IfOk, [], length, nat_lt, take, false};

use crate::draft::Draft;
use cci_codec::dcd_base::limits::REPLY_RECORDS;
use cci_codec::dcd_base::{Bytes, NoMemory, Seq};
use event_log::EventLog;
use event_records::Event;
use extent_list::dcd_codes::{Refusal, Rule};
use host_payloads::write_events;
use std::alloc::Global;

/// How many logs there are; the one with number 4 is that of dynamic capacity, and the others are always empty.
pub(crate) const LOGS: u8 = 5;

/// The number of the log of dynamic capacity (CXL 3.1, 8.2.9.2.2).
pub(crate) const DYNAMIC_CAPACITY: u8 = 4;

/// The oldest records of the log, 15 at most; nothing of a log whose number is below that of dynamic capacity.
/// `NoSuchLog` comes exactly where the number is 5 or more.
pub fn get_events(alloc: Global, number: u8, log: &EventLog) -> Result<Draft, Refusal>
    ensures { AnswersEvents number log.now result }
{
    if number >= LOGS {
        return Err(Refusal::Broken(Rule::NoSuchLog(number)));
    }
    let payload = if number == DYNAMIC_CAPACITY {
        oldest_events(alloc, log)?
    } else {
        no_events(alloc)?
    };
    Ok(Draft::only(alloc, payload))
}

/// The payload of an empty log.
fn no_events(alloc: Global) -> Result<Bytes, NoMemory>
    ensures { IfOk result (λ payload. payload ≡ events_payload 0 false []) }
{
    let mut payload = Bytes::new(alloc);
    write_events(0, false, &[], &mut payload)?;
    Ok(payload)
}

/// The payload of the oldest records.
fn oldest_events(alloc: Global, log: &EventLog) -> Result<Bytes, NoMemory>
    ensures { IfOk result (λ payload. payload ≡ events_payload log.now.missed (nat_lt 15 (length log.now.records)) (take 15 log.now.records)) }
{
    let events = oldest(alloc, log)?;
    let mut payload = Bytes::new(alloc);
    let more = log.len() as usize > REPLY_RECORDS;
    write_events(log.missed(), more, events.as_slice(), &mut payload)?;
    Ok(payload)
}

/// The oldest records, 15 at most.
fn oldest(alloc: Global, log: &EventLog) -> Result<Seq<Event>, NoMemory>
    ensures events { IfOk result (λ events. events ≡ take 15 log.now.records) }
    ensures few { IfOk result (λ events. length events ≤ 15) }
{
    let mut events = Seq::new(alloc);
    for index in 0..log.len().min(REPLY_RECORDS as u32) {
        events.push(log.at(index))?;
    }
    Ok(events)
}
