//! 0101h Clear Event Records, of a host and of the Fabric Manager (CXL 3.1, 8.2.9.2.3).
//! Row: `clear_rule`, device_rules/specs/EventCommands.antt.
//! Outcome: `clear_outcome`, device_rules/specs/EventCommands.antt; the reply is empty.
//! Bytes: docs/formats.md, 'Commands of a host'.

ghost use Rattle.device_commands.specs.ClearEventRecords.{AnswersClear, changing, clearing_outcome, clearing_rule, empty_rule, listed_outcome};
ghost use Rattle.device_commands.specs.ClearEventRecords.{log_handles_rule, whole_outcome, whole_rule};
ghost use Rattle.extent_list.specs.dcd_codes.specs.Rules.{ByRow};
ghost use Rattle.device_rules.specs.EventCommands.{cleared, rule_of};
ghost use Rattle.device_commands.specs.Drafts.{IsOutcome};
ghost use Rattle.journal_core.specs.declared.outcome.Effect.{Effect};
ghost use Rattle.std.specs.Prelude.{◌≡◌, ◌++◌, ◌≤◌, [], None, OnOk, length};

use crate::draft::Draft;
use crate::get_event_records::{DYNAMIC_CAPACITY, LOGS};
use crate::putting::append_effect;
use cci_codec::dcd_base::{LogId, NoMemory, ShortList};
use event_log::{ClearFault, EventLog};
use extent_list::dcd_codes::{Refusal, Rule};
use journal_core::{Effect, Effects};
use std::alloc::Global;

/// Takes the records of these handles out of the log, or all of them.
///
/// The first broken rule comes: `NoSuchLog` where the number is 5 or more; where all are to go, `NotOverflowed` where
/// none was missed; else `UnknownHandle` or `OlderLeft` for the first handle that is not the record's in its place.
#[inline(never)]
pub fn clear_events(
    alloc: Global,
    id: LogId,
    number: u8,
    log: &EventLog,
    all: bool,
    handles: &ShortList<u16>,
) -> Result<Draft, Refusal>
    requires { length handles.now ≤ 255 }
    ensures { AnswersClear id number log.now all handles.now result }
{
    if number >= LOGS {
        return Err(Refusal::Broken(Rule::NoSuchLog(number)));
    }
    if number == DYNAMIC_CAPACITY {
        clear_own(alloc, &id, log, all, handles.as_slice())
    } else {
        clear_empty(alloc, all, handles.as_slice())
    }
}

/// An empty log has nothing to clear, and missed nothing.
fn clear_empty(alloc: Global, all: bool, handles: &[u16]) -> Result<Draft, Refusal>
    ensures { ByRow (empty_rule all handles.now) (IsOutcome (changing [])) result }
{
    if all {
        return Err(Refusal::Broken(Rule::NotOverflowed));
    }
    match handles.first() {
        Some(handle) => Err(Refusal::Broken(Rule::UnknownHandle(*handle))),
        None => Ok(Draft::changing(alloc, Effects::new(alloc))),
    }
}

/// Clears the log of dynamic capacity.
fn clear_own(
    alloc: Global,
    id: &LogId,
    log: &EventLog,
    all: bool,
    handles: &[u16],
) -> Result<Draft, Refusal>
    requires { length handles.now ≤ 255 }
    ensures { ByRow (clearing_rule log.now all handles.now) (IsOutcome (clearing_outcome id.now log.now all handles.now)) result }
{
    if all {
        clear_whole(alloc, id, log)
    } else {
        clear_listed(alloc, id, log, handles)
    }
}

/// Takes all records out, and counts missed ones anew.
fn clear_whole(alloc: Global, id: &LogId, log: &EventLog) -> Result<Draft, Refusal>
    ensures { ByRow (whole_rule log.now) (IsOutcome (whole_outcome id.now log.now)) result }
{
    if log.missed() == 0 {
        return Err(Refusal::Broken(Rule::NotOverflowed));
    }
    let mut changes = Effects::with_capacity(alloc, 2)?;
    append_cleared(id, log.len() as usize, &mut changes)?;
    changes.push(reset_of(id))?;
    Ok(Draft::changing(alloc, changes))
}

/// Takes the records of the handles out.
fn clear_listed(
    alloc: Global,
    id: &LogId,
    log: &EventLog,
    handles: &[u16],
) -> Result<Draft, Refusal>
    requires { length handles.now ≤ 255 }
    ensures { ByRow (log_handles_rule log.now handles.now) (IsOutcome (listed_outcome id.now handles.now)) result }
{
    if let Some(fault) = log.clear_fault(handles) {
        return Err(Refusal::Broken(rule_of(fault)));
    }
    let mut changes = Effects::new(alloc);
    append_cleared(id, handles.len(), &mut changes)?;
    Ok(Draft::changing(alloc, changes))
}

/// The rule that is broken where records cannot be cleared.
fn rule_of(fault: ClearFault) -> Rule
    ensures { result ≡ rule_of fault }
{
    match fault {
        ClearFault::OlderLeft(handle) => Rule::OlderLeft(handle),
        ClearFault::UnknownHandle(handle) => Rule::UnknownHandle(handle),
        ClearFault::NotOverflowed => Rule::NotOverflowed,
    }
}

/// The log counts missed records anew.
fn reset_of(id: &LogId) -> Effect
    ensures { result ≡ Effect.Reset id.now }
{
    Effect::Reset(*id)
}

/// Notes that so many of the oldest records go, where there are any.
fn append_cleared(id: &LogId, count: usize, changes: &mut Effects) -> Result<(), NoMemory>
    requires { count ≤ 255 }
    ensures { OnOk result (changes.new ≡ changes.old ++ cleared id.now count) }
{
    if count == 0 {
        return Ok(());
    }
    append_effect(changes, Effect::Cleared(*id, count as u16))
}
