//! The effects of a step: its changes, the ends of tags, and its records.

ghost use Rattle.control_core.specs.Recording.{AreTold, AreToldBehind, IsTold, IsToldBehind, records_by};
ghost use Rattle.manager_commands.specs.device_state.specs.Updates.{IsOfLog};
ghost use Rattle.device_commands.specs.declared.log_records.LogRecords.{LogRecords};
ghost use Rattle.journal_core.specs.declared.outcome.Effect.{Effect};
ghost use Rattle.std.specs.Prelude.{◌≡◌, ◌++◌, ◌+◌, ◌-◌, ◌<◌, ◌≤◌, ℕ, All, OnOk, length, map, vec_capacity, vec_len};

use cci_codec::dcd_base::{Extent, LogId, NoMemory, Tag};
use device_commands::host_lists::HostLists;
use device_commands::{LogRecords, ShortList};
use event_log::{EventLog, handle_after};
use event_records::Event;
use journal_core::{Effect, Effects};
use manager_commands::device_state::State;
use std::alloc::Global;
use std::mem::{ManuallyDrop, replace};

/// Puts the ends of tags behind the changes.
pub(crate) fn append_ends(tags: &[Tag], effects: &mut Effects) -> Result<(), NoMemory>
    ensures { OnOk result (effects.new ≡ effects.old ++ map Effect.TagEnd tags.now) }
{
    for i in 0..tags.len() {
        effects.push(Effect::TagEnd(tags[i]))?;
    }
    Ok(())
}

/// Puts behind the effects what is told to all logs of a host that has these lists.
pub(crate) fn append_records_of_logs(
    alloc: Global,
    state: &State,
    lists: &HostLists,
    log_records: &ShortList<LogRecords>,
    effects: &mut Effects,
) -> Result<(), NoMemory>
    requires known { All (λ (n : LogRecords). IsOfLog (length state.now.hosts.items) n.log) log_records.now }
    ensures { OnOk result (AreToldBehind state.now lists.now log_records.now effects.old effects.new) }
{
    let told = log_records.as_slice();
    for i in 0..told.len() {
        append_records_of_log(alloc, state, lists, &told[i], effects)?;
    }
    Ok(())
}

/// Puts behind the effects what is told to all logs, of each host by the lists that are kept of it.
pub(crate) fn append_records_of_hosts(
    alloc: Global,
    state: &State,
    log_records: &ShortList<LogRecords>,
    effects: &mut Effects,
) -> Result<(), NoMemory>
    requires known { All (λ (n : LogRecords). IsOfLog (length state.now.hosts.items) n.log) log_records.now }
    requires hosts { All (λ (n : LogRecords). n.host < length state.now.hosts.items) log_records.now }
    ensures { OnOk result (AreTold state.now log_records.now effects.old effects.new) }
{
    let told = log_records.as_slice();
    for i in 0..told.len() {
        append_records_of_host(alloc, state, &told[i], effects)?;
    }
    Ok(())
}

/// Puts behind the effects what is told to one log of a host by the lists that are kept of it.
fn append_records_of_host(
    alloc: Global,
    state: &State,
    records: &LogRecords,
    effects: &mut Effects,
) -> Result<(), NoMemory>
    requires known { IsOfLog (length state.now.hosts.items) records.now.log }
    requires host { records.now.host < length state.now.hosts.items }
    ensures { OnOk result (IsTold state.now records.now effects.old effects.new) }
{
    let lists = &state.part(records.host).lists;
    append_records_of_log(alloc, state, lists, records, effects)
}

/// Puts behind the effects what is told to one log of a host that has these lists.
fn append_records_of_log(
    alloc: Global,
    state: &State,
    lists: &HostLists,
    records: &LogRecords,
    effects: &mut Effects,
) -> Result<(), NoMemory>
    requires known { IsOfLog (length state.now.hosts.items) records.now.log }
    ensures { OnOk result (IsToldBehind state.now lists.now records.now effects.old effects.new) }
{
    let events = records.events(alloc, lists)?;
    append_records(
        state.log(records.log),
        &records.log,
        events.as_slice(),
        effects,
    )
}

/// Puts the records for one log: each under the next handle, or counted as missed where the log is full.
fn append_records(
    log: &EventLog,
    id: &LogId,
    events: &[Event],
    effects: &mut Effects,
) -> Result<(), NoMemory>
    ensures { OnOk result (effects.new ≡ effects.old ++ records_by id.now log.now.next (log.now.capacity - length log.now.records) events.now) }
{
    let alloc = effects.allocator();
    let mut items = replace(effects, Effects::new(alloc)).into_vec();
    make_room(&mut items, events.len())?;
    let fit = events.len().min(log.room() as usize);
    let (logged, missed) = events.split_at(fit);
    append_logged(&mut items, id, log.next_handle(), logged);
    append_missed(&mut items, id, missed);
    // What stood there meanwhile has no memory that could be let go.
    let _ = ManuallyDrop::new(replace(effects, Effects::from_vec(alloc, items)));
    Ok(())
}

/// Makes room for so many more effects.
#[inline(always)]
fn make_room(items: &mut Vec<Effect>, more: usize) -> Result<(), NoMemory>
    ensures room { OnOk result (vec_len items.new + more ≤ vec_capacity items.new) }
    ensures kept { items.new.items ≡ items.old.items }
{
    if more > items.capacity() - items.len() {
        return grow(items, more);
    }
    Ok(())
}

/// The same, in new memory.
#[cold]
#[inline(never)]
fn grow(items: &mut Vec<Effect>, more: usize) -> Result<(), NoMemory>
    ensures room { OnOk result (vec_len items.new + more ≤ vec_capacity items.new) }
    ensures kept { items.new.items ≡ items.old.items }
{
    Ok(items.reserve(more)?)
}

/// Puts records for a log that has room for them, the first one under this handle. There is memory for them.
fn append_logged(items: &mut Vec<Effect>, id: &LogId, first: u16, events: &[Event])
    requires { vec_len items.old + length events.now ≤ vec_capacity items.old }
    ensures items { items.new.items ≡ items.old.items ++ records_by id.now first (length events.now) events.now }
    ensures len { vec_len items.new ≡ vec_len items.old + length events.now }
    ensures capacity { vec_capacity items.new ≡ vec_capacity items.old }
{
    let mut next = first;
    for i in 0..events.len() {
        items.push_reserved(logged_as(id, next, &events[i]));
        next = handle_after(next);
    }
}

/// A record under this handle.
#[inline(always)]
fn logged_as(id: &LogId, handle: u16, event: &Event) -> Effect
    ensures { result ≡ Effect.Logged id.now (record event.now { handle = handle }) }
{
    let extent = &event.extent;
    Effect::Logged(
        *id,
        Event {
            handle,
            kind: event.kind,
            host: event.host,
            region: event.region,
            more: event.more,
            extent: Extent {
                start: extent.start,
                length: extent.length,
                tag: extent.tag,
                sequence: extent.sequence,
            },
            extents_available: event.extents_available,
            tags_available: event.tags_available,
        },
    )
}

/// Puts records for a full log, which are only counted. There is memory for them.
fn append_missed(items: &mut Vec<Effect>, id: &LogId, events: &[Event])
    requires { vec_len items.old + length events.now ≤ vec_capacity items.old }
    ensures { (next : ℕ) → items.new.items ≡ items.old.items ++ records_by id.now next 0 events.now }
{
    for _ in 0..events.len() {
        items.push_reserved(Effect::Missed(*id));
    }
}
