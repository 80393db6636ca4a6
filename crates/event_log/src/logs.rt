//! The log.

ghost use Rattle.event_log.specs.LogStates.{IsLog, clear_fault, emptied, handle_after, has_handle, handle_fault, new_log, with_missed, with_record, without_oldest};
ghost use Rattle.std.specs.Prelude.{◌≡◌, ◌==◌, ◌-◌, ◌<◌, ◌≤◌, IfErr, IfNone, IfOk, IfSome, None, OnErr, OnOk, Some, drop, length, slice_get};

use crate::faults::{ClearFault, LogFull};
use circular_buffer::HeapCircularBuffer;
use dcd_base::NoMemory;
use event_records::Event;
use std::alloc::Global;
use std::marker::Model;

/// The greatest handle.
const LAST_HANDLE: u16 = 65_535;

/// The handle that records go on with after this one: 1 after 65,535.
pub fn handle_after(handle: u16) -> u16
    ensures { result ≡ handle_after handle }
{
    1 + handle % LAST_HANDLE
}

/// An event log (CXL 3.1, 8.2.9.2). Handles go 1, 2, up to 65,535, and then 1 again; 0 is never given.
#[derive(Drop)]
pub struct EventLog {
    records: HeapCircularBuffer<Event>,
    next: u16,
    missed: u16,
}

impl Model for EventLog {
    ghost use Rattle.event_log.specs.LogStates.{IsLog, LogState};

    ghost Value = { LogState };

    ghost view = { λ log. record { capacity = log.records.capacity; records = log.records.items; next = log.next; missed = log.missed } };

    ghost invariant = { λ log. IsLog (record { capacity = log.records.capacity; records = log.records.items; next = log.next; missed = log.missed }) };
}

impl EventLog {
    /// An empty log for 1 to 128 records. It takes all the memory that the log ever takes.
    pub fn new(alloc: Global, capacity: u32) -> Result<EventLog, NoMemory>
        requires some { 0 < capacity }
        requires most { capacity ≤ 128 }
        ensures { IfOk result (λ log. log ≡ new_log capacity) }
    {
        let records = HeapCircularBuffer::with_capacity(alloc, capacity as usize)?;
        Ok(EventLog {
            records,
            next: 1,
            missed: 0,
        })
    }

    /// How many records it can have.
    pub fn capacity(&self) -> u32
        ensures capacity { result ≡ self.now.capacity }
        ensures log { IsLog self.now }
    {
        self.records.capacity() as u32
    }

    /// How many records are in it.
    pub fn len(&self) -> u32
        ensures len { result ≡ length self.now.records }
        ensures log { IsLog self.now }
    {
        self.records.len() as u32
    }

    /// Whether no record is in it.
    pub fn is_empty(&self) -> bool
        ensures { result ≡ (length self.now.records == 0) }
    {
        self.records.is_empty()
    }

    /// How many more records it can take before one is cleared.
    pub fn room(&self) -> u32
        ensures { result ≡ self.now.capacity - length self.now.records }
    {
        self.capacity() - self.len()
    }

    /// How many records found it full since it was last cleared whole, up to 65,535, where the count stays.
    pub fn missed(&self) -> u16
        ensures { result ≡ self.now.missed }
    {
        self.missed
    }

    /// The handle that the next record gets.
    pub fn next_handle(&self) -> u16
        ensures { result ≡ self.now.next }
    {
        self.next
    }

    /// The record at an index below the length; the oldest has the index 0.
    pub fn at(&self, index: u32) -> Event
        requires { index < length self.now.records }
        ensures { slice_get self.now.records index ≡ Some result }
    {
        *self.records.get(index as usize).unwrap()
    }

    /// Puts the record behind the others under the next handle, whatever handle it comes with, and answers the
    /// handle. `LogFull` comes exactly where the log has as many records as it can have; nothing changes then.
    pub fn put(&mut self, event: Event) -> Result<u16, LogFull>
        ensures handle { IfOk result (λ handle. handle ≡ self.old.next) }
        ensures put { OnOk result (self.new ≡ with_record self.old event) }
        ensures room { OnOk result (length self.old.records < self.old.capacity) }
        ensures full { OnErr result (length self.old.records ≡ self.old.capacity) }
        ensures fault { IfErr result (λ fault. fault.0 ≡ self.old.capacity) }
        ensures kept { OnErr result (self.new ≡ self.old) }
    {
        let handle = self.next;
        let capacity = self.records.capacity();
        match self.records.try_push_back(Event { handle, ..event }) {
            Ok(()) => {
                self.next = handle_after(handle);
                Ok(handle)
            }
            Err(_) => Err(LogFull(capacity as u32)),
        }
    }

    /// Puts the record as `put` does. None comes exactly where the log is full; then the count of missed records
    /// rises by one, unless it is 65,535, and nothing else changes.
    pub fn put_or_count(&mut self, event: Event) -> Option<u16>
        ensures handle { IfSome result (λ handle. handle ≡ self.old.next) }
        ensures put { IfSome result (λ _. self.new ≡ with_record self.old event) }
        ensures room { IfSome result (λ _. length self.old.records < self.old.capacity) }
        ensures full { IfNone result (length self.old.records ≡ self.old.capacity) }
        ensures counted { IfNone result (self.new ≡ with_missed self.old) }
    {
        match self.put(event) {
            Ok(handle) => Some(handle),
            Err(_) => {
                self.count_missed();
                None
            }
        }
    }

    /// Counts a record that found the log full, up to 65,535, where the count stays. Nothing else changes.
    pub fn count_missed(&mut self)
        ensures { self.new ≡ with_missed self.old }
    {
        self.missed = self.missed.saturating_add(1);
    }

    /// Sets the count of missed records to 0. Nothing else changes.
    pub fn reset_missed(&mut self)
        ensures { self.new ≡ record self.old { missed = 0 } }
    {
        self.missed = 0;
    }

    /// Takes out so many of the oldest records, or all where there are fewer. Nothing else changes.
    pub fn drop_oldest(&mut self, count: usize)
        ensures { self.new ≡ without_oldest count self.old }
    {
        let len = self.records.len();
        self.records.truncate_front(len - len.min(count));
    }

    /// The record at the index, from the oldest on.
    fn record(&self, index: usize) -> Option<Event>
        ensures { result ≡ slice_get self.now.records index }
    {
        self.records.get(index).copied()
    }

    /// Whether a record from the index on has the handle.
    fn has_handle_from(&self, index: usize, handle: u16) -> bool
        ensures { result ≡ has_handle handle (drop index self.now.records) }
    {
        self.records
            .iter()
            .skip(index)
            .any(|event| event.handle == handle)
    }

    /// Why a handle cannot be cleared that is not `oldest`, the handle of the record at the index.
    fn handle_fault(&self, index: usize, handle: u16, oldest: u16) -> ClearFault
        ensures { result ≡ handle_fault handle oldest (drop index self.now.records) }
    {
        if self.has_handle_from(index, handle) {
            ClearFault::OlderLeft(oldest)
        } else {
            ClearFault::UnknownHandle(handle)
        }
    }

    /// Why the records of these handles cannot be cleared; None exactly where they can. It changes nothing.
    pub fn clear_fault(&self, handles: &[u16]) -> Option<ClearFault>
        ensures fault { result ≡ clear_fault handles.now self.now.records }
        ensures within { IfNone result (length handles.now ≤ length self.now.records) }
    {
        for (i, handle) in handles.iter().enumerate() {
            let handle = *handle;
            match self.record(i) {
                None => return Some(ClearFault::UnknownHandle(handle)),
                Some(oldest) => {
                    if handle != oldest.handle {
                        return Some(self.handle_fault(i, handle, oldest.handle));
                    }
                }
            }
        }
        None
    }

    /// Takes out as many of the oldest records as there are handles, where the handles are theirs in order.
    ///
    /// Else the first handle that is not that of the record in its place decides. `UnknownHandle` has that
    /// handle and comes where no record from that place on has it; `OlderLeft` has the handle of the record in
    /// that place. A refusal changes nothing.
    pub fn clear(&mut self, handles: &[u16]) -> Result<(), ClearFault>
        ensures cleared { OnOk result (self.new ≡ without_oldest (length handles.now) self.old) }
        ensures in_order { OnOk result (clear_fault handles.now self.old.records ≡ None) }
        ensures refused { IfErr result (λ fault. clear_fault handles.now self.old.records ≡ Some fault) }
        ensures kept { OnErr result (self.new ≡ self.old) }
    {
        match self.clear_fault(handles) {
            Some(fault) => Err(fault),
            None => {
                self.drop_oldest(handles.len());
                Ok(())
            }
        }
    }

    /// Takes all records out and sets the count of missed records to 0. `NotOverflowed` comes exactly where that
    /// count is 0; nothing changes then. The next handle stays.
    pub fn clear_all(&mut self) -> Result<(), ClearFault>
        ensures cleared { OnOk result (self.new ≡ emptied self.old) }
        ensures overflowed { OnOk result (0 < self.old.missed) }
        ensures refused { IfErr result (λ fault. fault ≡ ClearFault.NotOverflowed) }
        ensures none_missed { OnErr result (self.old.missed ≡ 0) }
        ensures kept { OnErr result (self.new ≡ self.old) }
    {
        if self.missed == 0 {
            return Err(ClearFault::NotOverflowed);
        }
        self.records.clear();
        self.reset_missed();
        Ok(())
    }
}
