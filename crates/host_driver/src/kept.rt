//! What a driver keeps, and what records and replies make of it.

ghost use Rattle.event_records.specs.declared.events.Event.{Event};
ghost use Rattle.host_driver.specs.Driving.{answer_to, answered_by, behind_page, can_take, due_behind, due_fault, first_driven, gone_on};
ghost use Rattle.host_driver.specs.Driving.{most_listed, noted, offer_ended, request_ended, with_page};
ghost use Rattle.host_driver.specs.Keeping.{HasSpare, kept_in};
ghost use Rattle.host_driver.specs.Pages.{events_in, page_fault};
ghost use Rattle.host_driver.specs.declared.due.Due.{Due};
ghost use Rattle.host_driver.specs.declared.faults.DriverFault.{DriverFault};
ghost use Rattle.std.specs.Prelude.{◌≡◌, ◌≢◌, ◌+◌, ◌++◌, ◌^◌, ◌<◌, ◌≤◌, [], IfErr, None, OnErr, OnOk, Some, length, map, nat_le, ℕ};

use crate::due::Due;
use crate::faults::DriverFault;
use crate::pages::{events_in, handles_of};
use crate::tables::{append, bytes_of, cut_all_out, cut_out, with_room};
use cci_codec::Response;
use dcd_base::{Handles, NoMemory, Seq};
use event_records::{Event, EventKind};
use extent_list::ExtentList;
use std::alloc::Global;
use std::mem;

/// How many extents the driver lists at most.
const MOST_LISTED: usize = 64;

/// What a driver keeps.
#[derive(Drop)]
pub(crate) struct Kept {
    pub(crate) table: ExtentList,
    /// What an offer has gathered, and what a request to release.
    pub(crate) offered: ExtentList,
    pub(crate) asked: ExtentList,
    pub(crate) due: Due,
    /// The page at hand, of which the records from this index on are still to be treated.
    page: Seq<Event>,
    at: usize,
    pub(crate) handles: Handles,
    pub(crate) idle: bool,
}

/// What is due behind a record, if it is the last of an offer or of a request to release.
fn due_behind(event: &Event) -> Option<Due>
    ensures { result ≡ due_behind event.now }
{
    if event.more {
        None
    } else {
        answer_to(event.kind)
    }
}

/// What answers the last record of a kind.
fn answer_to(kind: EventKind) -> Option<Due>
    ensures { result ≡ answer_to kind }
{
    match kind {
        EventKind::Add => Some(Due::Response),
        EventKind::Release => Some(Due::Release),
        _ => None,
    }
}

impl Kept {
    /// Nothing yet.
    pub(crate) fn new(alloc: Global) -> Kept
        ensures { kept_in result ≡ first_driven }
    {
        Kept {
            table: ExtentList::new(alloc),
            offered: ExtentList::new(alloc),
            asked: ExtentList::new(alloc),
            due: Due::Page,
            page: Seq::new(alloc),
            at: 0,
            handles: Handles::new(alloc),
            idle: false,
        }
    }

    /// Makes room for so many more extents in each list.
    fn reserve(&mut self, extents: usize) -> Result<(), NoMemory>
        ensures same { kept_in self.new ≡ kept_in self.old }
        ensures room { OnOk result (HasSpare extents self.new) }
    {
        self.table.reserve(extents)?;
        self.offered.reserve(extents)?;
        self.asked.reserve(extents)
    }

    /// Gathers the extent of a record, or cuts it out of the table.
    fn note(&mut self, event: &Event)
        requires { HasSpare 1 self.old }
        ensures noted { kept_in self.new ≡ noted (kept_in self.old) event.now.extent event.now.kind }
        ensures room { (n : ℕ) → HasSpare (n + 1) self.old → HasSpare n self.new }
        ensures page { self.new.page ≡ self.old.page }
        ensures at { self.new.at ≡ self.old.at }
    {
        match event.kind {
            EventKind::Add => self.offered.add(event.extent),
            EventKind::Release => self.asked.add(event.extent),
            EventKind::Forced => cut_out(&mut self.table, &event.extent),
            _ => (),
        }
    }

    /// Treats the records that are left of the page, up to the first behind which an answer is due.
    fn go_on(&mut self)
        requires { HasSpare (length (kept_in self.old).records) self.old }
        ensures { kept_in self.new ≡ gone_on (kept_in self.old) }
    {
        while self.at < self.page.len() {
            let event = self.page.as_slice()[self.at];
            self.at += 1;
            self.note(&event);
            if let Some(due) = due_behind(&event) {
                self.due = due;
                return;
            }
        }
        self.due = behind_page(&self.handles);
    }

    /// Takes the events of a page, with their handles.
    fn take_page(&mut self, events: Seq<Event>, handles: Handles)
        requires room { HasSpare (length events) self.old }
        requires handles { handles ≡ map (λ (e : Event). e.handle) events }
        ensures { kept_in self.new ≡ with_page (kept_in self.old) events }
    {
        self.idle = events.is_empty();
        self.handles = handles;
        self.page = events;
        self.at = 0;
        self.go_on();
    }

    /// How many records of the page are still to be treated.
    fn left(&self) -> usize
        ensures left { result ≡ length (kept_in self.now).records }
        ensures small { result < 2 ^ 63 }
    {
        self.page.as_slice().len().saturating_sub(self.at)
    }

    /// How many extents an offer has gathered.
    fn offered_count(&self) -> usize
        ensures count { result ≡ length self.now.offered.extents }
        ensures small { result < 2 ^ 63 }
    {
        self.offered.as_slice().len()
    }

    /// How many extents a request to release has gathered.
    fn asked_count(&self) -> usize
        ensures count { result ≡ length self.now.asked.extents }
        ensures small { result < 2 ^ 63 }
    {
        self.asked.as_slice().len()
    }

    /// Whether it takes what it is offered: at most 64 extents, and with those that it has no more than `most` bytes.
    pub(crate) fn can_take(&self, most: u64) -> bool
        ensures { result ≡ can_take most (kept_in self.now) }
    {
        let bytes = bytes_of(self.table.as_slice()) + bytes_of(self.offered.as_slice());
        self.offered.len() <= MOST_LISTED && bytes <= u128::from(most)
    }

    /// Whether it gives back what it is asked for: at most 64 extents.
    pub(crate) fn can_give(&self) -> bool
        ensures { result ≡ nat_le (length (kept_in self.now).asked) most_listed }
    {
        self.asked.len() <= MOST_LISTED
    }

    /// Ends an offer: the table gets what was taken, and the next offer is gathered in the fresh list.
    fn end_offer(&mut self, fresh: ExtentList, most: u64)
        requires empty { fresh.extents ≡ [] }
        requires room { length self.old.offered.extents ≤ self.old.table.spare }
        ensures ended { kept_in self.new ≡ offer_ended most (kept_in self.old) }
        ensures table { self.old.table.spare ≤ self.new.table.spare + length self.old.offered.extents }
        ensures offered { self.new.offered ≡ fresh }
        ensures asked { self.new.asked ≡ self.old.asked }
    {
        let takes = self.can_take(most);
        let offered = mem::replace(&mut self.offered, fresh);
        if takes {
            append(&mut self.table, offered.as_slice());
        }
    }

    /// Ends a request to release: where it is done the table loses what was given back, and the next request is gathered
    /// in the fresh list.
    fn end_request(&mut self, fresh: ExtentList, is_done: bool)
        requires empty { fresh.extents ≡ [] }
        requires room { length self.old.asked.extents ≤ self.old.table.spare }
        ensures ended { kept_in self.new ≡ request_ended is_done (kept_in self.old) }
        ensures table { self.old.table.spare ≤ self.new.table.spare + length self.old.asked.extents }
        ensures offered { self.new.offered ≡ self.old.offered }
        ensures asked { self.new.asked ≡ fresh }
    {
        let gives = is_done && self.can_give();
        let asked = mem::replace(&mut self.asked, fresh);
        if gives {
            cut_all_out(&mut self.table, asked.as_slice());
        }
    }

    /// Takes a page of the log.
    fn took_page(&mut self, alloc: Global, payload: &[u8]) -> Result<(), DriverFault>
        ensures taken { OnOk result (kept_in self.new ≡ with_page (kept_in self.old) (events_in payload.now)) }
        ensures sound { OnOk result (page_fault payload.now ≡ None) }
        ensures fault { IfErr result (λ fault. fault ≢ DriverFault.NoMemory → page_fault payload.now ≡ Some fault) }
        ensures kept { OnErr result (kept_in self.new ≡ kept_in self.old) }
    {
        let events = events_in(alloc, payload)?;
        let handles = handles_of(alloc, events.as_slice())?;
        self.reserve(events.len())?;
        self.take_page(events, handles);
        Ok(())
    }

    /// Takes that the records of the page are cleared.
    fn took_cleared(&mut self)
        ensures { kept_in self.new ≡ record (kept_in self.old) { due = Due.Page; handles = [] } }
    {
        self.due = Due::Page;
        self.handles.clear();
    }

    /// Takes that the offer is answered.
    fn took_response(&mut self, alloc: Global, most: u64) -> Result<(), NoMemory>
        ensures taken { OnOk result (kept_in self.new ≡ gone_on (offer_ended most (kept_in self.old))) }
        ensures kept { OnErr result (kept_in self.new ≡ kept_in self.old) }
    {
        let left = self.left();
        let offered = self.offered_count();
        self.reserve(left + offered)?;
        let fresh = with_room(alloc, left)?;
        self.end_offer(fresh, most);
        self.go_on();
        Ok(())
    }

    /// Takes that the release is done, or refused.
    fn took_release(&mut self, alloc: Global, is_done: bool) -> Result<(), NoMemory>
        ensures taken { OnOk result (kept_in self.new ≡ gone_on (request_ended is_done (kept_in self.old))) }
        ensures kept { OnErr result (kept_in self.new ≡ kept_in self.old) }
    {
        let left = self.left();
        let asked = self.asked_count();
        self.reserve(left + asked)?;
        let fresh = with_room(alloc, left)?;
        self.end_request(fresh, is_done);
        self.go_on();
        Ok(())
    }

    /// Takes the reply to the request that is due. Its opcode is that of the request, and its code is Success but for a
    /// release.
    pub(crate) fn take(
        &mut self,
        alloc: Global,
        most: u64,
        response: &Response,
    ) -> Result<(), DriverFault>
        ensures taken { OnOk result (kept_in self.new ≡ answered_by most (kept_in self.old) response.now self.old.due) }
        ensures sound { OnOk result (due_fault response.now.payload self.old.due ≡ None) }
        ensures fault { IfErr result (λ fault. fault ≢ DriverFault.NoMemory → due_fault response.now.payload self.old.due ≡ Some fault) }
        ensures kept { OnErr result (kept_in self.new ≡ kept_in self.old) }
    {
        match self.due {
            Due::Page => self.took_page(alloc, response.payload.as_slice()),
            Due::Clear => {
                self.took_cleared();
                Ok(())
            }
            Due::Response => Ok(self.took_response(alloc, most)?),
            Due::Release => Ok(self.took_release(alloc, response.code == 0)?),
        }
    }
}

/// What is due behind a page with these handles.
fn behind_page(handles: &Handles) -> Due
    ensures { result ≡ behind_page handles.now }
{
    if handles.is_empty() {
        Due::Page
    } else {
        Due::Clear
    }
}
