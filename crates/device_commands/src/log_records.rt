//! Records that a command adds to event logs.

ghost use Rattle.cci_codec.specs.dcd_base.specs.declared.steps.LogId.{LogId};
ghost use Rattle.device_commands.specs.Drafts.{HasExtentsOf, told_by};
ghost use Rattle.device_commands.specs.declared.log_records.Told.{Told};
ghost use Rattle.device_rules.specs.Outcomes.{no_extent, record_for, records_of_extents};
ghost use Rattle.device_rules.specs.Views.{View};
ghost use Rattle.event_records.specs.declared.events.EventKind.{EventKind};
ghost use Rattle.std.specs.Prelude.{◌≡◌, ◌∷◌, [], IfOk, false};

use cci_codec::dcd_base::{Extent, HostId, LogId, NoMemory, RegionId, Seq, ShortList, no_tag};
use event_records::{Event, EventKind};
use host_lists::HostLists;
use std::alloc::Global;

/// What is told to one log of one host, with what the host has available once the step is taken.
#[derive(Drop)]
pub struct LogRecords {
    pub log: LogId,
    /// The host of which it is told.
    pub host: HostId,
    pub told: Told,
}

/// What is told of a host.
#[derive(Drop)]
pub enum Told {
    /// A record of this kind of each of these extents, in order.
    Extents(EventKind, ShortList<Extent>),
    /// A record that the region has blocks of another size.
    Region(RegionId),
}

impl LogRecords {
    /// The records, in order, with what the host has available by these lists. The log gives each its handle.
    pub fn events(&self, alloc: Global, lists: &HostLists) -> Result<ShortList<Event>, NoMemory>
        ensures { IfOk result (λ events. (v : View) → HasExtentsOf v lists.now → events ≡ told_by self.now.host v self.now.told) }
    {
        match &self.told {
            Told::Extents(kind, extents) => {
                records_of_extents(alloc, self.host, lists, *kind, extents.as_slice())
            }
            Told::Region(region) => Ok(region_record(self.host, lists, *region)),
        }
    }
}

/// The record that a region has blocks of another size.
fn region_record(host: HostId, lists: &HostLists, region: RegionId) -> ShortList<Event>
    ensures { (v : View) → HasExtentsOf v lists.now → result ≡ record (record_for host v EventKind.RegionUpdated false no_extent) { region = region } ∷ [] }
{
    let event = event_for(host, lists, EventKind::RegionUpdated, false, &no_extent());
    ShortList::of(Event {
        region: region.0,
        ..event
    })
}

/// What is told of an extent, with what the host has available by these lists. The handle is 0.
pub fn event_for(
    host: HostId,
    lists: &HostLists,
    kind: EventKind,
    more: bool,
    extent: &Extent,
) -> Event
    ensures { (v : View) → HasExtentsOf v lists.now → result ≡ record_for host v kind more extent.now }
{
    Event {
        handle: 0,
        kind,
        host: u16::from(host.0),
        region: 0,
        more,
        extent: *extent,
        extents_available: lists.extents_available(),
        tags_available: lists.tags_available(),
    }
}

/// A record for each extent, each of which says whether more come.
pub fn records_of_extents(
    alloc: Global,
    host: HostId,
    lists: &HostLists,
    kind: EventKind,
    extents: &[Extent],
) -> Result<ShortList<Event>, NoMemory>
    ensures { IfOk result (λ events. (v : View) → HasExtentsOf v lists.now → events ≡ records_of_extents host v kind extents.now) }
{
    match extents {
        [extent] => Ok(ShortList::of(event_for(host, lists, kind, false, extent))),
        _ => each_record(alloc, host, lists, kind, extents),
    }
}

/// The same, for any number of extents.
fn each_record(
    alloc: Global,
    host: HostId,
    lists: &HostLists,
    kind: EventKind,
    extents: &[Extent],
) -> Result<ShortList<Event>, NoMemory>
    ensures { IfOk result (λ events. (v : View) → HasExtentsOf v lists.now → events ≡ records_of_extents host v kind extents.now) }
{
    let mut events = Vec::with_capacity(alloc, extents.len())?;
    let extents_available = lists.extents_available();
    let tags_available = lists.tags_available();
    for i in 0..extents.len() {
        events.push_reserved(Event {
            handle: 0,
            kind,
            host: u16::from(host.0),
            region: 0,
            more: i + 1 < extents.len(),
            extent: extents[i],
            extents_available,
            tags_available,
        });
    }
    Ok(ShortList::of_list(Seq::from_vec(alloc, events)))
}

/// What is told to one log of each of these extents, and no more.
pub fn records_to(
    alloc: Global,
    log: LogId,
    host: HostId,
    kind: EventKind,
    extents: &[Extent],
) -> Result<ShortList<LogRecords>, NoMemory>
    ensures { IfOk result (λ records. records ≡ record { log = log; host = host; told = Told.Extents kind extents.now } ∷ []) }
{
    let extents = ShortList::of_slice(alloc, extents)?;
    Ok(one_record(log, host, Told::Extents(kind, extents)))
}

/// This is told to one log, and no more.
fn one_record(log: LogId, host: HostId, told: Told) -> ShortList<LogRecords>
    ensures { result ≡ record { log = log; host = host; told = told } ∷ [] }
{
    ShortList::of(LogRecords { log, host, told })
}

/// An extent of zeros.
pub fn no_extent() -> Extent
    ensures { result ≡ no_extent }
{
    Extent {
        start: 0,
        length: 0,
        tag: no_tag(),
        sequence: 0,
    }
}
