//! What others bring a device with one host alone.

ghost use Rattle.dcd_base.specs.declared.ids.HostId.{HostId};
ghost use Rattle.control_core.specs.device_rules.specs.Outcomes.{records_of_extents};
ghost use Rattle.event_log.specs.LogStates.{with_record};
ghost use Rattle.extent_list.specs.HostLists.{extent_total};
ghost use Rattle.device_plain.specs.Alone.{TakesItem};
ghost use Rattle.device_plain.specs.Telling.{Logs, resized};
ghost use Rattle.isolation_laws.specs.declared.items.Item.{Item};
ghost use Rattle.region_config.specs.Configurations.{Configuration};
ghost use Rattle.std.specs.Prelude.{◌≡◌, ◌+◌, ◌^◌, ◌<◌, ◌≤◌, ◌↔◌, All, IsTrue, OnErr, OnOk, fold, length};

use crate::alone::{Alone, Stop};
use control_core::device_commands::{event_for, no_extent, records_of_extents};
use dcd_base::limits::EXTENTS;
use dcd_base::{Extent, Extents, HostId, RegionId};
use event_log::EventLog;
use event_records::{Event, EventKind};
use std::alloc::Global;

impl Alone {
    /// An offer of the extents, and a record of each.
    pub(crate) fn give(
        &mut self,
        alloc: Global,
        host: HostId,
        extents: &Extents,
    ) -> Result<(), Stop>
        requires { extent_total self.old.lists ≤ 64 }
        ensures { (c : Configuration) → TakesItem c host (Item.Given extents.now) self.old self.new result }
    {
        let total = self.lists.accepted().len() + self.lists.offered();
        if extents.len() > EXTENTS - total {
            return Err(Stop::Unlawful);
        }
        self.lists.offer(extents.copy()?)?;
        self.tell(alloc, host, EventKind::Add, extents)
    }

    /// A request to give the extents back: a record of each.
    pub(crate) fn ask(&mut self, alloc: Global, host: HostId, extents: &Extents) -> Result<(), Stop>
        requires { extent_total self.old.lists ≤ 64 }
        ensures { (c : Configuration) → TakesItem c host (Item.Asked extents.now) self.old self.new result }
    {
        self.tell(alloc, host, EventKind::Release, extents)
    }

    /// The extents are taken by force: those that lie in accepted ones are cut out of them, and there is a record of each.
    pub(crate) fn take(
        &mut self,
        alloc: Global,
        host: HostId,
        extents: &Extents,
    ) -> Result<(), Stop>
        requires { extent_total self.old.lists ≤ 64 }
        ensures { (c : Configuration) → TakesItem c host (Item.Taken extents.now) self.old self.new result }
    {
        if !all_end(extents.as_slice()) {
            return Err(Stop::Unlawful);
        }
        let offered = self.lists.offered();
        self.lists.take_out(extents)?;
        if self.lists.accepted().len() > EXTENTS - offered {
            return Err(Stop::Unlawful);
        }
        self.tell(alloc, host, EventKind::Forced, extents)
    }

    /// A region of the device has blocks of another size that it supports, of which there is a record; else nothing.
    pub(crate) fn resize(&mut self, host: HostId, region: RegionId, size: u64) -> Result<(), Stop>
        requires { extent_total self.old.lists ≤ 64 }
        ensures { (c : Configuration) → TakesItem c host (Item.Block region size) self.old self.new result }
    {
        if region.0 >= self.present.regions() {
            return Ok(());
        }
        let sanitize = self.present.region(region).sanitize;
        match self.present.set_block_size(region, size, sanitize, 0) {
            Ok(()) => self.tell_size(host, region),
            Err(_) => Ok(()),
        }
    }

    /// A record that the region has blocks of another size.
    fn tell_size(&mut self, host: HostId, region: RegionId) -> Result<(), Stop>
        requires { extent_total self.old.lists ≤ 64 }
        ensures { (c : Configuration) → Logs c host (resized host region) self.old self.new result }
    {
        let mut event = event_for(
            host,
            &self.lists,
            EventKind::RegionUpdated,
            false,
            &no_extent(),
        );
        event.region = region.0;
        append_all(&mut self.log, &[event])
    }

    /// A record of this kind for each of the extents, with what the host has available by its lists.
    fn tell(
        &mut self,
        alloc: Global,
        host: HostId,
        kind: EventKind,
        extents: &Extents,
    ) -> Result<(), Stop>
        requires { extent_total self.old.lists ≤ 64 }
        ensures { (c : Configuration) → Logs c host (λ v. records_of_extents host v kind extents.now) self.old self.new result }
    {
        let events = records_of_extents(alloc, host, &self.lists, kind, extents.as_slice())?;
        append_all(&mut self.log, events.as_slice())
    }
}

/// Puts the records into the log, where it has room for all of them.
fn append_all(log: &mut EventLog, events: &[Event]) -> Result<(), Stop>
    ensures put { OnOk result (log.new ≡ fold with_record log.old events.now) }
    ensures full { OnErr result (log.old.capacity < length log.old.records + length events.now) }
{
    for i in 0..events.len() {
        match log.put(events[i]) {
            Ok(_) => (),
            Err(_) => return Err(Stop::Unlawful),
        }
    }
    Ok(())
}

/// Whether each of the extents ends below 2^64.
fn all_end(extents: &[Extent]) -> bool
    ensures { IsTrue result ↔ All (λ x. x.start + x.length < 2 ^ 64) extents.now }
{
    extents.iter().all(|extent| ends(extent))
}

/// Whether the extent ends below 2^64.
fn ends(extent: &Extent) -> bool
    ensures { IsTrue result ↔ (extent.now.start + extent.now.length < 2 ^ 64) }
{
    extent.start.checked_add(extent.length).is_some()
}
