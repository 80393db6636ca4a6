//! A dead host lets all go.

ghost use Rattle.event_records.specs.declared.events.Event.{Event};
ghost use Rattle.journal_core.specs.Entries.{effects};
ghost use Rattle.pool_planner.specs.Trials.{TriesMore};
ghost use Rattle.plan_rules.specs.Listing.{clearing, let_go as let_go_by, refusals, removal};
ghost use Rattle.region_config.specs.Granules.{regions_of};
ghost use Rattle.std.specs.List.{flat_map};
ghost use Rattle.std.specs.Prelude.{◌≡◌, ◌<◌, ◌≤◌, IfOk, OnOk, length, map};

use crate::held::held_extents;
use crate::trial::Trial;
use crate::{clear_step, refusal_step, removal_step};
use dcd_base::{Handles, HostId, LogId, NoMemory, RegionId};
use device_plain::control_core::Control;
use event_log::EventLog;
use std::alloc::Global;

/// The handles of the records in the log, oldest first.
fn handles_of(alloc: Global, log: &EventLog) -> Result<Handles, NoMemory>
    ensures those { IfOk result (λ handles. handles ≡ map (λ (e : Event). e.handle) log.now.records) }
    ensures few { IfOk result (λ handles. length handles ≤ 255) }
{
    let mut handles = Handles::new(alloc);
    for i in 0..log.len() {
        handles.push(log.at(i).handle)?;
    }
    Ok(handles)
}

/// Clears the host's log, where it has records.
fn clear_log(
    alloc: Global,
    trial: &mut Trial,
    control: &Control,
    host: HostId,
) -> Result<(), NoMemory>
    requires same { trial.old.control.config ≡ control.now.config }
    requires host { host < control.now.config.hosts }
    ensures { OnOk result (TriesMore trial.old trial.new (clearing host (effects control.now.entries))) }
{
    let handles = handles_of(alloc, control.log(LogId::Host(host)))?;
    if handles.is_empty() {
        return Ok(());
    }
    trial.take(clear_step(alloc, host, handles)?)
}

/// Takes nothing of the host's unanswered offers.
fn refuse_offers(
    alloc: Global,
    trial: &mut Trial,
    control: &Control,
    host: HostId,
) -> Result<(), NoMemory>
    requires same { trial.old.control.config ≡ control.now.config }
    requires host { host < control.now.config.hosts }
    ensures { OnOk result (TriesMore trial.old trial.new (refusals host (effects control.now.entries))) }
{
    for _ in 0..control.offers(host) {
        trial.take(refusal_step(alloc, host)?)?;
    }
    Ok(())
}

/// Takes all extents of the region from the host by force, where it has any.
fn empty_region(
    alloc: Global,
    trial: &mut Trial,
    control: &Control,
    host: HostId,
    region: RegionId,
) -> Result<(), NoMemory>
    requires same { trial.old.control.config ≡ control.now.config }
    requires host { host < control.now.config.hosts }
    ensures { OnOk result (TriesMore trial.old trial.new (removal control.now.config host (effects control.now.entries) region)) }
{
    let extents = held_extents(alloc, control, host, region)?;
    if extents.is_empty() {
        return Ok(());
    }
    trial.take(removal_step(alloc, host, region, extents)?)
}

/// Takes all extents of all regions from the host by force.
fn empty_regions(
    alloc: Global,
    trial: &mut Trial,
    control: &Control,
    host: HostId,
) -> Result<(), NoMemory>
    requires same { trial.old.control.config ≡ control.now.config }
    requires host { host < control.now.config.hosts }
    ensures { OnOk result (TriesMore trial.old trial.new
        (flat_map (removal control.now.config host (effects control.now.entries)) (regions_of control.now.config))) }
{
    for region in 0..control.first_config().regions() {
        empty_region(alloc, trial, control, host, RegionId(region))?;
    }
    Ok(())
}

/// The host lets all go: its log, its offers and its extents.
pub(crate) fn let_go(
    alloc: Global,
    trial: &mut Trial,
    control: &Control,
    host: HostId,
) -> Result<(), NoMemory>
    requires same { trial.old.control.config ≡ control.now.config }
    requires host { host < control.now.config.hosts }
    ensures { OnOk result (TriesMore trial.old trial.new (let_go_by control.now.config (effects control.now.entries) host)) }
{
    clear_log(alloc, trial, control, host)?;
    refuse_offers(alloc, trial, control, host)?;
    empty_regions(alloc, trial, control, host)
}
