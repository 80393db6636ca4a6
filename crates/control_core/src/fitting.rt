//! Tags that the device keeps have sixteen bytes each, so that pages of them are short. To say so does nothing.

ghost use Rattle.control_core.specs.Fitting.{AcceptedFit, PartFits, RequestFits, TagFits};
ghost use Rattle.cci_codec.specs.dcd_base.specs.declared.capacity.Extent.{Extent};
ghost use Rattle.event_records.specs.declared.events.Event.{Event};
ghost use Rattle.std.specs.Prelude.{All};
ghost use Rattle.tag_refs.specs.declared.entries.TagEntry.{TagEntry};

use cci_codec::dcd_base::{Extent, Tag};
use event_log::EventLog;
use fm_payloads::FmRequest;
use manager_commands::device_state::{HostPart, State};
use tag_refs::Tags;

/// The tags that a request of the manager reads have sixteen bytes each.
pub(crate) fn request_fits(state: &State, asked: &FmRequest)
    ensures { RequestFits state.now asked.now }
{
    match asked {
        FmRequest::GetEvents { log: _ } => records_fit(&state.manager),
        FmRequest::GetExtentLists {
            host,
            count: _,
            first: _,
        } => accepted_fit(state, *host),
        FmRequest::ListTags { first: _, count: _ } => entries_fit(&state.tags),
        _ => (),
    }
}

/// So do those of the extents that a host has accepted, where there is this host.
fn accepted_fit(state: &State, host: u16)
    ensures { AcceptedFit state.now host }
{
    if usize::from(host) < state.hosts.len() {
        extents_fit(state.hosts[usize::from(host)].lists.accepted().as_slice());
    }
}

/// So do those of what is kept of a host.
pub(crate) fn part_fits(part: &HostPart)
    ensures { PartFits part.now }
{
    extents_fit(part.lists.accepted().as_slice());
    records_fit(&part.log);
}

/// So do those of extents.
fn extents_fit(extents: &[Extent])
    ensures { All (λ (x : Extent). TagFits x.tag) extents.now }
{
    for i in 0..extents.len() {
        tag_fits(&extents[i].tag);
    }
}

/// So do those of the records in a log.
fn records_fit(log: &EventLog)
    ensures { All (λ (e : Event). TagFits e.extent.tag) log.now.records }
{
    for index in 0..log.len() {
        tag_fits(&log.at(index).extent.tag);
    }
}

/// So do open tags.
fn entries_fit(tags: &Tags)
    ensures { All (λ (e : TagEntry). TagFits e.tag) tags.now.entries }
{
    for index in 0..tags.len() {
        tag_fits(&tags.at(index).tag);
    }
}

/// So does a tag.
fn tag_fits(tag: &Tag)
    ensures { TagFits tag.now }
{
    let _bytes = tag.0;
}
