//! The requests of the Fabric Manager: which command each is.

ghost use Rattle.manager_commands.specs.ManagerMessages.{FewCleared, ManagerAnswers};
ghost use Rattle.device_state.specs.StateAfter.{IsReached};

use crate::dynamic_capacity_add_reference::add_reference;
use crate::dynamic_capacity_list_tags::list_tags;
use crate::dynamic_capacity_remove_reference::remove_reference;
use crate::get_dc_region_extent_lists::get_extent_lists;
use crate::get_dcd_info::get_info;
use crate::get_host_dc_region_configuration::get_regions;
use crate::initiate_dynamic_capacity_add::{AddRequest, add};
use crate::initiate_dynamic_capacity_release::{RemoveRequest, remove};
use crate::set_dc_region_configuration::set_region;
use device_commands::{Draft, clear_events, get_events};
use device_state::State;
use event_records::dcd_base::LogId;
use extent_list::dcd_codes::Refusal;
use extent_list::media_map::region_config::Config;
use fm_payloads::FmRequest;
use std::alloc::Global;

/// The draft of a request, or the first rule that it breaks.
pub fn manager_draft(
    alloc: Global,
    config: &Config,
    state: &State,
    asked: &FmRequest,
) -> Result<Draft, Refusal>
    requires reached { IsReached config.now state.now }
    requires few { FewCleared asked.now }
    ensures { ManagerAnswers config.now state.now asked.now result }
{
    match asked {
        FmRequest::GetEvents { log } => get_events(alloc, *log, &state.manager),
        FmRequest::ClearEvents { log, all, handles } => {
            clear_events(alloc, LogId::Manager, *log, &state.manager, *all, handles)
        }
        FmRequest::GetInfo => get_info(alloc, config, state),
        FmRequest::GetRegions { host, count, first } => {
            get_regions(alloc, config, state, *host, *count, *first)
        }
        FmRequest::SetRegion {
            region,
            sanitize,
            block,
        } => set_region(alloc, config, state, *region, *sanitize, *block),
        FmRequest::GetExtentLists { host, count, first } => {
            get_extent_lists(alloc, config, state, *host, *count, *first)
        }
        FmRequest::Add {
            host,
            policy,
            region,
            length,
            tag,
            extents,
        } => {
            let request = AddRequest {
                host: *host,
                policy: *policy,
                region: *region,
                length: *length,
                tag: *tag,
            };
            add(alloc, config, state, &request, extents)
        }
        FmRequest::Remove {
            host,
            flags,
            region,
            length,
            tag,
            extents,
        } => {
            let request = RemoveRequest {
                host: *host,
                flags: *flags,
                region: *region,
                length: *length,
                tag: *tag,
            };
            remove(alloc, config, state, &request, extents)
        }
        FmRequest::AddReference { tag } => add_reference(alloc, config, state, tag),
        FmRequest::RemoveReference { tag } => remove_reference(alloc, config, state, tag),
        FmRequest::ListTags { first, count } => list_tags(alloc, config, state, *first, *count),
    }
}
