//! A message of a host: which command it is, and what that drafts.

ghost use Rattle.host_commands.specs.HostMessages.{DraftsHost};
ghost use Rattle.cci_codec.specs.dcd_base.specs.declared.steps.LogId.{LogId};
ghost use Rattle.extent_list.specs.HostLists.{extent_total};
ghost use Rattle.std.specs.Prelude.{◌≡◌, ◌<◌, ◌≤◌};

use crate::add_dynamic_capacity_response::add_response;
use crate::get_dynamic_capacity_configuration::get_configuration;
use crate::get_dynamic_capacity_extent_list::get_extents;
use crate::release_dynamic_capacity::give_back;
use cci_codec::Request;
use cci_codec::dcd_base::{HostId, LogId, NoMemory};
use device_commands::host_lists::HostLists;
use device_commands::{Draft, clear_events, get_events};
use event_log::EventLog;
use extent_list::dcd_codes::{Refusal, Rule};
use extent_list::media_map::region_config::Config;
use host_payloads::{HostRequest, PayloadFault, decode};
use std::alloc::Global;

/// The draft of a message of the host, or the first rule that it breaks.
///
/// `config` is the configuration that the device was made with, `present` the one with the present blocks; `lists` and
/// `log` are what the device keeps of the host. The lists have 64 extents at most.
pub fn host_draft(
    alloc: Global,
    config: &Config,
    present: &Config,
    host: HostId,
    lists: &HostLists,
    log: &EventLog,
    request: &Request,
) -> Result<Draft, Refusal>
    requires host { host < config.now.hosts }
    requires hosts { present.now.hosts ≡ config.now.hosts }
    requires few { extent_total lists.now ≤ 64 }
    ensures { DraftsHost config.now present.now host lists.now log.now request.now result }
{
    match decode(alloc, request.opcode, request.payload.as_slice()) {
        Ok(HostRequest::GetEvents { log: number }) => get_events(alloc, number, log),
        Ok(
            HostRequest::ClearEvents {
                log: number,
                all,
                handles,
            },
        ) => clear_events(alloc, LogId::Host(host), number, log, all, &handles),
        Ok(HostRequest::GetConfiguration { count, first }) => {
            get_configuration(alloc, present, host, lists, count, first)
        }
        Ok(HostRequest::GetExtents { count, first }) => get_extents(alloc, lists, count, first),
        Ok(HostRequest::AddResponse { more, extents }) => {
            add_response(alloc, config, present, host, lists, more, &extents)
        }
        Ok(HostRequest::GiveBack { more, extents }) => {
            give_back(alloc, config, present, host, lists, more, &extents)
        }
        Err(PayloadFault::UnknownOpcode(opcode)) => {
            Err(Refusal::Broken(Rule::UnknownOpcode(opcode)))
        }
        Err(PayloadFault::WrongLength { need, have }) => {
            Err(Refusal::Broken(Rule::WrongLength { need, have }))
        }
        Err(PayloadFault::NoMemory) => Err(Refusal::NoMemory),
    }
}
