//! What the device keeps at a time.

ghost use Rattle.device_state.specs.StateAfter.{IsStateAfter, no_part, part_of};
ghost use Rattle.device_state.specs.Updates.{IsOfLog, log_in};
ghost use Rattle.std.specs.Prelude.{◌≡◌, ◌<◌, [], IfOk, length, replicate};

use crate::holders::Holders;
use crate::parts::HostPart;
use cci_codec::dcd_base::limits::{HOST_RECORDS, MANAGER_RECORDS};
use cci_codec::dcd_base::{HostId, LogId, NoMemory};
use event_log::EventLog;
use extent_list::media_map::region_config::Config;
use granule_map::GranuleTable;
use host_lists::HostLists;
use std::alloc::Global;
use tag_refs::Tags;

/// The present configuration, what is kept of each host, the manager's log, the granules and the open tags.
#[derive(Drop)]
pub struct State {
    /// The configuration with the present block sizes.
    pub present: Config,
    /// One part for each host.
    pub hosts: Vec<HostPart>,
    /// The Fabric Manager's log.
    pub manager: EventLog,
    /// The state of each granule, and whether it has to be zeroed.
    pub granules: GranuleTable,
    /// Who holds each granule.
    pub holders: Holders,
    /// The open tags.
    pub tags: Tags,
}

impl State {
    /// The state of a fresh device.
    pub fn new(alloc: Global, config: &Config) -> Result<State, NoMemory>
        ensures { IfOk result (λ state. IsStateAfter config.now [] state) }
    {
        Ok(State {
            present: config.copy()?,
            hosts: fresh_parts(alloc, config.hosts())?,
            manager: EventLog::new(alloc, MANAGER_RECORDS)?,
            granules: GranuleTable::new(alloc, config.granules())?,
            holders: Holders::new(alloc, config.granules())?,
            tags: Tags::new(alloc),
        })
    }

    /// What is kept of a host.
    pub fn part(&self, host: HostId) -> &HostPart
        requires { host < length self.now.hosts.items }
        ensures { result.now ≡ part_of self.now host }
    {
        &self.hosts[usize::from(host.0)]
    }

    /// The log.
    pub fn log(&self, log: LogId) -> &EventLog
        requires { IsOfLog (length self.now.hosts.items) log }
        ensures { result.now ≡ log_in self.now log }
    {
        match log {
            LogId::Host(host) => &self.hosts[usize::from(host.0)].log,
            LogId::Manager => &self.manager,
        }
    }
}

/// The parts of so many hosts that have nothing yet.
fn fresh_parts(alloc: Global, hosts: u8) -> Result<Vec<HostPart>, NoMemory>
    ensures { IfOk result (λ parts. parts.items ≡ replicate hosts no_part) }
{
    let mut parts = Vec::new(alloc);
    for _ in 0..hosts {
        parts.push(fresh_part(alloc)?)?;
    }
    Ok(parts)
}

/// The part of a host that has nothing yet.
fn fresh_part(alloc: Global) -> Result<HostPart, NoMemory>
    ensures { IfOk result (λ part. part ≡ no_part) }
{
    Ok(HostPart {
        lists: HostLists::new(alloc)?,
        log: EventLog::new(alloc, HOST_RECORDS)?,
    })
}
