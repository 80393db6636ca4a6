//! What a control tells of its device: blocks, extents, granules and logs.

ghost use Rattle.control_core.specs.Pasts.{IsPast};
ghost use Rattle.device_commands.specs.device_rules.specs.Adding.{is_free_now, present as present_in, region_free_blocks};
ghost use Rattle.device_commands.specs.device_rules.specs.Counts.{dirty_count, extent_count, free_count, granules_held, missed_of, records_of};
ghost use Rattle.device_commands.specs.device_rules.specs.Hosts.{accepted_of, held_of, offers_of};
ghost use Rattle.device_commands.specs.device_rules.specs.Logs.{log_of};
ghost use Rattle.device_commands.specs.device_rules.specs.Tags.{all_granules, status};
ghost use Rattle.manager_commands.specs.device_state.specs.Updates.{IsOfLog};
ghost use Rattle.event_log.specs.Logs.{places_in, state_of};
ghost use Rattle.device_commands.specs.device_rules.specs.GranuleCells.{status_of};
ghost use Rattle.journal_core.specs.Entries.{effects};
ghost use Rattle.journal_core.specs.declared.outcome.HeldKind.{HeldKind};
ghost use Rattle.std.specs.Prelude.{◌≡◌, ◌<◌, Some, length, map, slice_get};

use crate::control::Control;
use crate::live::LiveControl;
use cci_codec::dcd_base::{Extent, HostId, LogId, RegionId};
use event_log::EventLog;
use event_records::Event;
use extent_list::media_map::region_config::Config;
use selection::granule_map::GranuleMap;

impl Control {
    /// What the device keeps, without the entries that led to it.
    pub fn live(&self) -> &LiveControl
        ensures config { result.now.config ≡ self.now.config }
        ensures past { IsPast self.now.config self.now.entries result.now.state }
    {
        &self.live
    }

    /// The configuration with the present block size of each region; `first_config` answers the first ones.
    pub fn config(&self) -> &Config
        ensures { result.now ≡ present_in self.now.config (effects self.now.entries) }
    {
        self.live.config()
    }

    /// The extents that the host has accepted, in the order of its list.
    pub fn accepted(&self, host: HostId) -> &[Extent]
        requires { host < self.now.config.hosts }
        ensures { result.now ≡ accepted_of self.now.config host (effects self.now.entries) }
    {
        self.live.accepted(host)
    }

    /// How many offers the host has not answered.
    pub fn offers(&self, host: HostId) -> usize
        requires { host < self.now.config.hosts }
        ensures { result ≡ length (offers_of host (effects self.now.entries)) }
    {
        self.live.offers(host)
    }

    /// The extents of an offer that the host has not answered, the oldest at 0.
    pub fn offer(&self, host: HostId, index: usize) -> &[Extent]
        requires host { host < self.now.config.hosts }
        requires index { index < length (offers_of host (effects self.now.entries)) }
        ensures { slice_get (offers_of host (effects self.now.entries)) index ≡ Some result.now }
    {
        self.live.offer(host, index)
    }

    /// The extents that the host's responses with More hold so far.
    pub fn held_responses(&self, host: HostId) -> &[Extent]
        requires { host < self.now.config.hosts }
        ensures { result.now ≡ held_of host HeldKind.Responses (effects self.now.entries) }
    {
        self.live.held_responses(host)
    }

    /// The extents that the host's releases with More hold so far.
    pub fn held_releases(&self, host: HostId) -> &[Extent]
        requires { host < self.now.config.hosts }
        ensures { result.now ≡ held_of host HeldKind.Releases (effects self.now.entries) }
    {
        self.live.held_releases(host)
    }

    /// How many extents the host has accepted.
    pub fn extents(&self, host: HostId) -> u32
        requires { host < self.now.config.hosts }
        ensures { result ≡ extent_count self.now.config host (effects self.now.entries) }
    {
        self.live.extents(host)
    }

    /// How many granules the host's accepted extents have.
    pub fn granules_held(&self, host: HostId) -> u32
        requires { host < self.now.config.hosts }
        ensures { result ≡ granules_held self.now.config host (effects self.now.entries) }
    {
        self.live.granules_held(host)
    }

    /// The state of each granule, in the order of the granules.
    ///
    /// Of a granule that is offered, held or tagged the state names a host or a tag, and of that the clause says nothing:
    /// the accepted extents and the offers of the hosts tell it.
    pub fn states(&self) -> &GranuleMap
        ensures { map status_of result.now.states ≡ map (λ g. status self.now.config g (effects self.now.entries)) (all_granules self.now.config) }
    {
        self.live.states()
    }

    /// How many granules are free.
    pub fn free(&self) -> u32
        ensures { result ≡ free_count self.now.config (effects self.now.entries) }
    {
        self.live.free()
    }

    /// How many blocks of the region are free: blocks of its present size.
    pub fn free_blocks(&self, region: RegionId) -> u32
        requires { region < length self.now.config.regions }
        ensures { result ≡ region_free_blocks (present_in self.now.config (effects self.now.entries)) (is_free_now self.now.config (effects self.now.entries)) region }
    {
        self.live.free_blocks(region)
    }

    /// How many granules are dirty.
    pub fn dirty(&self) -> u32
        ensures { result ≡ dirty_count self.now.config (effects self.now.entries) }
    {
        self.live.dirty()
    }

    /// The log: its records, the handle of the next one and how many found it full.
    pub fn log(&self, log: LogId) -> &EventLog
        requires { IsOfLog self.now.config.hosts log }
        ensures { result.now ≡ state_of (places_in log) (log_of log (effects self.now.entries)) }
    {
        self.live.log(log)
    }

    /// How many records are in the log.
    pub fn records(&self, log: LogId) -> u32
        requires { IsOfLog self.now.config.hosts log }
        ensures { result ≡ length (records_of log (effects self.now.entries)) }
    {
        self.live.records(log)
    }

    /// A record of the log, the oldest at 0.
    pub fn record(&self, log: LogId, index: u32) -> Event
        requires log { IsOfLog self.now.config.hosts log }
        requires index { index < length (records_of log (effects self.now.entries)) }
        ensures { slice_get (records_of log (effects self.now.entries)) index ≡ Some result }
    {
        self.live.record(log, index)
    }

    /// How many records found the log full since that count was last reset, up to 65,535.
    pub fn missed(&self, log: LogId) -> u16
        requires { IsOfLog self.now.config.hosts log }
        ensures { result ≡ missed_of log (effects self.now.entries) }
    {
        self.live.missed(log)
    }
}
