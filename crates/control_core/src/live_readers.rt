//! What a control without entries tells of its device, by every journal that leads to what it keeps: blocks, extents,
//! granules, tags and logs.

ghost use Rattle.control_core.specs.HeldExtents.{AreHeld};
ghost use Rattle.control_core.specs.Pasts.{ByEveryPast};
ghost use Rattle.device_commands.specs.device_rules.specs.Adding.{is_free_now, present as present_in, region_free_blocks as blocks_free};
ghost use Rattle.device_commands.specs.device_rules.specs.Counts.{dirty_count, extent_count, free_count, granules_held, missed_of, records_of};
ghost use Rattle.device_commands.specs.device_rules.specs.Hosts.{accepted_of, held_of, offers_of};
ghost use Rattle.device_commands.specs.device_rules.specs.Logs.{log_of};
ghost use Rattle.device_commands.specs.device_rules.specs.TagCommands.{tag_seen};
ghost use Rattle.device_commands.specs.device_rules.specs.Tags.{all_granules, open_tags, status};
ghost use Rattle.manager_commands.specs.device_state.specs.StateAfter.{part_of};
ghost use Rattle.manager_commands.specs.device_state.specs.Updates.{IsOfLog, log_in};
ghost use Rattle.event_log.specs.Logs.{places_in, state_of};
ghost use Rattle.device_commands.specs.device_rules.specs.GranuleCells.{status_of};
ghost use Rattle.journal_core.specs.Entries.{effects};
ghost use Rattle.journal_core.specs.Holders.{holds};
ghost use Rattle.journal_core.specs.declared.outcome.HeldKind.{HeldKind};
ghost use Rattle.extent_list.specs.media_map.specs.Places.{run_of as run_with};
ghost use Rattle.extent_list.specs.media_map.specs.region_config.specs.Granules.{granule_total};
ghost use Rattle.std.specs.Prelude.{◌≡◌, ◌<◌, Some, length, map, slice_get, sum_by};

use crate::live::LiveControl;
use cci_codec::dcd_base::{Extent, Granule, HostId, LogId, RegionId, TagView, host_bits};
use device_commands::run_of;
use event_log::EventLog;
use event_records::Event;
use extent_list::media_map::region_config::Config;
use selection::granule_map::GranuleMap;

impl LiveControl {
    /// The configuration with the present block size of each region; `first_config` answers the first ones.
    pub fn config(&self) -> &Config
        ensures { ByEveryPast self.now (λ past. result.now ≡ present_in self.now.config (effects past)) }
    {
        &self.state.present
    }

    /// The extents that the host has accepted, in the order of its list.
    pub fn accepted(&self, host: HostId) -> &[Extent]
        requires { host < self.now.config.hosts }
        ensures { ByEveryPast self.now (λ past. result.now ≡ accepted_of self.now.config host (effects past)) }
    {
        self.state.part(host).lists.accepted().as_slice()
    }

    /// How many offers the host has not answered.
    pub fn offers(&self, host: HostId) -> usize
        requires { host < self.now.config.hosts }
        ensures { ByEveryPast self.now (λ past. result ≡ length (offers_of host (effects past))) }
    {
        self.state.part(host).lists.offer_count()
    }

    /// The extents of an offer that the host has not answered, the oldest at 0.
    pub fn offer(&self, host: HostId, index: usize) -> &[Extent]
        requires host { host < self.now.config.hosts }
        requires index { index < length (part_of self.now.state host).lists.offers }
        ensures { ByEveryPast self.now (λ past. slice_get (offers_of host (effects past)) index ≡ Some result.now) }
    {
        self.state.part(host).lists.offer_at(index)
    }

    /// The extents that the host's responses with More hold so far.
    pub fn held_responses(&self, host: HostId) -> &[Extent]
        requires { host < self.now.config.hosts }
        ensures { ByEveryPast self.now (λ past. result.now ≡ held_of host HeldKind.Responses (effects past)) }
    {
        self.state.part(host).lists.responses()
    }

    /// The extents that the host's releases with More hold so far.
    pub fn held_releases(&self, host: HostId) -> &[Extent]
        requires { host < self.now.config.hosts }
        ensures { ByEveryPast self.now (λ past. result.now ≡ held_of host HeldKind.Releases (effects past)) }
    {
        self.state.part(host).lists.releases()
    }

    /// How many extents the host has accepted.
    pub fn extents(&self, host: HostId) -> u32
        requires { host < self.now.config.hosts }
        ensures { ByEveryPast self.now (λ past. result ≡ extent_count self.now.config host (effects past)) }
    {
        self.state.part(host).lists.accepted().len() as u32
    }

    /// How many granules the host's accepted extents have.
    pub fn granules_held(&self, host: HostId) -> u32
        requires { host < self.now.config.hosts }
        ensures { ByEveryPast self.now (λ past. result ≡ granules_held self.now.config host (effects past)) }
    {
        granules_in(
            &self.config,
            host,
            self.state.part(host).lists.accepted().as_slice(),
        )
    }

    /// Whether the host holds the granule.
    #[inline(always)]
    pub fn holds(&self, host: HostId, granule: Granule) -> bool
        requires host { host < self.now.config.hosts }
        requires granule { granule < granule_total self.now.config }
        ensures { ByEveryPast self.now (λ past. result ≡ holds host granule (effects past)) }
    {
        // There are 16 hosts at most.
        let _hosts = self.config.hosts();
        host_bits::has(self.state.holders.at(granule), host)
    }

    /// The state of each granule, in the order of the granules.
    ///
    /// Of a granule that is offered, held or tagged the state names a host or a tag, and of that the clause says nothing:
    /// the accepted extents and the offers of the hosts tell it.
    pub fn states(&self) -> &GranuleMap
        ensures { ByEveryPast self.now (λ past. map status_of result.now.states ≡ map (λ g. status self.now.config g (effects past)) (all_granules self.now.config)) }
    {
        self.state.granules.states()
    }

    /// How many granules are free.
    pub fn free(&self) -> u32
        ensures { ByEveryPast self.now (λ past. result ≡ free_count self.now.config (effects past)) }
    {
        self.state.granules.free()
    }

    /// How many blocks of the region are free: blocks of its present size.
    pub fn free_blocks(&self, region: RegionId) -> u32
        requires { region < length self.now.config.regions }
        ensures { ByEveryPast self.now (λ past. result ≡ blocks_free (present_in self.now.config (effects past)) (is_free_now self.now.config (effects past)) region) }
    {
        let present = &self.state.present;
        let area = present.granules_of(region);
        let per_block = present.per_block(region);
        self.state.granules.states().free_blocks(area, per_block)
    }

    /// How many granules are dirty.
    pub fn dirty(&self) -> u32
        ensures { ByEveryPast self.now (λ past. result ≡ dirty_count self.now.config (effects past)) }
    {
        self.state.granules.dirty()
    }

    /// How many tags are live.
    pub fn tags(&self) -> usize
        ensures { ByEveryPast self.now (λ past. result ≡ length (open_tags self.now.config (effects past))) }
    {
        self.state.tags.len()
    }

    /// What the manager is shown of a live tag, in the order of opening.
    pub fn tag(&self, index: usize) -> TagView
        requires { index < length self.now.state.tags.entries }
        ensures { ByEveryPast self.now (λ past. slice_get (map (tag_seen self.now.config (effects past)) (open_tags self.now.config (effects past))) index ≡ Some result) }
    {
        self.state.tags.at(index)
    }

    /// The log: its records, the handle of the next one and how many found it full.
    pub fn log(&self, log: LogId) -> &EventLog
        requires { IsOfLog self.now.config.hosts log }
        ensures { ByEveryPast self.now (λ past. result.now ≡ state_of (places_in log) (log_of log (effects past))) }
    {
        self.state.log(log)
    }

    /// How many records are in the log.
    pub fn records(&self, log: LogId) -> u32
        requires { IsOfLog self.now.config.hosts log }
        ensures { ByEveryPast self.now (λ past. result ≡ length (records_of log (effects past))) }
    {
        self.state.log(log).len()
    }

    /// A record of the log, the oldest at 0.
    pub fn record(&self, log: LogId, index: u32) -> Event
        requires log { IsOfLog self.now.config.hosts log }
        requires index { index < length (log_in self.now.state log).records }
        ensures { ByEveryPast self.now (λ past. slice_get (records_of log (effects past)) index ≡ Some result) }
    {
        self.state.log(log).at(index)
    }

    /// How many records found the log full since that count was last reset, up to 65,535.
    pub fn missed(&self, log: LogId) -> u16
        requires { IsOfLog self.now.config.hosts log }
        ensures { ByEveryPast self.now (λ past. result ≡ missed_of log (effects past)) }
    {
        self.state.log(log).missed()
    }
}

/// How many granules the extents have.
fn granules_in(config: &Config, host: HostId, extents: &[Extent]) -> u32
    requires host { host < config.now.hosts }
    requires held { AreHeld config.now host extents.now }
    ensures { result ≡ sum_by (λ x. (run_with config.now host x).count) extents.now }
{
    let mut granules = 0;
    for i in 0..extents.len() {
        granules += run_of(config, host, &extents[i]).count;
    }
    granules
}
