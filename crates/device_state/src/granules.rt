//! What effects make of the granules.

ghost use Rattle.device_state.specs.Granules.{held_by_taking, AreChanged, IsLastRegion, is_private, offered_in, soiled_by_taking, taken_in};
ghost use Rattle.device_state.specs.Entered.{oldest_in, runs_in};
ghost use Rattle.device_rules.specs.GranuleCells.{ended_run, in_run, left, offered_extent, offered_run, soiled_run, taken, unoffered_extent};
ghost use Rattle.offer_core.specs.Offerings.{oldest_of};
ghost use Rattle.extent_list.specs.media_map.specs.region_config.specs.Granules.{granule_total};
ghost use Rattle.std.specs.Prelude.{◌≡◌, ◌<◌, Some, fold, length, slice_index_or};

use crate::parts::HostPart;
use crate::regions::{LastRegion, RegionFlags};
use crate::state::State;
use cci_codec::dcd_base::{Extent, HostId, Run, Tag};
use extent_list::media_map::region_config::Config;
use granule_map::{GranuleState, GranuleTable};

impl State {
    /// The host's oldest offer is offered to it alone no longer.
    pub(crate) fn unoffer_oldest(&mut self, config: &Config, last: &mut LastRegion, host: HostId)
        requires hosts { length self.old.hosts.items ≡ config.now.hosts }
        requires granules { length self.old.granules.states ≡ granule_total config.now }
        requires last { IsLastRegion config.now last.old }
        requires host { host < config.now.hosts }
        ensures last { IsLastRegion config.now last.new }
        ensures cells { AreChanged (λ g cell. fold (unoffered_extent config.now host g) cell (oldest_in self.old host)) self.old.granules self.new.granules }
        ensures kept { self.new ≡ record self.old { granules = self.new.granules } }
    {
        let offer = oldest_in(self.hosts.as_slice(), host);
        unoffer_all(&mut self.granules, config, last, host, offer);
    }

    /// The runs of the tag, where it is open, belong to it no more.
    pub(crate) fn settle_tag(&mut self, tag: &Tag)
        ensures cells { AreChanged (λ g cell. fold (ended_run g) cell (runs_in self.old tag.now)) self.old.granules self.new.granules }
        ensures kept { self.new ≡ record self.old { granules = self.new.granules } }
    {
        if let Some(entry) = self.tags.find(tag) {
            settle_all(&mut self.granules, entry.runs.as_slice());
        }
    }
}

/// The extents of the host's oldest offer.
fn oldest_in(hosts: &[HostPart], host: HostId) -> &[Extent]
    requires { host < length hosts.now }
    ensures { (d : HostPart) → result.now ≡ oldest_of (slice_index_or hosts.now host d).lists.offers }
{
    hosts[usize::from(host.0)].lists.oldest()
}

/// Whether the first granule is one of the device, in a region that hosts cannot share.
fn is_private(config: &Config, last: &mut LastRegion, run: &Run) -> bool
    requires { IsLastRegion config.now last.old }
    ensures last { IsLastRegion config.now last.new }
    ensures private { result ≡ is_private config.now run.now }
{
    last.goes_to(config, run.first) && !last.flags.shareable
}

/// The extents are offered to the host: to it alone, or under their tag where hosts can share them.
pub(crate) fn offer_all(
    granules: &mut GranuleTable,
    config: &Config,
    last: &mut LastRegion,
    host: HostId,
    extents: &[Extent],
)
    requires granules { length granules.old.states ≡ granule_total config.now }
    requires host { host < config.now.hosts }
    requires last { IsLastRegion config.now last.old }
    ensures last { IsLastRegion config.now last.new }
    ensures offered { AreChanged (λ g cell. fold (offered_extent config.now host g) cell extents.now) granules.old granules.new }
{
    for i in 0..extents.len() {
        offer_one(granules, config, last, host, &extents[i]);
    }
}

/// One extent is offered.
fn offer_one(
    granules: &mut GranuleTable,
    config: &Config,
    last: &mut LastRegion,
    host: HostId,
    extent: &Extent,
)
    requires granules { length granules.old.states ≡ granule_total config.now }
    requires host { host < config.now.hosts }
    requires last { IsLastRegion config.now last.old }
    ensures last { IsLastRegion config.now last.new }
    ensures offered { AreChanged (λ g cell. offered_extent config.now host g cell extent.now) granules.old granules.new }
{
    if let Some(run) = extent_list::media_map::run_of(config, host, extent.start, extent.length) {
        offer_run(granules, config, last, host, &extent.tag, &run);
    }
}

/// The run of an extent is offered.
fn offer_run(
    granules: &mut GranuleTable,
    config: &Config,
    last: &mut LastRegion,
    host: HostId,
    tag: &Tag,
    run: &Run,
)
    requires granules { length granules.old.states ≡ granule_total config.now }
    requires last { IsLastRegion config.now last.old }
    ensures last { IsLastRegion config.now last.new }
    ensures offered { AreChanged (λ g cell. offered_run config.now host tag.now g cell (Some run.now)) granules.old granules.new }
{
    if last.goes_to(config, run.first) {
        offer_in(granules, &last.flags, host, tag, run);
    }
}

/// A run of such a region is offered: to the host alone, or under its tag where hosts can share it.
fn offer_in(granules: &mut GranuleTable, flags: &RegionFlags, host: HostId, tag: &Tag, run: &Run)
    ensures { AreChanged (in_run run.now (offered_in flags.now host tag.now)) granules.old granules.new }
{
    if flags.shareable {
        granules.give(*run, GranuleState::Tagged(*tag));
    } else {
        granules.give(*run, GranuleState::Reserved(host));
    }
}

/// The extents are offered to the host alone no longer.
fn unoffer_all(
    granules: &mut GranuleTable,
    config: &Config,
    last: &mut LastRegion,
    host: HostId,
    extents: &[Extent],
)
    requires granules { length granules.old.states ≡ granule_total config.now }
    requires host { host < config.now.hosts }
    requires last { IsLastRegion config.now last.old }
    ensures last { IsLastRegion config.now last.new }
    ensures unoffered { AreChanged (λ g cell. fold (unoffered_extent config.now host g) cell extents.now) granules.old granules.new }
{
    for i in 0..extents.len() {
        unoffer_one(granules, config, last, host, &extents[i]);
    }
}

/// One extent is offered no longer.
fn unoffer_one(
    granules: &mut GranuleTable,
    config: &Config,
    last: &mut LastRegion,
    host: HostId,
    extent: &Extent,
)
    requires granules { length granules.old.states ≡ granule_total config.now }
    requires host { host < config.now.hosts }
    requires last { IsLastRegion config.now last.old }
    ensures last { IsLastRegion config.now last.new }
    ensures unoffered { AreChanged (λ g cell. unoffered_extent config.now host g cell extent.now) granules.old granules.new }
{
    if let Some(run) = extent_list::media_map::run_of(config, host, extent.start, extent.length) {
        leave(granules, config, last, &run);
    }
}

/// The host takes the run.
pub(crate) fn take(
    granules: &mut GranuleTable,
    config: &Config,
    last: &mut LastRegion,
    host: HostId,
    run: &Run,
)
    requires granules { length granules.old.states ≡ granule_total config.now }
    requires last { IsLastRegion config.now last.old }
    ensures last { IsLastRegion config.now last.new }
    ensures taken { AreChanged (in_run run.now (taken config.now host run.now)) granules.old granules.new }
{
    if last.goes_to(config, run.first) {
        take_in(granules, &last.flags, host, run);
    }
}

/// The host takes a run of such a region.
fn take_in(granules: &mut GranuleTable, flags: &RegionFlags, host: HostId, run: &Run)
    ensures { AreChanged (in_run run.now (taken_in flags.now host)) granules.old granules.new }
{
    soil_taken(granules, flags, run);
    hold_taken(granules, flags, host, run);
}

/// What is taken has to be zeroed where its region sanitizes.
fn soil_taken(granules: &mut GranuleTable, flags: &RegionFlags, run: &Run)
    ensures { AreChanged (in_run run.now (soiled_by_taking flags.now)) granules.old granules.new }
{
    if flags.sanitize {
        granules.soil(*run);
    }
}

/// What is taken is held, unless hosts can share it.
fn hold_taken(granules: &mut GranuleTable, flags: &RegionFlags, host: HostId, run: &Run)
    ensures { AreChanged (in_run run.now (held_by_taking flags.now host)) granules.old granules.new }
{
    if !flags.shareable {
        granules.give(*run, GranuleState::Held(host));
    }
}

/// The run is one host's no longer.
pub(crate) fn leave(granules: &mut GranuleTable, config: &Config, last: &mut LastRegion, run: &Run)
    requires granules { length granules.old.states ≡ granule_total config.now }
    requires last { IsLastRegion config.now last.old }
    ensures last { IsLastRegion config.now last.new }
    ensures left { AreChanged (in_run run.now (left config.now run.now)) granules.old granules.new }
{
    if is_private(config, last, run) {
        granules.settle(*run);
    }
}

/// The run has to be zeroed: at once where no tag has it.
pub(crate) fn soil(granules: &mut GranuleTable, config: &Config, last: &mut LastRegion, run: &Run)
    requires granules { length granules.old.states ≡ granule_total config.now }
    requires last { IsLastRegion config.now last.old }
    ensures last { IsLastRegion config.now last.new }
    ensures soiled { AreChanged (in_run run.now (soiled_run config.now run.now)) granules.old granules.new }
{
    granules.soil(*run);
    leave(granules, config, last, run);
}

/// The runs belong to no tag any more.
fn settle_all(granules: &mut GranuleTable, runs: &[Run])
    ensures { AreChanged (λ g cell. fold (ended_run g) cell runs.now) granules.old granules.new }
{
    for i in 0..runs.len() {
        granules.settle(runs[i]);
    }
}
