//! Which extents an offer has, by the policy of 5604h.

ghost use Rattle.manager_commands.specs.InitiateDynamicCapacityAdd.{length_rule, length_runs, new_offer, policy_rule, tagged_runs};
ghost use Rattle.device_state.specs.Entered.{runs_in};
ghost use Rattle.extent_list.specs.dcd_codes.specs.Rules.{ByRow};
ghost use Rattle.device_state.specs.device_rules.specs.Adding.{with_tag};
ghost use Rattle.extent_list.specs.media_map.specs.Places.{IsRun, extent_of};
ghost use Rattle.extent_list.specs.media_map.specs.region_config.specs.Granules.{granule_total};
ghost use Rattle.std.specs.Prelude.{◌≡◌, ◌^◌, ◌<◌, ◌≤◌, All, IfOk, if◌then◌else◌, length};

use crate::initiate_dynamic_capacity_add::{CONTIGUOUS, PRESCRIPTIVE};
use device_state::State;
use event_records::dcd_base::{Extent, Extents, HostId, NoMemory, RegionId, Run, Runs, Tag};
use extent_list::dcd_codes::{Refusal, Rule};
use extent_list::media_map::extent_of;
use std::alloc::Global;

/// What is asked for, where host, policy and region are there.
#[derive(Clone, Copy, Debug)]
pub(crate) struct Asked {
    pub(crate) host: HostId,
    pub(crate) policy: u8,
    pub(crate) region: RegionId,
    pub(crate) length: u64,
    pub(crate) tag: Tag,
}

/// The extents of the offer, with its tag and numbered where the region is shareable.
pub(crate) fn new_extents(
    alloc: Global,
    state: &State,
    asked: &Asked,
    list: &Extents,
) -> Result<Extents, Refusal>
    requires host { asked.now.host < state.now.present.hosts }
    requires region { asked.now.region < length state.now.present.regions }
    requires granules { length state.now.granules.states ≡ granule_total state.now.present }
    requires runs { All (IsRun state.now.present) (runs_in state.now asked.now.tag) }
    requires few_runs { length (runs_in state.now asked.now.tag) ≤ 4096 }
    ensures row { ByRow (policy_rule state.now asked.now list.now) (λ new. new ≡ new_offer state.now asked.now list.now) result }
    ensures few { IfOk result (λ new. length new < 2 ^ 16) }
{
    let shareable = state.present.region(asked.region).shareable;
    if asked.policy == PRESCRIPTIVE {
        let (map, present) = (state.granules.states(), &state.present);
        match selection::prescriptive_rule(map, present, asked.host, asked.region, list) {
            None => Ok(with_tag(alloc, shareable, &asked.tag, list.as_slice())?),
            Some(rule) => Err(Refusal::Broken(rule)),
        }
    } else if asked.policy > CONTIGUOUS {
        Ok(shared(alloc, state, asked, shareable)?)
    } else {
        free_extents(alloc, state, asked, shareable)
    }
}

/// The granules of the tag, as extents of the host with the tag.
fn shared(alloc: Global, state: &State, asked: &Asked, shareable: bool) -> Result<Extents, NoMemory>
    requires host { asked.now.host < state.now.present.hosts }
    requires runs { All (IsRun state.now.present) (runs_in state.now asked.now.tag) }
    requires few { length (runs_in state.now asked.now.tag) ≤ 4096 }
    ensures { IfOk result (λ xs. xs ≡ tagged_runs state.now asked.now shareable (runs_in state.now asked.now.tag)) }
{
    match state.tags.find(&asked.tag) {
        Some(entry) => tagged_runs(alloc, state, asked, shareable, entry.runs.as_slice()),
        None => Ok(Extents::new(alloc)),
    }
}

/// So many bytes of free blocks, as extents of the host with the tag.
fn free_extents(
    alloc: Global,
    state: &State,
    asked: &Asked,
    shareable: bool,
) -> Result<Extents, Refusal>
    requires host { asked.now.host < state.now.present.hosts }
    requires region { asked.now.region < length state.now.present.regions }
    requires granules { length state.now.granules.states ≡ granule_total state.now.present }
    ensures row { ByRow (length_rule state.now asked.now) (λ xs. xs ≡ tagged_runs state.now asked.now shareable (length_runs state.now asked.now)) result }
    ensures few { IfOk result (λ xs. length xs ≤ 4096) }
{
    // That runs are of the device rests on what every configuration keeps.
    let _regions = state.present.regions();
    let block = state.present.region(asked.region).block;
    if asked.length == 0 || asked.length % block != 0 {
        return Err(Refusal::Broken(Rule::BadLength(asked.length)));
    }
    let blocks = asked.length / block;
    let area = state.present.granules_of(asked.region);
    let per_block = state.present.per_block(asked.region);
    let map = state.granules.states();
    let memory = Runs::new(alloc);
    let found = if asked.policy == 0 {
        selection::free(map, area, per_block, blocks, memory)
    } else {
        selection::contiguous(map, area, per_block, blocks, memory)
    };
    match found {
        Ok(runs) => {
            let extents = tagged_runs(alloc, state, asked, shareable, runs.as_slice())?;
            Ok(extents)
        }
        Err(refusal) => Err(refusal),
    }
}

/// Runs of granules as extents of the host with the tag, numbered from 1 where hosts can share it.
fn tagged_runs(
    alloc: Global,
    state: &State,
    asked: &Asked,
    shareable: bool,
    runs: &[Run],
) -> Result<Extents, NoMemory>
    requires host { asked.now.host < state.now.present.hosts }
    requires runs { All (IsRun state.now.present) runs.now }
    requires few { length runs.now ≤ 4096 }
    ensures { IfOk result (λ xs. xs ≡ tagged_runs state.now asked.now shareable runs.now) }
{
    let mut extents = Vec::with_capacity(alloc, runs.len())?;
    for i in 0..runs.len() {
        extents.push_reserved(tagged_run(state, asked, shareable, i as u16 + 1, &runs[i]));
    }
    Ok(Extents::from_vec(alloc, extents))
}

/// A run of granules as an extent of the host with the tag, and with its number where hosts can share it.
#[inline(always)]
fn tagged_run(state: &State, asked: &Asked, shareable: bool, number: u16, run: &Run) -> Extent
    requires host { asked.now.host < state.now.present.hosts }
    requires run { IsRun state.now.present run.now }
    ensures { result ≡ extent_of state.now.present asked.now.host run.now asked.now.tag (if shareable then number else 0) }
{
    let sequence = if shareable { number } else { 0 };
    extent_of(&state.present, asked.host, run, asked.tag, sequence)
}

/// Each extent with the tag, and numbered from 1 where hosts can share it.
fn with_tag(
    alloc: Global,
    shareable: bool,
    tag: &Tag,
    extents: &[Extent],
) -> Result<Extents, NoMemory>
    requires { length extents.now ≤ 4096 }
    ensures { IfOk result (λ xs. xs ≡ with_tag shareable tag.now extents.now) }
{
    let mut tagged = Vec::with_capacity(alloc, extents.len())?;
    for i in 0..extents.len() {
        tagged.push_reserved(tagged_one(shareable, tag, i as u16 + 1, &extents[i]));
    }
    Ok(Extents::from_vec(alloc, tagged))
}

/// The extent with the tag, and with its number where hosts can share it.
fn tagged_one(shareable: bool, tag: &Tag, number: u16, extent: &Extent) -> Extent
    ensures { result ≡ record extent.now { tag = tag.now; sequence = if shareable then number else 0 } }
{
    Extent {
        tag: *tag,
        sequence: if shareable { number } else { 0 },
        ..*extent
    }
}
