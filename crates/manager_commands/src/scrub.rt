//! A scrub: one turn of the sanitizer (profile). It breaks no rule.
//! Outcome: `scrub_answer`, device_rules/specs/Answers.antt. It has no bytes.

ghost use Rattle.manager_commands.specs.Scrub.{IsZeroed};
ghost use Rattle.device_state.specs.StateAfter.{IsReached};
ghost use Rattle.journal_core.specs.declared.outcome.Effect.{Effect};
ghost use Rattle.sanitizer.specs.Turns.{granules_of_runs};
ghost use Rattle.std.specs.Prelude.{◌≡◌, ◌<◌, ◌^◌, IfOk, map};

use device_state::State;
use event_records::dcd_base::{NoMemory, Run};
use extent_list::media_map::region_config::Config;
use journal_core::{Effect, Effects};
use sanitizer::dirty_runs;
use std::alloc::Global;

/// What a scrub zeroes.
#[derive(Drop)]
pub struct Zeroed {
    /// How many granules.
    pub granules: u32,
    /// A `Zero` for each run of them.
    pub changes: Effects,
}

/// Zeroes the lowest dirty granules, so many or all where there are fewer.
pub fn zero_dirty(
    alloc: Global,
    config: &Config,
    state: &State,
    most: u16,
) -> Result<Zeroed, NoMemory>
    requires reached { IsReached config.now state.now }
    ensures { IfOk result (IsZeroed config.now state.now most) }
{
    // No more are looked for than there are.
    let wanted = u32::from(most).min(state.granules.dirty());
    let runs = dirty_runs(alloc, state.granules.states(), config, wanted)?;
    Ok(Zeroed {
        granules: granules_of_runs(runs.as_slice()),
        changes: zeroes(alloc, runs.as_slice())?,
    })
}

/// How many granules the runs have.
fn granules_of_runs(runs: &[Run]) -> u32
    requires fits { granules_of_runs runs.now < 2 ^ 32 }
    ensures { result ≡ granules_of_runs runs.now }
{
    let mut granules = 0;
    for i in 0..runs.len() {
        granules += runs[i].count;
    }
    granules
}

/// Each run is zeroed.
fn zeroes(alloc: Global, runs: &[Run]) -> Result<Effects, NoMemory>
    ensures { IfOk result (λ effects. effects ≡ map Effect.Zero runs.now) }
{
    let mut effects = Vec::with_capacity(alloc, runs.len())?;
    for i in 0..runs.len() {
        effects.push_reserved(Effect::Zero(runs[i]));
    }
    Ok(Effects::from_vec(alloc, effects))
}
