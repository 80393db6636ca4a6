//! A turn of the sanitizer.

ghost use Rattle.region_config.specs.dcd_base.specs.Words.{has_in_runs};
ghost use Rattle.granule_map.specs.StateLists.{is_dirty_at};
ghost use Rattle.region_config.specs.Granules.{granule_total};
ghost use Rattle.sanitizer.specs.Turns.{AreFreed, IsInRegion, freed, granules_of_runs, scrub_runs, lowest_dirty};
ghost use Rattle.std.specs.Prelude.{◌≡◌, ◌+◌, ◌≤◌, All, IfOk, IsTrue, OnErr, OnOk, [], length, ℕ};

use crate::search::next_run;
use granule_map::{GranuleMap, GranuleState};
use region_config::Config;
use region_config::dcd_base::{NoMemory, Run, Runs};
use std::alloc::Global;

/// Frees the lowest dirty granules, so many or all where there are fewer, and answers them as the longest runs
/// within regions by rising number (profile).
///
/// Without memory nothing is changed. A granule that is not dirty stays as it is.
pub fn turn(alloc: Global, map: &mut GranuleMap, config: &Config, n: u32) -> Result<Runs, NoMemory>
    requires granules { length map.old.states ≡ granule_total config.now }
    requires spare { n ≤ map.old.spare }
    ensures runs { IfOk result (λ runs. runs ≡ scrub_runs config.now (is_dirty_at map.old.states) n) }
    ensures regions { IfOk result (λ runs. All (IsInRegion config.now) runs) }
    ensures dirty { IfOk result (λ runs. (g : ℕ) → IsTrue (has_in_runs runs g) → IsTrue (is_dirty_at map.old.states g)) }
    ensures states { IfOk result (λ runs. map.new.states ≡ freed map.old.states runs) }
    ensures each { IfOk result (λ runs. AreFreed map.old.states map.new.states runs) }
    ensures count { IfOk result (λ runs. granules_of_runs runs ≡ length (lowest_dirty config.now (is_dirty_at map.old.states) n)) }
    ensures granules { length map.new.states ≡ length map.old.states }
    ensures kept { OnErr result (map.new ≡ map.old) }
    ensures spare { map.old.spare ≤ map.new.spare + n }
{
    let runs = dirty_runs(alloc, map, config, n)?;
    set_free(map, runs.as_slice());
    Ok(runs)
}

/// The lowest dirty granules, so many or all where there are fewer, as the longest runs within regions by rising
/// number (profile): what `turn` frees. Nothing is changed.
pub fn dirty_runs(
    alloc: Global,
    map: &GranuleMap,
    config: &Config,
    n: u32,
) -> Result<Runs, NoMemory>
    requires granules { length map.now.states ≡ granule_total config.now }
    ensures runs { IfOk result (λ runs. runs ≡ scrub_runs config.now (is_dirty_at map.now.states) n) }
    ensures regions { IfOk result (λ runs. All (IsInRegion config.now) runs) }
    ensures dirty { IfOk result (λ runs. (g : ℕ) → IsTrue (has_in_runs runs g) → IsTrue (is_dirty_at map.now.states g)) }
    ensures count { IfOk result (λ runs. granules_of_runs runs ≡ length (lowest_dirty config.now (is_dirty_at map.now.states) n)) }
    ensures few { IfOk result (λ runs. length runs ≤ n) }
{
    let mut runs = Runs::new(alloc);
    find_dirty(map, config, n, &mut runs)?;
    Ok(runs)
}

/// The runs of the lowest dirty granules, so many or all that there are.
fn find_dirty(map: &GranuleMap, config: &Config, n: u32, runs: &mut Runs) -> Result<(), NoMemory>
    requires granules { length map.now.states ≡ granule_total config.now }
    requires empty { runs.old ≡ [] }
    ensures runs { OnOk result (runs.new ≡ scrub_runs config.now (is_dirty_at map.now.states) n) }
    ensures regions { OnOk result (All (IsInRegion config.now) runs.new) }
    ensures few { OnOk result (length runs.new ≤ n) }
{
    // There are fewer than 2^32 granules, so that their numbers do not wrap.
    let _granules = map.len();
    let mut at = 0;
    let mut left = n;
    while let Some(run) = next_run(map, config, at, left) {
        at = run.first.0 + run.count;
        left -= run.count;
        runs.push(run)?;
    }
    Ok(())
}

/// Makes each granule of the runs free.
fn set_free(map: &mut GranuleMap, runs: &[Run])
    requires within { All (λ run. run.first + run.count ≤ length map.old.states) runs.now }
    requires spare { length runs.now ≤ map.old.spare }
    ensures states { map.new.states ≡ freed map.old.states runs.now }
    ensures granules { length map.new.states ≡ length map.old.states }
    ensures spare { map.old.spare ≤ map.new.spare + length runs.now }
{
    for run in runs {
        map.set_run(*run, GranuleState::Free);
    }
}
