//! What a step changes of the granules' holders and words.

ghost use Rattle.control_core.specs.PutChanges.{AreChangesFrom, IsRunAdded, StayInside, StaySound, change_to, AreOfOneHost, ArePut};
ghost use Rattle.control_core.specs.PutChanges.{IsRegionOrNone, NameNoOthers, PutOne, bits_by, is_zero, touched_by};
ghost use Rattle.device_commands.specs.device_rules.specs.ChangedRuns.{IsWithinRegion, IsSoundChange, LiesIn};
ghost use Rattle.manager_commands.specs.device_state.specs.Updates.{IsOfDevice};
ghost use Rattle.extent_list.specs.media_map.specs.region_config.specs.Granules.{granule_total};
ghost use Rattle.std.specs.Prelude.{◌≡◌, ℕ, ◌==◌, ◌+◌, ◌<◌, ◌≤◌, All, IfOk, List, OnOk, [], false, length, slice_index_or, take};

use cci_codec::dcd_base::{Change, Changes, Granule, NoMemory, Run, host_bits};
use extent_list::media_map::region_config::Config;
use journal_core::Effect;
use manager_commands::device_state::{Holders, State};
use std::alloc::Global;

/// The holders of so many granules at most are compared one by one, and of more many at a time.
const FEW: u32 = 8;

/// The runs that a host takes or loses, with the hosts that hold them then, and those that are zeroed.
///
/// All granules of a change have the same holders.
#[inline(always)]
pub(crate) fn changes_of(
    alloc: Global,
    config: &Config,
    state: &State,
    effects: &[Effect],
) -> Result<Changes, NoMemory>
    requires of_device { All (IsOfDevice config.now) effects.now }
    requires one { AreOfOneHost effects.now }
    ensures changes { IfOk result (AreChangesFrom config.now state.now effects.now) }
    ensures inside { IfOk result (λ changes. All (LiesIn (granule_total config.now)) changes) }
{
    if effects.is_empty() {
        return Ok(Changes::new(alloc));
    }
    let changes = append_all(alloc, config, &state.holders, effects)?;
    Ok(changes)
}

/// The changes of all the effects, from these holders on.
#[inline(never)]
fn append_all(
    alloc: Global,
    config: &Config,
    holders: &Holders,
    effects: &[Effect],
) -> Result<Changes, NoMemory>
    requires { All (IsOfDevice config.now) effects.now }
    ensures put { IfOk result (λ changes. ArePut (granule_total config.now) holders.now effects.now changes) }
    ensures inside { IfOk result (λ changes. All (LiesIn (granule_total config.now)) changes) }
    ensures sound { IfOk result (λ changes. NameNoOthers config.now holders.now → All (IsSoundChange config.now) changes) }
{
    let quiet = quiet_front(effects);
    if quiet >= effects.len() {
        return Ok(Changes::new(alloc));
    }
    let granules = config.granules();
    let mut changes = Changes::with_capacity(alloc, effects.len() - quiet)?;
    let mut region = Run {
        first: Granule(0),
        count: 0,
    };
    for i in quiet..effects.len() {
        append_change(
            config,
            granules,
            holders,
            &effects[i],
            &mut region,
            &mut changes,
        )?;
    }
    Ok(changes)
}

/// How many effects come before the first one that touches granules: all, where none does.
fn quiet_front(effects: &[Effect]) -> usize
    ensures within { result ≤ length effects.now }
    ensures quiet { (n : ℕ) (holders : List ℕ) → ArePut n holders (take result effects.now) [] }
{
    for i in 0..effects.len() {
        match touched_run(&effects[i]) {
            Some(_) => return i,
            None => {}
        }
    }
    effects.len()
}

/// Puts what one effect changes, of a device of so many granules. The region is that of the last change, or has no granule.
fn append_change(
    config: &Config,
    granules: u32,
    holders: &Holders,
    effect: &Effect,
    region: &mut Run,
    changes: &mut Changes,
) -> Result<(), NoMemory>
    requires of_device { IsOfDevice config.now effect.now }
    requires granules { granules ≡ granule_total config.now }
    requires region { IsRegionOrNone config.now region.old }
    ensures region { IsRegionOrNone config.now region.new }
    ensures put { OnOk result (PutOne (granule_total config.now) holders.now effect.now changes.old changes.new) }
    ensures inside { OnOk result (StayInside (granule_total config.now) changes.old changes.new) }
    ensures sound { OnOk result (StaySound config.now holders.now changes.old changes.new) }
{
    match touched_run(effect) {
        Some(run) => append_runs(config, granules, holders, effect, &run, region, changes),
        None => Ok(()),
    }
}

/// The granules that the effect gives, takes or zeroes.
fn touched_run(effect: &Effect) -> Option<Run>
    ensures { result ≡ touched_by effect.now }
{
    match effect {
        Effect::Take(_, run) => Some(*run),
        Effect::Leave(_, run) => Some(*run),
        Effect::Zero(run) => Some(*run),
        _ => None,
    }
}

/// Puts the longest runs of granules of one region and one set of holders that the run has, changed so. Granules past the
/// last of the device are left out.
fn append_runs(
    config: &Config,
    granules: u32,
    holders: &Holders,
    effect: &Effect,
    run: &Run,
    region: &mut Run,
    changes: &mut Changes,
) -> Result<(), NoMemory>
    requires of_device { IsOfDevice config.now effect.now }
    requires granules { granules ≡ granule_total config.now }
    requires region { IsRegionOrNone config.now region.old }
    ensures region { IsRegionOrNone config.now region.new }
    ensures added { OnOk result (IsRunAdded (granule_total config.now) holders.now effect.now run.now changes.old changes.new) }
    ensures inside { OnOk result (StayInside (granule_total config.now) changes.old changes.new) }
    ensures sound { OnOk result (StaySound config.now holders.now changes.old changes.new) }
{
    let end = run.first.0.saturating_add(run.count).min(granules);
    let mut at = run.first.0;
    while at < end {
        go_to_region(config, Granule(at), region);
        let most = end.min(region.first.0.saturating_add(region.count));
        let bits = holders.at(Granule(at));
        let next = alike_up_to(holders, bits, at, most);
        changes.push(change_of(config, effect, bits, at, next))?;
        at = next;
    }
    Ok(())
}

/// Makes this region that of the granule. Most often it is already.
fn go_to_region(config: &Config, granule: Granule, region: &mut Run)
    requires known { granule < granule_total config.now }
    requires region { IsRegionOrNone config.now region.old }
    ensures region { IsWithinRegion config.now region.new }
    ensures from { region.new.first ≤ granule }
    ensures to { granule < region.new.first + region.new.count }
{
    if granule.0 < region.first.0 || granule.0 - region.first.0 >= region.count {
        *region = config.granules_of(config.region_of(granule));
    }
}

/// The number of the first granule behind one of these holders that has others, or the end.
fn alike_up_to(holders: &Holders, bits: u16, at: u32, end: u32) -> u32
    requires rising { at < end }
    requires bits { bits ≡ slice_index_or holders.now at 0 }
    ensures later { at < result }
    ensures within { result ≤ end }
    ensures same { (g : ℕ) → at ≤ g → g < result → slice_index_or holders.now g 0 ≡ bits }
    ensures other { result < end → (slice_index_or holders.now result 0 == bits) ≡ false }
{
    if end - at > FEW {
        return holders.run_end(at, end);
    }
    for next in at + 1..end {
        if holders.at(Granule(next)) != bits {
            return next;
        }
    }
    end
}

/// The change of the granules from one up to the one before another, which all have these holders.
fn change_of(config: &Config, effect: &Effect, bits: u16, at: u32, next: u32) -> Change
    requires rising { at < next }
    requires of_device { IsOfDevice config.now effect.now }
    ensures { result ≡ change_to effect.now bits at next }
{
    Change {
        run: Run {
            first: Granule(at),
            count: next - at,
        },
        holders: holders_by(config, effect, bits),
        zero: is_zeroing(effect),
    }
}

/// The holders after the effect.
fn holders_by(config: &Config, effect: &Effect, bits: u16) -> u16
    requires { IsOfDevice config.now effect.now }
    ensures { result ≡ bits_by effect.now bits }
{
    // There are 16 hosts at most.
    let _hosts = config.hosts();
    match effect {
        Effect::Take(host, _) => host_bits::with(bits, *host),
        Effect::Leave(host, _) => host_bits::without(bits, *host),
        _ => bits,
    }
}

/// Whether the effect zeroes granules.
fn is_zeroing(effect: &Effect) -> bool
    ensures { result ≡ is_zero effect.now }
{
    match effect {
        Effect::Zero(_) => true,
        _ => false,
    }
}
