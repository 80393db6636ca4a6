//! A script in threads.

ghost use Rattle.journal_core.specs.Merging.{AllRise};
ghost use Rattle.journal_core.specs.Merging.{merged};
ghost use Rattle.shared_device.specs.ruled_cells.specs.Calls.{seats_of};
ghost use Rattle.script_gen.specs.script_codec.specs.Scripts.{IsScript, is_sound_line};
ghost use Rattle.script_runner.specs.ScriptPasses.{HaveRun};
ghost use Rattle.script_runner.specs.ThreadRuns.{HasDone, IsTakenApart, IsThreadRun};
ghost use Rattle.std.specs.List.{list_all};
ghost use Rattle.std.specs.Prelude.{◌≡◌, ◌<◌, ◌≤◌, ◌+◌, ◌*◌, IfOk, IsTrue, length};

use crate::thread_lines::{fresh_device, run_lines};
use dcd_base::{Gate, NoMemory};
use device_plain::control_core::Control;
use device_plain::isolation_laws::law_isolated;
use journal_core::Accesses;
use region_config::Config;
use script_gen::script_codec::{Line, Script};
use shared_device::{Pass, Shared};
use std::alloc::AllocGlobal;
use std::sync::Wait;
use std::thread::Threads;
use workers::law_served_cover;

/// Does the lines on a fresh device, and answers it with its passes.
fn run_afresh<R: Threads + Wait + Sync + AllocGlobal, G: Gate>(
    rt: &R,
    config: &Config,
    lanes: u8,
    lines: &[Line],
    gate: &G,
) -> Result<(Shared, Vec<Pass>), NoMemory>
    requires lanes { (0 < lanes) × (lanes ≤ 4) }
    requires sound { IsTrue (list_all (is_sound_line config.now.hosts lanes) lines.now) }
    requires few { length lines.now ≤ 65536 }
    ensures config { IfOk result (λ left. left.0.config ≡ config.now) }
    ensures count { IfOk result (λ left. length left.1.items ≡ config.now.hosts * lanes + 2) }
    ensures seats { IfOk result (λ left. seats_of left.0.cells ≡ length left.1.items) }
    ensures ran { IfOk result (λ left. HaveRun left.0 lanes lines.now left.1.items) }
{
    // A configuration is sound.
    let _hosts = config.hosts();
    let (device, mut passes) = fresh_device(rt.alloc(), config, lanes)?;
    run_lines(rt, &device, passes.as_mut_slice(), lanes, lines, gate)?;
    Ok((device, passes))
}

/// Takes apart a device whose passes have done the lines of a script and have all come back. Its journal is a run of the script.
fn take_apart(
    device: Shared,
    passes: Vec<Pass>,
    script: &Script,
) -> Result<(Control, Vec<Accesses>), NoMemory>
    requires script { IsScript script.now }
    requires done { HasDone device script.now passes.items }
    ensures config { IfOk result (λ left. left.0.config ≡ script.now.config) }
    ensures shards { IfOk result (λ left. length left.1.items ≡ 16) }
    ensures rise { IfOk result (λ left. AllRise left.1.items) }
    ensures closed { IfOk result (λ left. IsTakenApart left.0.config left.0.entries left.1.items) }
    ensures journal { IfOk result (λ left. IsThreadRun script.now (merged left.0.entries left.1.items)) }
{
    // A configuration is sound.
    let _hosts = script.config.hosts();
    law_isolated();
    law_served_cover();
    match device.close(passes) {
        Ok(left) => Ok(left),
        Err((failure, _, _)) => Err(failure),
    }
}

/// Runs the script on a fresh shared device, and takes the device apart: its control, and the loads and stores of each of the
/// 16 shards by rising stamps. All of them in the order of their stamps are the journal of the run, which
/// `shared_device::lend_journal` lends.
///
/// The lines of each lane are done in order, by a worker of its own in each phase. `NoMemory` may come in place of any answer.
pub fn run_in_threads<R: Threads + Wait + Sync + AllocGlobal, G: Gate>(
    rt: &R,
    script: &Script,
    gate: &G,
) -> Result<(Control, Vec<Accesses>), NoMemory>
    requires script { IsScript script.now }
    ensures config { IfOk result (λ left. left.0.config ≡ script.now.config) }
    ensures shards { IfOk result (λ left. length left.1.items ≡ 16) }
    ensures rise { IfOk result (λ left. AllRise left.1.items) }
    ensures closed { IfOk result (λ left. IsTakenApart left.0.config left.0.entries left.1.items) }
    ensures journal { IfOk result (λ left. IsThreadRun script.now (merged left.0.entries left.1.items)) }
{
    let lines = script.lines.as_slice();
    let (device, passes) = run_afresh(rt, &script.config, script.lanes, lines, gate)?;
    take_apart(device, passes, script)
}
