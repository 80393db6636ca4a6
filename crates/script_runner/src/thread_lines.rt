//! A fresh device, and the lines of a script on it.

ghost use Rattle.shared_device.specs.ruled_cells.specs.Calls.{seats_of};
ghost use Rattle.script_gen.specs.script_codec.specs.Scripts.{is_sound_line};
ghost use Rattle.script_runner.specs.ScriptPasses.{AreNewPasses, HaveRun};
ghost use Rattle.std.specs.List.{list_all};
ghost use Rattle.std.specs.Prelude.{◌≡◌, ◌<◌, ◌≤◌, ◌+◌, ◌*◌, IfOk, IsTrue, OnOk, length};

use crate::gated::Gated;
use dcd_base::{Gate, NoMemory};
use region_config::Config;
use script_gen::script_codec::Line;
use shared_device::{Pass, Shared};
use std::alloc::{AllocGlobal, Global};
use std::sync::Wait;
use std::thread::Threads;
use workers::run_phases;

/// A fresh device of an equal configuration, and its passes.
pub(crate) fn fresh_device(
    alloc: Global,
    config: &Config,
    lanes: u8,
) -> Result<(Shared, Vec<Pass>), NoMemory>
    requires lanes { (0 < lanes) × (lanes ≤ 4) }
    ensures config { IfOk result (λ made. made.0.config ≡ config.now) }
    ensures count { IfOk result (λ made. length made.1.items ≡ config.now.hosts * lanes + 2) }
    ensures seats { IfOk result (λ made. seats_of made.0.cells ≡ length made.1.items) }
    ensures new { IfOk result (λ made. AreNewPasses made.0 lanes made.1.items) }
{
    Shared::start(alloc, config.copy()?, lanes)
}

/// Does the lines, phase by phase, the first of which has the number 1.
pub(crate) fn run_lines<R: Threads + Wait + Sync + AllocGlobal, G: Gate>(
    rt: &R,
    device: &Shared,
    passes: &mut [Pass],
    lanes: u8,
    lines: &[Line],
    gate: &G,
) -> Result<(), NoMemory>
    requires hosts { device.now.config.hosts ≤ 16 }
    requires lanes { 0 < lanes }
    requires count { length passes.old ≡ device.now.config.hosts * lanes + 2 }
    requires sound { IsTrue (list_all (is_sound_line device.now.config.hosts lanes) lines.now) }
    requires few { length lines.now ≤ 65536 }
    requires new { AreNewPasses device.now lanes passes.old }
    ensures ran { OnOk result (HaveRun device.now lanes lines.now passes.new) }
{
    let handler = Gated { device, gate };
    run_phases(rt, &handler, passes, lanes, 1, lines, gate)
}
