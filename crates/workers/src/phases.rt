//! The phases of a script.

ghost use Rattle.std.specs.List.{list_all};
ghost use Rattle.std.specs.Prelude.{◌≡◌, ◌<◌, ◌≤◌, ◌+◌, ◌*◌, ◌^◌, IsTrue, OnOk, length};
ghost use Rattle.script_codec.specs.Scripts.{is_sound_line};
ghost use Rattle.workers.specs.Phases.{phase, phase_length};
ghost use Rattle.workers.specs.Serving.{EachReady, EachServed, EachServedSome};

use crate::handler::Handler;
use crate::phase::run_phase;
use dcd_base::{Gate, NoMemory};
use script_codec::Line;
use std::alloc::AllocGlobal;
use std::sync::Wait;
use std::thread::Threads;

/// How many lines the first phase has, with the mark that ends it.
fn first_phase(lines: &[Line]) -> usize
    ensures { result ≡ phase_length lines.now }
{
    let mut count = 0;
    for line in lines {
        count += 1;
        if let Line::Mark = line {
            return count;
        }
    }
    count
}

/// Does all lines of a script, phase by phase: a phase ends at a mark, and the next one begins once all workers are done.
///
/// Numbers and passes are as for `run_phase`. At `Ok` the calls of each pass have grown by its lines, each once and in order,
/// and by nothing else. Without memory each pass has done some first ones of its lines.
#[tactic(auto, using(crate::proofs::Phasing::at_first, crate::proofs::Phasing::some_lines, crate::proofs::Phasing::no_more_lines))]
pub fn run_phases<R: Threads + Wait + Sync + AllocGlobal, H: Handler, G: Gate>(
    rt: &R,
    handler: &H,
    passes: &mut [H::Pass],
    lanes: u8,
    first_line: u32,
    lines: &[Line],
    gate: &G,
) -> Result<(), NoMemory>
    requires hosts { H.reads.hosts handler.now ≤ 16 }
    requires lanes { 0 < lanes }
    requires count { length passes.old ≡ H.reads.hosts handler.now * lanes + 2 }
    requires sound { IsTrue (list_all (is_sound_line (H.reads.hosts handler.now) lanes) lines.now) }
    requires in_range { first_line + length lines.now ≤ 2 ^ 32 }
    requires ready { EachReady H.reads handler.now (phase (H.reads.hosts handler.now) lanes first_line lines.now) 0 passes.old }
    ensures served { OnOk result (EachServed H.reads handler.now (phase (H.reads.hosts handler.now) lanes first_line lines.now) 0 passes.old passes.new) }
    ensures begun { EachServedSome H.reads handler.now (phase (H.reads.hosts handler.now) lanes first_line lines.now) 0 passes.old passes.new }
{
    let mut number = u64::from(first_line);
    let mut rest = lines;
    while !rest.is_empty() {
        let (now, later) = rest.split_at(first_phase(rest));
        run_phase(rt, handler, passes, lanes, number as u32, now, gate)?;
        number += now.len() as u64;
        rest = later;
    }
    Ok(())
}
