//! A phase.

ghost use Rattle.std.specs.List.{list_all};
ghost use Rattle.std.specs.Prelude.{◌≡◌, ◌<◌, ◌≤◌, ◌+◌, ◌*◌, ◌^◌, IsTrue, OnOk, length, ℕ};
ghost use Rattle.script_codec.specs.Scripts.{is_sound_line};
ghost use Rattle.workers.specs.Phases.{is_no_others, phase};
ghost use Rattle.workers.specs.Serving.{EachReady, EachServed, EachServedSome};
ghost use Rattle.workers.specs.Worklists.{IsPhase, phase_of};

use crate::alone::lone_pass;
use crate::handler::Handler;
use crate::serving::serve_lines;
use crate::workers::serve_all;
use crate::worklists::{PhaseLines, parted};
use dcd_base::{Gate, NoMemory};
use script_codec::Line;
use std::alloc::AllocGlobal;
use std::sync::Wait;
use std::thread::Threads;

/// How many hosts there are, by how many passes there are.
#[tactic(auto, using(crate::proofs::Rows::hosts_by))]
fn hosts_of(passes: usize, lanes: u8) -> u8
    requires { (hosts : ℕ) × (hosts ≤ 16) × (0 < lanes) × (passes ≡ hosts * lanes + 2) }
    ensures { (hosts : ℕ) → passes ≡ hosts * lanes + 2 → result ≡ hosts }
{
    ((passes - 2) / usize::from(lanes)) as u8
}

/// Does the lines of a phase, those of each pass in order on a worker of its own, and waits for all of them. The i-th of
/// the lines, counted from 0, has the number `first_line` plus i.
///
/// The passes stand host by host and lane by lane, then comes the Fabric Manager, then the sanitizer. At `Ok` the calls of
/// each pass have grown by its lines, each once and in order, and by nothing else. Without memory each pass has done
/// some first ones of its lines. A mark among the lines is passed over.
///
/// Lines of one pass alone are done by the caller at once, without memory and without a look at the other passes. Else a
/// pass without lines gets no worker, and the caller is one of the workers. Where no thread can be made, the caller does
/// the lines itself.
pub fn run_phase<R: Threads + Wait + Sync + AllocGlobal, H: Handler, G: Gate>(
    rt: &R,
    handler: &H,
    passes: &mut [H::Pass],
    lanes: u8,
    first_line: u32,
    lines: &[Line],
    gate: &G,
) -> Result<(), NoMemory>
    requires hosts { H.reads.hosts handler.now ≤ 16 }
    requires lanes { 0 < lanes }
    requires count { length passes.old ≡ H.reads.hosts handler.now * lanes + 2 }
    requires sound { IsTrue (list_all (is_sound_line (H.reads.hosts handler.now) lanes) lines.now) }
    requires in_range { first_line + length lines.now ≤ 2 ^ 32 }
    requires ready { EachReady H.reads handler.now (phase (H.reads.hosts handler.now) lanes first_line lines.now) 0 passes.old }
    ensures served { OnOk result (EachServed H.reads handler.now (phase (H.reads.hosts handler.now) lanes first_line lines.now) 0 passes.old passes.new) }
    ensures begun { EachServedSome H.reads handler.now (phase (H.reads.hosts handler.now) lanes first_line lines.now) 0 passes.old passes.new }
{
    let of = PhaseLines {
        hosts: hosts_of(passes.len(), lanes),
        lanes,
        first: first_line,
        lines,
    };
    match lone_pass(of.hosts, lanes, lines) {
        Some(k) => serve_alone(rt, handler, gate, &of, k, passes),
        None => serve_parted(rt, handler, gate, &of, passes),
    }
}

/// Does the lines of a phase that are no other pass's than that of this number.
fn serve_alone<R: Wait, P: Send, H: Handler<Pass = P>, G: Gate>(
    rt: &R,
    handler: &H,
    gate: &G,
    of: &PhaseLines<'_>,
    k: u32,
    passes: &mut [P],
) -> Result<(), NoMemory>
    requires pass { k < length passes.old }
    requires phase { IsPhase H.reads handler.now of.now }
    requires own { IsTrue (list_all (is_no_others of.now.hosts of.now.lanes k) of.now.lines.now) }
    requires ready { EachReady H.reads handler.now (phase_of of.now) 0 passes.old }
    ensures served { OnOk result (EachServed H.reads handler.now (phase_of of.now) 0 passes.old passes.new) }
    ensures begun { EachServedSome H.reads handler.now (phase_of of.now) 0 passes.old passes.new }
{
    serve_lines(rt, handler, gate, of, k, &mut passes[k as usize])
}

/// Does the lines of a phase that several passes have.
#[tactic(auto, using(crate::proofs::Rows::none_served_yet, crate::proofs::Rows::whole_row))]
fn serve_parted<R: Threads + Wait + Sync + AllocGlobal, P: Send, H: Handler<Pass = P>, G: Gate>(
    rt: &R,
    handler: &H,
    gate: &G,
    of: &PhaseLines<'_>,
    passes: &mut [P],
) -> Result<(), NoMemory>
    requires count { length passes.old ≡ of.now.hosts * of.now.lanes + 2 }
    requires phase { IsPhase H.reads handler.now of.now }
    requires ready { EachReady H.reads handler.now (phase_of of.now) 0 passes.old }
    ensures served { OnOk result (EachServed H.reads handler.now (phase_of of.now) 0 passes.old passes.new) }
    ensures begun { EachServedSome H.reads handler.now (phase_of of.now) 0 passes.old passes.new }
{
    let work = parted(rt.alloc(), of, passes.len())?;
    serve_all(rt, handler, gate, &work, 0, passes)
}
