//! The lines of one pass.

ghost use Rattle.journal_core.specs.Entries.{fits};
ghost use Rattle.std.specs.List.{list_all};
ghost use Rattle.std.specs.Prelude.{◌≡◌, ◌<◌, ◌≤◌, ◌+◌, ◌^◌, ◌∷◌, [], IsTrue, OnErr, OnOk, length};
ghost use Rattle.script_codec.specs.Scripts.{is_sound_line};
ghost use Rattle.workers.specs.Phases.{Grown, is_no_others, phase, tasks};
ghost use Rattle.workers.specs.Serving.{HasServed, HasServedSome, IsReady, KeepsPass};
ghost use Rattle.workers.specs.Worklists.{IsPhase, IsWork, phase_of};

use crate::handler::Handler;
use crate::worklists::{PhaseLines, Worklist};
use dcd_base::{Actor, Gate, NoMemory};
use journal_core::Act;
use script_codec::Line;
use std::sync::Wait;

/// Does one act of a worker.
fn serve_act<R: Wait, P: Send, H: Handler<Pass = P>, G: Gate>(
    rt: &R,
    handler: &H,
    gate: &G,
    actor: &Actor,
    number: u32,
    act: &Act,
    pass: &mut P,
) -> Result<(), NoMemory>
    requires mine { H.reads.is_mine handler.now pass.old }
    requires fits { IsTrue (fits (H.reads.hosts handler.now) (H.reads.actor pass.old) act.now) }
    requires room { length (H.reads.calls pass.old) < 2 ^ 32 }
    ensures same { KeepsPass H.reads handler.now pass.old pass.new }
    ensures grown { OnOk result (Grown (record { line = number; act = act.now } ∷ []) (H.reads.calls pass.old) (H.reads.calls pass.new)) }
    ensures kept { OnErr result (H.reads.calls pass.new ≡ H.reads.calls pass.old) }
{
    gate.before(*actor, number);
    let _reply = handler.handle(rt, pass, number, act)?;
    Ok(())
}

/// Does a line of the pass. A mark is passed over.
fn serve_line<R: Wait, P: Send, H: Handler<Pass = P>, G: Gate>(
    rt: &R,
    handler: &H,
    gate: &G,
    of: &PhaseLines<'_>,
    k: u32,
    number: u32,
    line: &Line,
    pass: &mut P,
) -> Result<(), NoMemory>
    requires hosts { H.reads.hosts handler.now ≡ of.now.hosts }
    requires sound { IsTrue (is_sound_line of.now.hosts of.now.lanes line.now) }
    requires own { IsTrue (is_no_others of.now.hosts of.now.lanes k line.now) }
    requires ready { IsReady H.reads handler.now (phase of.now.hosts of.now.lanes number (line.now ∷ [])) k pass.old }
    ensures same { KeepsPass H.reads handler.now pass.old pass.new }
    ensures grown { OnOk result (Grown (tasks of.now.hosts of.now.lanes k number (line.now ∷ [])) (H.reads.calls pass.old) (H.reads.calls pass.new)) }
    ensures kept { OnErr result (H.reads.calls pass.new ≡ H.reads.calls pass.old) }
{
    match line {
        Line::Do { actor, act, .. } => serve_act(rt, handler, gate, actor, number, act, pass),
        Line::Mark => Ok(()),
    }
}

/// Does the lines of the pass of this number, in order.
#[tactic(auto, using(crate::proofs::Standing::begins, crate::proofs::Standing::line_ready, crate::proofs::Standing::line_own, crate::proofs::Standing::all_at, crate::proofs::Standing::ends, crate::proofs::Standing::ended, crate::proofs::Standing::stops))]
pub(crate) fn serve<R: Wait, P: Send, H: Handler<Pass = P>, G: Gate>(
    rt: &R,
    handler: &H,
    gate: &G,
    work: &Worklist<'_>,
    k: u32,
    pass: &mut P,
) -> Result<(), NoMemory>
    requires work { IsWork H.reads handler.now work.now }
    requires pass { k < length work.now.heads.items }
    requires ready { IsReady H.reads handler.now (phase_of work.now.phase) k pass.old }
    ensures served { OnOk result (HasServed H.reads handler.now (phase_of work.now.phase) k pass.old pass.new) }
    ensures begun { HasServedSome H.reads handler.now (phase_of work.now.phase) k pass.old pass.new }
{
    let of = &work.phase;
    let mut place = work.head_of(k);
    while place < of.lines.len() {
        let number = of.first + place as u32;
        serve_line(rt, handler, gate, of, k, number, &of.lines[place], pass)?;
        place = work.next_after(place);
    }
    Ok(())
}

/// Does the lines of a phase that are no other pass's than that of this number, in order.
#[tactic(auto, using(crate::proofs::Standing::begins_first, crate::proofs::Standing::line_ready, crate::proofs::Standing::all_at, crate::proofs::Standing::ends, crate::proofs::Standing::ended, crate::proofs::Standing::stops))]
pub(crate) fn serve_lines<R: Wait, P: Send, H: Handler<Pass = P>, G: Gate>(
    rt: &R,
    handler: &H,
    gate: &G,
    of: &PhaseLines<'_>,
    k: u32,
    pass: &mut P,
) -> Result<(), NoMemory>
    requires phase { IsPhase H.reads handler.now of.now }
    requires own { IsTrue (list_all (is_no_others of.now.hosts of.now.lanes k) of.now.lines.now) }
    requires ready { IsReady H.reads handler.now (phase_of of.now) k pass.old }
    ensures served { OnOk result (HasServed H.reads handler.now (phase_of of.now) k pass.old pass.new) }
    ensures begun { HasServedSome H.reads handler.now (phase_of of.now) k pass.old pass.new }
{
    for place in 0..of.lines.len() {
        let number = of.first + place as u32;
        serve_line(rt, handler, gate, of, k, number, &of.lines[place], pass)?;
    }
    Ok(())
}
