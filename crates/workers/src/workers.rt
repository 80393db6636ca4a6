//! The workers of a phase.

ghost use Rattle.std.specs.Prelude.{◌≡◌, ◌<◌, ◌+◌, OnOk, length};
ghost use Rattle.std.specs.Thread.{IsSend, IsSync};
ghost use Rattle.workers.specs.Serving.{EachServed, EachServedSome};
ghost use Rattle.workers.specs.Worklists.{IsRow, IsWork, phase_of};

use crate::handler::Handler;
use crate::serving::serve;
use crate::worklists::Worklist;
use dcd_base::{Gate, NoMemory};
use std::sync::Wait;
use std::thread::{Threads, join_mut};

/// The lines of one pass, or of none.
#[tactic(auto, using(crate::proofs::Rows::one_ready))]
fn serve_one<R: Wait, P: Send, H: Handler<Pass = P>, G: Gate>(
    rt: &R,
    handler: &H,
    gate: &G,
    work: &Worklist<'_>,
    k: u32,
    passes: &mut [P],
) -> Result<(), NoMemory>
    requires one { length passes.old < 2 }
    requires work { IsWork H.reads handler.now work.now }
    requires row { IsRow H.reads handler.now work.now k passes.old }
    ensures served { OnOk result (EachServed H.reads handler.now (phase_of work.now.phase) k passes.old passes.new) }
    ensures begun { EachServedSome H.reads handler.now (phase_of work.now.phase) k passes.old passes.new }
{
    match passes.first_mut() {
        Some(pass) => serve(rt, handler, gate, work, k, pass),
        None => Ok(()),
    }
}

/// The lines of a row of passes, the first of which has this number.
#[tactic(auto, using(crate::proofs::Rows::row_room))]
#[cycle(halves)]
pub(crate) fn serve_all<R: Threads + Wait + Sync, P: Send, H: Handler<Pass = P>, G: Gate>(
    rt: &R,
    handler: &H,
    gate: &G,
    work: &Worklist<'_>,
    k: u32,
    passes: &mut [P],
) -> Result<(), NoMemory>
    requires work { IsWork H.reads handler.now work.now }
    requires row { IsRow H.reads handler.now work.now k passes.old }
    ensures served { OnOk result (EachServed H.reads handler.now (phase_of work.now.phase) k passes.old passes.new) }
    ensures begun { EachServedSome H.reads handler.now (phase_of work.now.phase) k passes.old passes.new }
{
    if passes.len() < 2 {
        return serve_one(rt, handler, gate, work, k, passes);
    }
    let middle = passes.len() / 2;
    let (front, back) = passes.split_at_mut(middle);
    serve_halves(rt, handler, gate, work, k, front, k + middle as u32, back)
}

/// The lines of two rows of passes, the first ones of which have these numbers. A row without lines gets no worker.
#[tactic(auto, using(crate::proofs::Rows::idle_served, crate::proofs::Rows::some_of))]
#[cycle(halves)]
fn serve_halves<R: Threads + Wait + Sync, P: Send, H: Handler<Pass = P>, G: Gate>(
    rt: &R,
    handler: &H,
    gate: &G,
    work: &Worklist<'_>,
    k: u32,
    front: &mut [P],
    j: u32,
    back: &mut [P],
) -> Result<(), NoMemory>
    requires some { (0 < length front.old) × (0 < length back.old) }
    requires work { IsWork H.reads handler.now work.now }
    requires front { IsRow H.reads handler.now work.now k front.old }
    requires back { IsRow H.reads handler.now work.now j back.old }
    ensures served_front { OnOk result (EachServed H.reads handler.now (phase_of work.now.phase) k front.old front.new) }
    ensures served_back { OnOk result (EachServed H.reads handler.now (phase_of work.now.phase) j back.old back.new) }
    ensures begun_front { EachServedSome H.reads handler.now (phase_of work.now.phase) k front.old front.new }
    ensures begun_back { EachServedSome H.reads handler.now (phase_of work.now.phase) j back.old back.new }
{
    if work.are_idle(k, front.len()) {
        return serve_all(rt, handler, gate, work, j, back);
    }
    if work.are_idle(j, back.len()) {
        return serve_all(rt, handler, gate, work, k, front);
    }
    serve_both(rt, handler, gate, work, k, front, j, back)
}

/// The lines of two rows of passes, side by side: one of them goes to a new thread, if one can be made.
#[cycle(halves)]
fn serve_both<R: Threads + Wait + Sync, P: Send, H: Handler<Pass = P>, G: Gate>(
    rt: &R,
    handler: &H,
    gate: &G,
    work: &Worklist<'_>,
    k: u32,
    front: &mut [P],
    j: u32,
    back: &mut [P],
) -> Result<(), NoMemory>
    requires some { (0 < length front.old) × (0 < length back.old) }
    requires work { IsWork H.reads handler.now work.now }
    requires front { IsRow H.reads handler.now work.now k front.old }
    requires back { IsRow H.reads handler.now work.now j back.old }
    ensures served_front { OnOk result (EachServed H.reads handler.now (phase_of work.now.phase) k front.old front.new) }
    ensures served_back { OnOk result (EachServed H.reads handler.now (phase_of work.now.phase) j back.old back.new) }
    ensures begun_front { EachServedSome H.reads handler.now (phase_of work.now.phase) k front.old front.new }
    ensures begun_back { EachServedSome H.reads handler.now (phase_of work.now.phase) j back.old back.new }
{
    let mut low = || -> Result<(), NoMemory>
        requires shared { IsSync R.row × IsSync H.row × IsSync G.row × IsSend P.row }
        requires work { IsWork H.reads handler.now work.now }
        requires row { IsRow H.reads handler.now work.now k front.now }
        ensures served { OnOk result (EachServed H.reads handler.entry.now (phase_of work.entry.now.phase) k front.entry.now front.exit.now) }
        ensures begun { EachServedSome H.reads handler.entry.now (phase_of work.entry.now.phase) k front.entry.now front.exit.now }
    { serve_all(rt, handler, gate, work, k, front) };
    let mut high = || -> Result<(), NoMemory>
        requires shared { IsSync R.row × IsSync H.row × IsSync G.row × IsSend P.row }
        requires work { IsWork H.reads handler.now work.now }
        requires row { IsRow H.reads handler.now work.now j back.now }
        ensures served { OnOk result (EachServed H.reads handler.entry.now (phase_of work.entry.now.phase) j back.entry.now back.exit.now) }
        ensures begun { EachServedSome H.reads handler.entry.now (phase_of work.entry.now.phase) j back.entry.now back.exit.now }
    { serve_all(rt, handler, gate, work, j, back) };
    let (a, b) = join_mut(rt, &mut low, &mut high);
    a?;
    b
}
