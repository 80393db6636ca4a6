//! Scripts with marks: with one after every line, and as they come.
ghost use Rattle.std.specs.List.{list_all};
ghost use Rattle.std.specs.Prelude.{◌≡◌, ◌<◌, ◌≤◌, ◌+◌, ◌^◌, IsTrue, OnOk, length};
ghost use Rattle.script_runner.specs.script_codec.specs.Scripts.{is_sound_line};
ghost use Rattle.threads_tests.specs.Desks.{AreDesks};

use crate::keeper::{Desk, Keeper};
use dcd_base::{Gate, NoMemory};
use script_runner::script_codec::Line;
use script_runner::workers::{run_phase, run_phases};
use std::alloc::AllocGlobal;
use std::sync::Wait;
use std::thread::Threads;

/// Runs the lines in one phase.
pub fn run_together<R: Threads + Wait + Sync + AllocGlobal, G: Gate>(
    rt: &R,
    keeper: &Keeper,
    desks: &mut [Desk],
    number: u32,
    most: u32,
    lines: &[Line],
    gate: &G,
) -> Result<(), NoMemory>
    requires hosts { keeper.now.hosts ≡ 2 }
    requires desks { AreDesks 2 2 most 0 desks.old }
    requires count { length desks.old ≡ 6 }
    requires sound { IsTrue (list_all (is_sound_line 2 2) lines.now) }
    requires room { (number + length lines.now < 2 ^ 32) × (most + length lines.now < 2 ^ 32) }
    ensures { OnOk result (AreDesks 2 2 (most + length lines.now) 0 desks.new) }
{
    run_phase(rt, keeper, desks, 2, number, lines, gate)
}

/// Runs each line in a phase of its own; the marks between them are numbered too.
#[tactic(auto, using(crate::proofs::DeskSteps::sound_front, crate::proofs::DeskSteps::sound_back, crate::proofs::DeskSteps::more_calls))]
pub fn run_apart<R: Threads + Wait + Sync + AllocGlobal, G: Gate>(
    rt: &R,
    keeper: &Keeper,
    desks: &mut [Desk],
    lines: &[Line],
    gate: &G,
) -> Result<(), NoMemory>
    requires hosts { keeper.now.hosts ≡ 2 }
    requires desks { AreDesks 2 2 0 0 desks.old }
    requires count { length desks.old ≡ 6 }
    requires sound { IsTrue (list_all (is_sound_line 2 2) lines.now) }
    requires few { length lines.now ≤ 65536 }
{
    let mut rest = lines;
    let mut number = 1u32;
    while !rest.is_empty() {
        let (line, tail) = rest.split_at(1);
        run_together(rt, keeper, desks, number, number, line, gate)?;
        number += 2;
        rest = tail;
    }
    Ok(())
}

/// Runs a script, phase by phase, the first line of which has the number 1.
pub fn run_script<R: Threads + Wait + Sync + AllocGlobal, G: Gate>(
    rt: &R,
    keeper: &Keeper,
    desks: &mut [Desk],
    lines: &[Line],
    gate: &G,
) -> Result<(), NoMemory>
    requires hosts { keeper.now.hosts ≡ 2 }
    requires desks { AreDesks 2 2 0 0 desks.old }
    requires count { length desks.old ≡ 6 }
    requires sound { IsTrue (list_all (is_sound_line 2 2) lines.now) }
    requires few { length lines.now ≤ 131072 }
{
    run_phases(rt, keeper, desks, 2, 1, lines, gate)
}
