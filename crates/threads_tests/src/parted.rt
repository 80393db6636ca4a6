//! A script whose phases several passes have lines in.
use crate::desks::{desks_of, marked_lines};
use crate::keeper::Keeper;
use crate::marked::run_script;
use crate::threads::{Watch, threads_now};
use dcd_base::{Actor, Gate, NoMemory};
use std::alloc::AllocGlobal;
use std::sync::Wait;
use std::sync::atomic::{AtomicU64, Ordering};
use std::test::*;
use std::thread::Threads;

/// How many lines there are, in phases of ten.
const LINES: u16 = 200;

/// A gate that counts the lines that were begun, and those that were begun while lines of the phase before them were not, or
/// behind lines of the next phase.
#[derive(Drop)]
struct Order {
    begun: AtomicU64,
    astray: AtomicU64,
}

impl Order {
    fn new() -> Order {
        Order {
            begun: AtomicU64::new(0),
            astray: AtomicU64::new(0),
        }
    }
}

impl Gate for Order {
    fn before(&self, _actor: Actor, line: u32) {
        let begun = self.begun.fetch_add(1, Ordering::SeqCst);
        // A phase has eleven numbers, with that of its mark.
        if begun / 10 != u64::from(line.saturating_sub(1)) / 11 {
            self.astray.fetch_add(1, Ordering::SeqCst);
        }
    }

    fn inside(&self, _actor: Actor, _line: u32) {}
}

/// Runs the lines, with no memory for that of the number `refused`.
fn run_all<R: Threads + Wait + Sync + AllocGlobal, G: Gate>(
    rt: &R,
    refused: u32,
    gate: &G,
) -> Result<(), NoMemory> {
    let keeper = Keeper { hosts: 2, refused };
    let lines = marked_lines(rt.alloc(), LINES)?;
    let mut desks = desks_of(rt.alloc(), 2, 2)?;
    run_script(rt, &keeper, desks.as_mut_slice(), lines.as_slice(), gate)
}

#[test]
fn a_mark_parts_the_lines_of_all_passes(rt: HostRuntime) -> Result<(), Fail> {
    let order = Order::new();
    run_all(&rt, 0, &order)?;
    assert_eq!(rt; order.begun.load(Ordering::SeqCst), u64::from(LINES));
    assert_eq!(rt; order.astray.load(Ordering::SeqCst), 0);
    Ok(())
}

#[test]
fn no_phase_begins_behind_a_refusal(rt: HostRuntime) -> Result<(), Fail> {
    let order = Order::new();
    // The fifth line of the fourth phase.
    let ended = run_all(&rt, 38, &order);
    assert_eq!(rt; ended, Err(NoMemory));
    assert_eq!(rt; order.astray.load(Ordering::SeqCst), 0);
    assert!(rt; order.begun.load(Ordering::SeqCst) <= 40);
    Ok(())
}

#[test]
fn each_pass_has_one_worker_at_most(rt: HostRuntime) -> Result<(), Fail> {
    let before = threads_now(&rt);
    let watch = Watch {
        rt: &rt,
        most: AtomicU64::new(0),
    };
    run_all(&rt, 0, &watch)?;
    let most = watch.most.load(Ordering::SeqCst);
    assert!(rt; before < most && most <= before.saturating_add(4));
    Ok(())
}
