//! The lines of a script in one phase, and with a mark after every line.
use crate::desks::{desks_of, lines_of};
use crate::keeper::{Desk, Keeper};
use crate::marked::{run_apart, run_together};
use crate::threads::{Watch, threads_now};
use dcd_base::{NoGate, NoMemory};
use std::alloc::AllocGlobal;
use std::sync::Wait;
use std::sync::atomic::{AtomicU64, Ordering};
use std::test::*;
use std::thread::Threads;

/// The numbers of the lines of each pass, of ten lines in one phase.
const TOGETHER: [&[u32]; 6] = [&[1, 9], &[3, 7], &[2, 6], &[4, 8], &[], &[5, 10]];

/// And with a mark after every line.
const APART: [&[u32]; 6] = [&[1, 17], &[5, 13], &[3, 11], &[7, 15], &[], &[9, 19]];

/// Whether the calls of the pass are of these lines.
fn has_lines(desk: &Desk, lines: &[u32]) -> bool {
    let entries = desk.entries.as_slice();
    entries.len() == lines.len()
        && entries
            .iter()
            .zip(lines.iter())
            .all(|(entry, line)| entry.line == *line)
}

/// Whether each pass has the calls of these lines.
fn have_lines(desks: &[Desk], lines: &[&[u32]]) -> bool {
    desks.len() == lines.len()
        && desks
            .iter()
            .zip(lines.iter())
            .all(|(desk, lines)| has_lines(desk, *lines))
}

/// The passes after ten lines, the first of which has the number 1.
fn after_ten<R: Threads + Wait + Sync + AllocGlobal>(
    rt: &R,
    refused: u32,
) -> Result<(Vec<Desk>, Result<(), NoMemory>), NoMemory> {
    let alloc = rt.alloc();
    let keeper = Keeper { hosts: 2, refused };
    let lines = lines_of(alloc, 10)?;
    let mut desks = desks_of(alloc, 2, 2)?;
    let done = run_together(
        rt,
        &keeper,
        desks.as_mut_slice(),
        1,
        0,
        lines.as_slice(),
        &NoGate,
    );
    Ok((desks, done))
}

#[test]
fn each_pass_does_its_lines_in_order(rt: HostRuntime) -> Result<(), Fail> {
    let (desks, done) = after_ten(&rt, 0)?;
    assert_eq!(rt; done, Ok(()));
    assert!(rt; have_lines(desks.as_slice(), TOGETHER.as_slice()));
    Ok(())
}

#[test]
fn what_was_entered_before_a_refusal_stays(rt: HostRuntime) -> Result<(), Fail> {
    let (desks, done) = after_ten(&rt, 6)?;
    assert_eq!(rt; done, Err(NoMemory));
    assert!(rt; desks.len() == 6 && has_lines(&desks[2], &[2]));
    Ok(())
}

#[test]
fn a_mark_after_every_line_starts_no_thread(rt: HostRuntime) -> Result<(), Fail> {
    let alloc = rt.alloc();
    let keeper = Keeper {
        hosts: 2,
        refused: 0,
    };
    let watch = Watch {
        rt: &rt,
        most: AtomicU64::new(0),
    };
    let lines = lines_of(alloc, 10)?;
    let mut desks = desks_of(alloc, 2, 2)?;
    run_apart(&rt, &keeper, desks.as_mut_slice(), lines.as_slice(), &watch)?;
    assert!(rt; have_lines(desks.as_slice(), APART.as_slice()));
    assert_eq!(rt; watch.most.load(Ordering::SeqCst), threads_now(&rt));
    Ok(())
}
