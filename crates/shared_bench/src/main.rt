//! Loads, stores and commands by one pass and by many, on the device that threads share or on the serial one, for `bench/run` to
//! time.
//!
//! The words: `shared` or `serial`; then `one`, `apart` or `together` for loads and stores by one host, by sixteen hosts in
//! shards of their own, or by sixteen in one shard, or `manager` or `all` for commands by the manager, or by it and sixteen
//! hosts; then how many steps each takes.
#![tactic(auto)]

mod asking;
mod hand;
mod hands;
mod job;
mod serial;

use crate::asking::config;
use crate::hands::{hands_of, work_all};
use crate::job::{Job, Kind, Which};
use crate::serial::work_serially;
use dcd_base::NoMemory;
use shared_device::Shared;
use std::alloc::Global;
use std::env;
use std::process::ExitCode;
use std::sync::Wait;
use std::thread::Threads;

/// Does the job on a shared device. How many steps were done.
fn work_shared<R: Threads + Wait + Sync>(
    rt: &R,
    alloc: Global,
    job: &Job,
) -> Result<u64, NoMemory> {
    let (shared, passes) = Shared::start(alloc, config(alloc)?, 1)?;
    let mut hands = hands_of(alloc, &shared, passes)?;
    work_all(rt, alloc, job, hands.as_mut_slice())
}

/// The device that a word names.
fn which_of(word: &str) -> Option<Which> {
    match word {
        "shared" => Some(Which::Shared),
        "serial" => Some(Which::Serial),
        _ => None,
    }
}

/// What the words ask for.
fn job_of(words: &[String]) -> Option<(Which, Job)> {
    let [_, which, kind, steps] = words else {
        return None;
    };
    let which = which_of(which.as_str())?;
    let kind = Kind::of_word(kind.as_str())?;
    let steps: u32 = steps.as_str().parse().ok()?;
    Some((which, Job { kind, steps }))
}

/// The words of the command line.
fn words(rt: &HostRuntime) -> Result<Vec<String>, anyhow::Error> {
    let mut words = Vec::new(rt.alloc());
    for word in env::args(rt)? {
        words.push(word)?;
    }
    Ok(words)
}

fn main(rt: HostRuntime) -> Result<ExitCode, anyhow::Error> {
    let words = words(&rt)?;
    let Some((which, job)) = job_of(words.as_slice()) else {
        println!(rt; "usage: shared_bench shared|serial one|apart|together|manager|all STEPS")?;
        return Ok(ExitCode::from(2));
    };
    let done = match which {
        Which::Shared => work_shared(&rt, rt.alloc(), &job)?,
        Which::Serial => work_serially(rt.alloc(), &job)?,
    };
    println!(rt; "{done} steps")?;
    let is_whole = done == u64::from(job.steps) * u64::from(job.kind.workers());
    Ok(ExitCode::from(u8::from(!is_whole)))
}
