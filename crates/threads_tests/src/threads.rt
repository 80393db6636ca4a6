//! How many threads a run has.
use dcd_base::{Actor, Gate};
use std::fs;
use std::sync::atomic::{AtomicU64, Ordering};

/// The number of threads that the text of a process's `stat` tells.
fn threads_in(stat: &str) -> Option<u64> {
    let (_, words) = stat.rsplit_once(')')?;
    words.split_whitespace().nth(17)?.parse().ok()
}

/// So often it is read how many threads there are.
const READINGS: u32 = 20;

/// How many threads the process has, or 0 where that cannot be read. It is the least of several readings, because the system counts
/// a thread that has ended and was joined for a moment longer.
pub fn threads_now(rt: &HostRuntime) -> u64 {
    let mut least = threads_counted(rt);
    for _ in 1..READINGS {
        least = least.min(threads_counted(rt));
    }
    least
}

fn threads_counted(rt: &HostRuntime) -> u64 {
    match fs::read_to_string(rt, "/proc/self/stat") {
        Ok(stat) => threads_in(stat.as_str()).unwrap_or(0),
        Err(_) => 0,
    }
}

/// A gate that remembers the most threads that there were before a line.
#[derive(Drop)]
pub struct Watch<'a> {
    pub rt: &'a HostRuntime,
    pub most: AtomicU64,
}

impl<'a> Gate for Watch<'a> {
    fn before(&self, _actor: Actor, _line: u32) {
        self.most.fetch_max(threads_now(self.rt), Ordering::SeqCst);
    }

    fn inside(&self, _actor: Actor, _line: u32) {}
}
