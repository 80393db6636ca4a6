//! Workers that wait for each other: two loads are in their shards at once, and how often a gate is called, among how many threads.

use crate::seeing::see;
use crate::threads::{Watch, threads_now};
use crate::written::word_of;
use dcd_base::{Actor, Bytes, Gate, MemSink, MemSource};
use script_runner::{Status, run};
use std::alloc::{AllocGlobal, Global};
use std::sync::Wait;
use std::sync::atomic::{AtomicBool, AtomicU64, Ordering};
use std::test::Fail;
use std::thread::{Threads, yield_now};

// Scripts in hexadecimal digits, as `docs/formats.md` has their bytes: the manager offers two blocks in lines 1 and 2, lines 4
// and 5 accept them, line 7 loads from the first block, and lines 8 and 9, of another worker, from the second. Lines 3 and
// 6 are marks.

const OF_TWO_HOSTS: [&str; 9] = [
    "44434453010000000202000000000000010000000000000000000001000000000000100000000000000010000000000000000000010000000100000000000000",
    "00004000000000000000100000000000000010000000000001000000030000000000000000000000000000100000000000000010000000000000002000000000",
    "01fe5400000000045648000000000000000002000000000000000000000000000000000000000000000000000100000000000000000000000000100000000000",
    "000000000000000000000000000000000000000000000000",
    "01fe5400000000045648000000000000010002000000000000000000000000000000000000000000000000000100000000001010000000000000100000000000",
    "00000000000000000000000000000000000000000000000005",
    "01002c000000000248200000000000000100000000000000000000000000000000001000000000000000000000000000",
    "01012c0000000002482000000000000001000000000000000000101000000000000010000000000000000000000000000502000000000000000000",
    "020100001010000000000201000010100000000000",
];

/// Two lanes of host 0.
const OF_TWO_LANES: [&str; 9] = [
    "44434453020000000202020000000000010000000000000000000001000000000000100000000000000010000000000000000000010000000100000000000000",
    "00004000000000000000100000000000000010000000000001000000030000000000000000000000000000100000000000000010000000000000002000000000",
    "01fe5400000000045648000000000000000002000000000000000000000000000000000000000000000000000100000000000000000000000000100000000000",
    "000000000000000000000000000000000000000000000000",
    "01fe5400000000045648000000000000000002000000000000000000000000000000000000000000000000000100000000001000000000000000100000000000",
    "00000000000000000000000000000000000000000000000005",
    "01002c000000000248200000000000000100000000000000000000000000000000001000000000000000000000000000",
    "01102c0000000002482000000000000001000000000000000000100000000000000010000000000000000000000000000502000000000000000000",
    "021000001000000000000210000010000000000000",
];

/// What the workers of the loads tell each other.
#[derive(Drop)]
struct Meeting {
    /// The load of line 7 has its turn.
    inside: AtomicBool,
    /// Line 9 is next.
    before: AtomicBool,
    /// How many waits ended in time.
    met: AtomicU64,
}

/// How often a worker looks for the other.
const LOOKS: u32 = 50_000_000;

impl Meeting {
    fn new() -> Meeting {
        Meeting {
            inside: AtomicBool::new(false),
            before: AtomicBool::new(false),
            met: AtomicU64::new(0),
        }
    }

    /// Looks at one of them until it is raised.
    fn await_one(&self, flag: &AtomicBool) {
        for _ in 0..LOOKS {
            if flag.load(Ordering::SeqCst) {
                self.met.fetch_add(1, Ordering::SeqCst);
                return;
            }
            yield_now();
        }
    }
}

/// Line 7 keeps its turn until line 9 is next, and line 8 waits for that turn.
impl Gate for Meeting {
    fn before(&self, _actor: Actor, line: u32) {
        match line {
            8 => self.await_one(&self.inside),
            9 => self.before.store(true, Ordering::SeqCst),
            _ => {}
        }
    }

    fn inside(&self, _actor: Actor, line: u32) {
        if line == 7 {
            self.inside.store(true, Ordering::SeqCst);
            self.await_one(&self.before);
        }
    }
}

/// The bytes of these digits.
pub fn bytes_of(alloc: Global, digits: &[&str]) -> Result<Bytes, Fail> {
    let mut bytes = Bytes::new(alloc);
    for line in digits {
        bytes.extend_from_slice(hex::decode(alloc, *line)?.as_slice())?;
    }
    Ok(bytes)
}

/// How the run of a script by these words ends, which prints to the sink.
pub fn ends<R: Threads + Wait + Sync + AllocGlobal, G: Gate>(
    rt: &R,
    words: &[String],
    script: Bytes,
    gate: &G,
    sink: &mut MemSink,
) -> Status {
    let alloc = rt.alloc();
    let mut source = MemSource::new(script, 4096, Vec::new(alloc));
    run(rt, alloc, words, &mut source, sink, gate)
}

/// How the run of the script ends, and how many of its two waits ended in time.
fn meets<R: Threads + Wait + Sync + AllocGlobal>(
    rt: &R,
    digits: &[&str],
) -> Result<(Status, u64), Fail> {
    let meeting = Meeting::new();
    let mut sink = MemSink::new(rt.alloc(), 4096, Vec::new(rt.alloc()));
    let script = bytes_of(rt.alloc(), digits)?;
    let status = ends(rt, &[], script, &meeting, &mut sink);
    Ok((status, meeting.met.load(Ordering::SeqCst)))
}

#[test]
fn loads_of_two_hosts_are_in_their_shards_at_once(rt: HostRuntime) -> Result<(), Fail> {
    see(&rt, &meets(&rt, &OF_TWO_HOSTS)?, &(Status::Done, 2));
    Ok(())
}

#[test]
fn loads_of_two_lanes_are_in_their_shards_at_once(rt: HostRuntime) -> Result<(), Fail> {
    see(&rt, &meets(&rt, &OF_TWO_LANES)?, &(Status::Done, 2));
    Ok(())
}

/// A gate that counts its calls, and looks before some lines how many threads there are.
#[derive(Drop)]
struct Counting<'a> {
    before: AtomicU64,
    inside: AtomicU64,
    watch: Watch<'a>,
}

/// Of so many lines it looks before one.
const LINES: u32 = 32;

impl<'a> Gate for Counting<'a> {
    fn before(&self, actor: Actor, line: u32) {
        self.before.fetch_add(1, Ordering::SeqCst);
        if line % LINES == 0 {
            self.watch.before(actor, line);
        }
    }

    fn inside(&self, _actor: Actor, _line: u32) {
        self.inside.fetch_add(1, Ordering::SeqCst);
    }
}

/// How the run of the generated script of seed 5 ends, and how often the gate is called before a line and inside an access.
fn counted<R: Threads + Wait + Sync + AllocGlobal>(
    rt: &R,
    counting: &Counting<'_>,
) -> Result<(Status, u64, u64), Fail> {
    let mut sink = MemSink::new(rt.alloc(), 4096, Vec::new(rt.alloc()));
    let (words, nothing) = (word_of(rt.alloc(), "--gen=5")?, Bytes::new(rt.alloc()));
    let status = ends(rt, words.as_slice(), nothing, counting, &mut sink);
    let before = counting.before.load(Ordering::SeqCst);
    Ok((status, before, counting.inside.load(Ordering::SeqCst)))
}

#[test]
fn the_lines_of_the_generated_script_are_done_by_workers(rt: HostRuntime) -> Result<(), Fail> {
    let alone = threads_now(&rt);
    let counting = Counting {
        before: AtomicU64::new(0),
        inside: AtomicU64::new(0),
        watch: Watch {
            rt: &rt,
            most: AtomicU64::new(0),
        },
    };
    let found = counted(&rt, &counting)?;
    see(&rt, &found, &(Status::Done, 37_115, 32_768));
    // Four hosts at once, of which the caller does one's lines.
    let most = counting.watch.most.load(Ordering::SeqCst);
    see(
        &rt,
        &(alone < most && most <= alone.saturating_add(3)),
        &true,
    );
    Ok(())
}
