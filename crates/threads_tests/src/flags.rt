//! What two threads tell each other.

use dcd_base::Actor;
use script_runner::shared_device::Moment;
use std::sync::atomic::{AtomicBool, AtomicU32, Ordering};
use std::thread::yield_now;

/// How often a thread looks for the other.
const LOOKS: u32 = 50_000_000;

/// What two threads tell each other, and the test.
#[derive(Drop)]
pub struct Flags {
    /// The load has its turn.
    pub begun: AtomicBool,
    /// The tries beside it are done.
    pub tried: AtomicBool,
    /// One of them waited too long.
    pub late: AtomicBool,
    /// How many answers were right.
    pub right: AtomicU32,
}

impl Flags {
    pub fn new() -> Flags {
        Flags {
            begun: AtomicBool::new(false),
            tried: AtomicBool::new(false),
            late: AtomicBool::new(false),
            right: AtomicU32::new(0),
        }
    }

    /// Looks at one of them until it is raised.
    pub fn await_one(&self, flag: &AtomicBool) {
        for _ in 0..LOOKS {
            if flag.load(Ordering::SeqCst) {
                return;
            }
            yield_now();
        }
        self.late.store(true, Ordering::SeqCst);
    }

    /// Counts an answer that is right.
    pub fn count(&self, is_right: bool) {
        if is_right {
            self.right.fetch_add(1, Ordering::SeqCst);
        }
    }

    /// How many answers were right, and whether a thread waited too long.
    pub fn found(&self) -> (u32, bool) {
        (
            self.right.load(Ordering::SeqCst),
            self.late.load(Ordering::SeqCst),
        )
    }
}

/// A load keeps its turn until the tries beside it are done.
impl Moment for Flags {
    fn inside(&self, _actor: Actor, _line: u32) {
        self.begun.store(true, Ordering::SeqCst);
        self.await_one(&self.tried);
    }
}
