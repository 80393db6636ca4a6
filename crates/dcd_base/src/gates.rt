//! Where a test may hold up a worker.

use crate::steps::Actor;

/// Called at chosen moments of a run, so that a test can bring about an order of steps.
///
/// It answers nothing and has no meaning: what the device does is the same whatever a gate does.
pub trait Gate: Sync {
    /// Before each line of a worker.
    fn before(&self, actor: Actor, line: u32);

    /// While a load or store has the turn of its shard.
    fn inside(&self, actor: Actor, line: u32);
}

/// A gate that does nothing.
#[derive(Clone, Copy, Debug, PartialEq, Eq)]
pub struct NoGate;

impl Gate for NoGate {
    fn before(&self, _actor: Actor, _line: u32) {}

    fn inside(&self, _actor: Actor, _line: u32) {}
}
