//! Where a test may hold up a pass that has a turn.

use dcd_base::{Actor, NoGate};

/// Called while a load or a store has the turn of its shard.
///
/// It answers nothing and has no meaning: what the device does is the same whatever a moment does.
pub trait Moment {
    /// This actor has the turn for its line.
    fn inside(&self, actor: Actor, line: u32);
}

impl Moment for NoGate {
    fn inside(&self, _actor: Actor, _line: u32) {}
}
