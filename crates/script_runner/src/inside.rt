//! The gate as the shared device calls it.

use dcd_base::{Actor, Gate};
use shared_device::Moment;

/// A gate, called while a load or a store has the turn of its shard.
#[derive(Clone, Copy)]
pub(crate) struct Inside<'a, G> {
    pub(crate) gate: &'a G,
}

impl<'a, G: Gate> Moment for Inside<'a, G> {
    fn inside(&self, actor: Actor, line: u32) {
        self.gate.inside(actor, line);
    }
}
