//! What a step comes to.

ghost use Rattle.control_core.specs.Decisions.{only_replied};
ghost use Rattle.std.specs.Prelude.{◌≡◌};

use journal_core::{Effects, Reply};
use std::alloc::Global;

/// The reply to a step, and its effects.
#[derive(Drop)]
pub struct Decided {
    /// What is replied.
    pub reply: Reply,
    /// What changes.
    pub effects: Effects,
}

impl Decided {
    /// A reply, and no effects.
    pub(crate) fn only(alloc: Global, reply: Reply) -> Decided
        ensures { result ≡ only_replied reply }
    {
        Decided {
            reply,
            effects: Effects::new(alloc),
        }
    }
}
