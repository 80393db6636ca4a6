//! Who does the acts of the workers.

ghost use Rattle.std.specs.Prelude.{◌≡◌, ◌<◌, ◌^◌, IfOk, IsTrue, OnErr, length};
ghost use Rattle.journal_core.specs.Entries.{fits};
ghost use Rattle.workers.specs.Handling.{AddsCall};

use dcd_base::NoMemory;
use journal_core::{Act, Reply};
use std::sync::Wait;

/// A device that several workers use at once, each with a pass of its own.
pub trait Handler: Sync {
    ghost use Rattle.workers.specs.Handling.{HandlerReads};

    /// One activity of an actor.
    type Pass: Send;

    // How many hosts the device has, which passes are its own, and what it shows of a pass: its number, its actor and
    // its calls so far.
    ghost reads: { HandlerReads Self Self.Pass };

    /// Does an act and answers its reply. Without memory no call was made.
    ///
    /// Whatever it answers, the pass stays the device's, with its number and its actor.
    fn handle<R: Wait>(
        &self,
        rt: &R,
        pass: &mut Self::Pass,
        line: u32,
        act: &Act,
    ) -> Result<Reply, NoMemory>
        requires mine { reads.is_mine self.now pass.old }
        requires fits { IsTrue (fits (reads.hosts self.now) (reads.actor pass.old) act.now) }
        requires room { length (reads.calls pass.old) < 2 ^ 32 }
        ensures mine { reads.is_mine self.now pass.new }
        ensures number { reads.number pass.new ≡ reads.number pass.old }
        ensures actor { reads.actor pass.new ≡ reads.actor pass.old }
        ensures added { IfOk result (λ reply. AddsCall line act.now reply (reads.calls pass.old) (reads.calls pass.new)) }
        ensures kept { OnErr result (reads.calls pass.new ≡ reads.calls pass.old) };
}
