//! What the first cell holds.

/// The value of the first cell. It holds the journal of the commands and scrubs.
pub trait Chief {
    ghost use Rattle.std.specs.Prelude.{◌≡◌, length};
    ghost use Rattle.ruled_cells.specs.Reads.{ChiefReads};

    // What the rule reads of it: its journal, the configuration that it was made with, the actor of each seat, and
    // what makes the journal sound for it.
    ghost reads: { ChiefReads Self };

    /// How many entries the journal has.
    fn count(&self) -> u64
        ensures { result ≡ length (reads.journal self.now) };
}
