//! A first cell that is a journal and no more.

use journal_core::Journal;
use script_runner::shared_device::ruled_cells::Chief;
use std::marker::Model;

/// A journal of scrubs.
#[derive(Drop)]
pub struct Ledger {
    pub entries: Journal,
}

impl Model for Ledger {
    ghost use Rattle.std.specs.Prelude.{List};
    ghost use Rattle.journal_core.specs.declared.entries.Entry.{Entry};

    ghost Value = { List Entry };

    ghost view = { λ ledger. ledger.entries };
}

impl Chief for Ledger {
    ghost use Rattle.threads_tests.specs.Tally.{ledger_reads};

    ghost reads = { ledger_reads };

    fn count(&self) -> u64 {
        self.entries.as_slice().len() as u64
    }
}
