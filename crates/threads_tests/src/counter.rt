//! A cell that is a counter with its history.
ghost use Rattle.threads_tests.specs.Tally.{Tally, tally_changes, tally_enters, tally_keeps, tally_makes, tally_reads, tally_stays};

use dcd_base::Stamp;
use journal_core::Journal;
use script_runner::shared_device::ruled_cells::Member;
use std::marker::Model;

/// It counts its accesses and the scrubs that name its index.
#[derive(Drop)]
pub struct Counter {
    pub index: u32,
    pub value: u64,
    pub entries: Journal,
    pub clock: Stamp,
}

impl Model for Counter {
    ghost Value = { Tally };

    ghost view = { λ c. record { index = c.index; value = c.value; entries = c.entries; clock = c.clock } };
}

impl Member for Counter {
    ghost reads = { tally_reads };

    ghost enters = { tally_enters };

    ghost changes = { tally_changes };

    ghost stays = { tally_stays };

    ghost keeps = { tally_keeps };

    ghost makes = { tally_makes };
}
