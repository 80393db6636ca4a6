//! Taking a device apart, and the journal that it leaves.

ghost use Rattle.threads_tests.specs.Hosting.{AreRemains};

use crate::told::{Told, told_by};
use crate::two_hosts::TwoHosts;
use dcd_base::{HostId, LogId, NoMemory};
use journal_core::{Accesses, Entry};
use script_runner::device_plain::control_core::Control;
use script_runner::kept_journal::{Lender, Lent};
use script_runner::shared_device::lend_journal;
use std::alloc::Global;
use std::process::Abort;

/// An entry: its pass, its line, what was told, and its stamp, a number and a count.
pub type Row = (u32, u32, Told, (u64, u64));

/// What is left of a device: the first entry that is not as expected; how many entries there are and how many of them are
/// commands and scrubs, how many granules are dirty, and how many records the log of host 0 has.
pub type Ending = (Option<Row>, [u64; 4]);

/// Takes the device apart. Where memory is wanted all comes back, and it is tried once more: then the journal is the same.
fn closed<R: Abort>(rt: &R, device: TwoHosts) -> (Control, Vec<Accesses>)
    ensures { AreRemains result.0.config result.0.entries result.1.items }
{
    let TwoHosts { shared, passes } = device;
    match shared.close(passes) {
        Ok(left) => left,
        Err((NoMemory, shared, passes)) => match shared.close(passes) {
            Ok(left) => left,
            Err(_kept) => panic!(rt; "no memory twice"),
        },
    }
}

fn row_of(entry: &Entry) -> Row {
    let stamp = (entry.stamp.number, entry.stamp.count);
    (entry.pass, entry.line, told_by(&entry.reply), stamp)
}

/// A copy of an entry. Where memory is wanted it is made once more.
fn copy_of(alloc: Global, entry: &Lent<'_>) -> Option<Entry> {
    match entry.copy(alloc) {
        Ok(copy) => Some(copy),
        Err(NoMemory) => entry.copy(alloc).ok(),
    }
}

/// The row of the next entry.
fn next_row<J: Lender>(alloc: Global, journal: &J) -> Option<Row> {
    let entry = copy_of(alloc, &journal.peek()?)?;
    Some(row_of(&entry))
}

/// The first entry that is not that of its row; an entry behind the rows is none.
fn first_other<J: Lender>(alloc: Global, journal: &mut J, rows: &[Row]) -> Option<Row> {
    for row in rows {
        let next = next_row(alloc, journal);
        if next != Some(*row) {
            return next;
        }
        journal.skip();
    }
    None
}

/// What the control and the shards have left.
fn ending_of(alloc: Global, control: &Control, shards: &[Accesses], rows: &[Row]) -> Ending
    requires { AreRemains control.now.config control.now.entries shards.now }
{
    let mut journal = lend_journal(control, shards);
    let entries = journal.len();
    let other = first_other(alloc, &mut journal, rows);
    (
        other,
        [
            entries,
            control.entries().len() as u64,
            u64::from(control.dirty()),
            u64::from(control.records(LogId::Host(HostId(0)))),
        ],
    )
}

/// Takes the device apart, and compares what it leaves with the first rows of its journal.
pub fn end<R: Abort>(rt: &R, alloc: Global, device: TwoHosts, rows: &[Row]) -> Ending {
    let (control, shards) = closed(rt, device);
    ending_of(alloc, &control, shards.as_slice(), rows)
}
