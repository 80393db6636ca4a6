//! Journals that are merged.

use crate::seeing::see_list;
use dcd_base::{AccessFault, Actor, HostId, NoMemory, Stamp};
use journal_core::{Act, Effects, Entry, Journal, Reply, merge};
use std::alloc::Global;
use std::test::Fail;

/// A load of the host with this stamp.
fn entry(alloc: Global, host: u8, number: u64, count: u64) -> Entry {
    Entry {
        pass: u32::from(host),
        line: 1,
        actor: Actor::Host(HostId(host)),
        act: Act::Load(0),
        reply: Reply::Refused(AccessFault::NotGranted),
        effects: Effects::new(alloc),
        stamp: Stamp { number, count },
    }
}

/// A journal of loads of the host with these stamps.
fn journal(alloc: Global, host: u8, stamps: &[(u64, u64)]) -> Result<Journal, NoMemory> {
    let mut journal = Journal::new(alloc);
    for (number, count) in stamps {
        journal.push(entry(alloc, host, *number, *count))?;
    }
    Ok(journal)
}

/// The pass and the stamp of each entry.
fn order(alloc: Global, journal: &Journal) -> Result<Vec<(u32, u64, u64)>, NoMemory> {
    let mut order = Vec::new(alloc);
    for entry in journal.as_slice() {
        order.push((entry.pass, entry.stamp.number, entry.stamp.count))?;
    }
    Ok(order)
}

fn two_shards(alloc: Global) -> Result<Vec<Journal>, NoMemory> {
    let mut shards = Vec::new(alloc);
    shards.push(journal(alloc, 0, &[(0, 1), (1, 0), (1, 2)])?)?;
    shards.push(journal(alloc, 1, &[(1, 1), (1, 2)])?)?;
    Ok(shards)
}

/// The order of the merged journal of the control and shards.
fn order_with(alloc: Global, shards: &[Journal]) -> Result<Vec<(u32, u64, u64)>, NoMemory> {
    let control = journal(alloc, 9, &[(1, 0), (2, 0)])?;
    order(alloc, &merge(alloc, &control, shards)?)
}

/// The order of the merged journal of the control and two shards.
fn merged(alloc: Global) -> Result<Vec<(u32, u64, u64)>, NoMemory> {
    order_with(alloc, two_shards(alloc)?.as_slice())
}

/// The pass, the number and the count of each entry of the merged journal.
const MERGED: [(u32, u64, u64); 7] = [
    (0, 0, 1),
    (9, 1, 0),
    (0, 1, 0),
    (1, 1, 1),
    (0, 1, 2),
    (1, 1, 2),
    (9, 2, 0),
];

#[test]
fn a_merge_is_in_the_order_of_the_stamps_and_the_control_first(
    rt: HostRuntime,
) -> Result<(), Fail> {
    see_list(&rt, merged(rt.alloc())?.as_slice(), &MERGED);
    Ok(())
}
