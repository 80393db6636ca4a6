//! Tests of the threads: cells and shards, phases and workers, the shared device, the printed text and the run.
#![tactic(auto)]

#[cfg(test)]
mod asking;
#[cfg(test)]
mod beside;
#[cfg(test)]
mod conversations;
#[cfg(test)]
mod counter;
#[cfg(test)]
mod cuts;
#[cfg(test)]
mod desks;
#[cfg(test)]
mod ending;
#[cfg(test)]
mod flags;
#[cfg(test)]
mod gates;
#[cfg(test)]
mod keeper;
#[cfg(test)]
mod lanes;
#[cfg(test)]
mod ledger;
#[cfg(test)]
mod lines;
#[cfg(test)]
mod marked;
#[cfg(test)]
mod parted;
#[cfg(test)]
mod phases;
#[cfg(test)]
mod pieces;
#[cfg(test)]
mod refusals;
#[cfg(test)]
mod runs;
#[cfg(test)]
mod seeing;
#[cfg(test)]
mod shards;
#[cfg(test)]
mod threads;
#[cfg(test)]
mod told;
#[cfg(test)]
mod trouble;
#[cfg(test)]
mod two_hosts;
#[cfg(test)]
mod waiting;
#[cfg(test)]
mod written;
