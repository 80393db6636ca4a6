//! Capacity as the device sees it: runs of granules, words and who holds them.

ghost use Rattle.std.specs.Prelude.{◌≡◌, ◌%◌};

use crate::ids::{Granule, RegionId};

/// Adjacent granules of one region, at least one.
#[derive(Clone, Copy, Debug, PartialEq, Eq)]
pub struct Run {
    pub first: Granule,
    /// How many granules, from 1.
    pub count: u32,
}

/// Where a 64-bit word lies.
#[derive(Clone, Copy, Debug, PartialEq, Eq)]
pub struct Place {
    pub region: RegionId,
    pub granule: Granule,
    /// The number of the word in its granule, from 0; eight bytes each.
    pub word: u64,
}

/// What a command does to the granules of a run: who holds them after it, and whether their words are zeroed.
#[derive(Clone, Copy, Debug, PartialEq, Eq)]
pub struct Change {
    pub run: Run,
    /// Bit h stands where host h holds them.
    pub holders: u16,
    pub zero: bool,
}

/// The shard that keeps a granule's words: its number modulo 16.
pub fn shard_of(granule: Granule) -> u32
    ensures { result ≡ granule % 16 }
{
    granule.0 % 16
}
