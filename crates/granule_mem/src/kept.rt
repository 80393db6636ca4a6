//! Where the words of a granule lie.

use std::alloc::Global;
use std::collections::BTreeMap;

/// Where the words of a granule lie, each beside its number.
#[derive(Debug, Drop)]
pub enum Kept {
    /// A few, in the order in which they were first stored.
    Few(Vec<(u64, u64)>),
    /// Any number, in the order of their numbers.
    Many(Global, BTreeMap<u64, u64>),
}
