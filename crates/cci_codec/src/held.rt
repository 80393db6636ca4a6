//! Where the bytes of a payload lie.

use crate::counted::Counted;
use dcd_base::Bytes;
use std::alloc::Global;

/// Where the bytes of a payload lie.
#[derive(Debug, Drop)]
pub enum Held {
    /// In the value, 14 at most.
    Inline(Counted<14>),
    /// In one block on the heap, 72 at most.
    Block(Global, Box<Counted<72>>),
    /// On the heap.
    Apart(Box<Bytes>),
}
