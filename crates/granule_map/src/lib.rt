//! The state of each granule of a device, and which free blocks an area has.
//!
//! Contracts see the list of the states in the order of the granules, and nothing of how they are kept. All
//! answers are functions of that list. What takes memory is `new`, `reserve` and `copy` alone.
#![tactic(auto)]

mod blocks;
mod lowest;
mod map;
mod marks;
mod replacing;
mod states;
mod tables;

pub use blocks::FreeBlocks;
pub use map::GranuleMap;
pub use marks::{alike_from, are_few_alike, fill_few};
pub use replacing::Replaced;
pub use states::GranuleState;
pub use tables::GranuleTable;
