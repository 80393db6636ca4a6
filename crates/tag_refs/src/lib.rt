//! The live tags of shareable regions, in the order in which they were opened: which hosts hold each of them,
//! which are offered it, and whether the Fabric Manager has a reference to it.
//!
//! A tag lives while one of these is left. Calls that answer whether a tag ended take its entry out; the others leave that
//! to `Tags::end`.
#![tactic(auto)]

mod changes;
mod entries;
mod faults;
mod tables;

pub use entries::TagEntry;
pub use faults::TagFault;
pub use tables::Tags;
