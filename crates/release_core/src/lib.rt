//! Capacity that leaves a host: given back by the host, or removed by the Fabric Manager.
//!
//! A Release Dynamic Capacity (4803h, CXL 3.1, 8.2.9.9.9.4) and an Initiate Dynamic Capacity Release (5605h, profile)
//! list extents of which each has to lie in an accepted one. Each call answers the extents that go, with the tag and
//! the sequence of the accepted extent in which each lies, or the first broken rule of its row. What a message says
//! of tags and sequences is not read.
#![tactic(auto)]

mod counting;
mod marking;
mod releases;
mod removals;

pub use releases::{GivenBack, Releases, broken_rule};
pub use removals::{by_tag, removal};
