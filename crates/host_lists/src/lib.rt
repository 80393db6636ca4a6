//! All lists that the device keeps of one host.
//!
//! They are its accepted extents, its unanswered offers, what it holds of responses and releases with More, and how
//! often its accepted list changed. Each effect of a step changes them by a call of its own, without memory.
#![tactic(auto)]

mod accepted;
mod changes;
mod entering;
mod lists;
mod offer_lists;
mod offering;
mod releasing;
mod standing;
mod tag_counts;

pub use accepted::AcceptedList;
pub use lists::HostLists;
pub use release_core;
