//! The offers of a host, and its responses to them.
//!
//! A host answers its offers oldest first. A response lists what it accepts of the oldest offer, in one message or
//! in several, of which all but the last have More set: the extents of those are held until the last one comes.
#![tactic(auto)]

mod answered;
mod offer;
mod offers;
mod responding;
mod row;

pub use answered::Answered;
pub use offer::Offer;
pub use offers::Offers;
pub use row::broken_rule;
