//! Which capacity an offer is made of: the three policies by which the manager has blocks selected.
//!
//! Free and Contiguous answer runs of granules in the order of the offer, in memory that they are given, or the rule
//! that the request breaks. Prescriptive answers the first rule that a list breaks, since the list itself is the offer.
//! The map of states is read and never changed.
#![tactic(auto)]

pub use granule_map;

mod adjacent;
mod blocks;
mod listed;
mod lowest;

pub use adjacent::contiguous;
pub use listed::prescriptive_rule;
pub use lowest::free;
