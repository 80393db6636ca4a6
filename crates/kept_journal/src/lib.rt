//! A list of entries that takes little room.
//!
//! `KeptEntries` is the commands and scrubs of a device, each kept as some bytes, and contracts see the list. What is
//! kept is read where it lies: a `Lender` lends entries one after another, as a list does, several lists at once, or the
//! whole journal of a device.
#![tactic(auto)]

mod both;
mod coding;
mod copying;
mod gathering;
mod kept_entries;
mod kept_steps;
mod lending;
mod lent_journal;
mod lent_lists;
mod lent_shards;
mod lent_steps;
mod reading;
mod slots;
mod tokens;
mod without_extents;

pub use both::Both;
pub use copying::copies;
pub use kept_entries::KeptEntries;
pub use lending::{Lender, Lent};
pub use lent_journal::{Whole, whole};
pub use lent_lists::{LentAccesses, LentEntries};
pub use lent_shards::{Sixteen, WholeOfShards, whole_of_shards};
pub use without_extents::WithoutExtents;
