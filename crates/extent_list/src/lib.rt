//! Lists of extents: what a host has accepted, cut in place, and the rules that every list in a message has to keep.
//!
//! A host's accepted capacity is an `ExtentList`: a response appends extents, and a release or a removal cuts ranges out of
//! them. What takes memory is `reserve` and `copy` alone. Ranges and extents may end past 2^64: no sum wraps.
//!
//! A response, a release, a removal and a prescribed offer each list extents, and share rules. Each call answers the first
//! rule that its part of a row breaks, with the index of the extent that breaks it.
#![tactic(auto)]

mod fitted_front;
mod fitting;
mod limits;
mod list;
mod listed;
mod lookup;
mod orders;
mod owners;
mod pieces;
mod placing;
mod standing;
mod tag_rules;
mod tags;

pub use dcd_codes;
pub use fitting::{Before, append_marked, marked_lists, sharing};
pub use limits::{too_many_extents, too_many_listed};
pub use list::{ExtentList, TooMany};
pub use listed::{Owned, Within, first_unfit};
pub use lookup::Owners;
pub use media_map;
pub use orders::are_apart;
pub use placing::{misplaced, region_at};
pub use tag_rules::incomplete_among;
pub use tags::{has_extent_of, same_tag};
