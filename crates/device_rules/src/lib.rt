//! The written rules of the device, and what every legal journal keeps.
//!
//! `specs/` says what the journal so far makes of each host, each granule, each tag and each log; which rule a command breaks
//! first; and what it replies and does. A law does nothing: its clause says what holds.
#![tactic(auto)]

mod granules;
mod holdings;
mod in_order;
mod laws;
mod lives;
mod open_tags;
mod tags;

pub use granules::law_granule_table;
pub use holdings::{law_block_sizes, law_exclusive, law_promised_once, law_sound};
pub use in_order::law_in_order;
pub use laws::{law_logs, law_refused, law_scrubbed, law_unseen};
pub use lives::{law_ends_with_life, law_tags_live};
pub use open_tags::law_open_tags;
pub use tags::{
    law_referenced, law_tags_of_host, law_tags_offered, law_tags_quiet, law_tags_referenced,
    law_tags_shown,
};
