//! What the commands of hosts and of the Fabric Manager share, and the two commands that both have.
//!
//! Each command has a file of its own by the specification's name: those of hosts in `host_commands`, those of the
//! manager in `manager_commands`, and here the two of event logs, which both have. It answers a draft, or the first rule
//! of its row that the command breaks; nothing that the device keeps is changed. In each such file come, in this order,
//! what is read, the first broken rule, the reply and the changes. Beside them stands what several share:
//! `draft`, `few`, `leaves`, `log_records`, `pages`, `putting`, `responses`, `runs` and `tags`.
//! None of it reads more of the device than its configuration, a host's lists and a log.
#![tactic(auto)]

mod clear_event_records;
mod draft;
mod few;
mod get_event_records;
mod leaves;
mod log_records;
mod pages;
mod putting;
mod responses;
mod runs;
mod tags;

pub use cci_codec::dcd_base::ShortList;
pub use clear_event_records::clear_events;
pub use device_rules;
pub use draft::Draft;
pub use few::Few;
pub use get_event_records::get_events;
pub use host_lists;
pub use leaves::append_leaves;
pub use log_records::{LogRecords, Told, event_for, no_extent, records_of_extents, records_to};
pub use pages::{Flags, extents_page, host_counts, regions_seen};
pub use putting::append_effect;
pub use responses::{answer, refused};
pub use runs::run_of;
pub use tags::tags_of;
