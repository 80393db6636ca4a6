//! What a command comes to that breaks no rule.

ghost use Rattle.std.specs.Prelude.{◌≡◌, []};

use crate::log_records::LogRecords;
use cci_codec::dcd_base::{Bytes, Seq, ShortList, Tag};
use journal_core::Effects;
use std::alloc::Global;

/// What a command replies, changes and tells, before it is entered in the journal.
#[derive(Drop)]
pub struct Draft {
    /// The payload of the response.
    pub payload: Bytes,
    /// What it changes, in order, without the ends of tags and the records.
    pub changes: Effects,
    /// The tags that may end by it.
    pub tags: Seq<Tag>,
    /// What it tells, log by log.
    pub log_records: ShortList<LogRecords>,
}

impl Draft {
    /// A payload, and no more.
    pub fn only(alloc: Global, payload: Bytes) -> Draft
        ensures { result ≡ record { payload = payload; changes = []; tags = []; log_records = [] } }
    {
        Draft {
            payload,
            changes: Effects::new(alloc),
            tags: Seq::new(alloc),
            log_records: ShortList::new(),
        }
    }

    /// Changes, and no more.
    pub fn changing(alloc: Global, changes: Effects) -> Draft
        ensures { result ≡ record { payload = []; changes = changes; tags = []; log_records = [] } }
    {
        Draft {
            payload: Bytes::new(alloc),
            changes,
            tags: Seq::new(alloc),
            log_records: ShortList::new(),
        }
    }
}
