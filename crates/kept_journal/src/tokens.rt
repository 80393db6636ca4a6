//! What is kept of effects, one part after another.

use dcd_base::{Extent, HostId, LogId, RegionId, Run, Tag};
use event_records::Event;
use journal_core::HeldKind;

/// An effect, or one extent of the effect that follows. So none of them takes memory.
#[derive(Clone, Copy, Debug)]
pub(crate) enum Token {
    /// An extent of the next `Offer`, `Answer` or `Hold`.
    More(Extent),
    Offer(HostId),
    Answer(HostId),
    Hold(HostId, HeldKind),
    Take(HostId, Run),
    Leave(HostId, Run),
    Zero(Run),
    Soil(Run),
    Unhold(HostId, HeldKind),
    Logged(LogId, Event),
    Missed(LogId),
    Cleared(LogId, u16),
    Reset(LogId),
    Ref(Tag, bool),
    TagEnd(Tag),
    Block(RegionId, u64),
}
