//! What a command or a scrub changes.

ghost use Rattle.std.specs.Prelude.{◌≡◌, IfOk};

use cci_codec::dcd_base::{Duplicate, Extents, HostId, LogId, NoMemory, RegionId, Run, Tag};
use event_records::Event;
use std::alloc::Global;

/// Extents that a host has listed and not yet ended, in one of two lists.
#[derive(Clone, Copy, Debug, PartialEq, Eq)]
pub enum HeldKind {
    /// Of Add Dynamic Capacity Response commands with More.
    Responses,
    /// Of Release Dynamic Capacity commands with More.
    Releases,
}

/// One change of the device. What the device is at any time follows from the effects so far.
#[derive(Debug, Drop)]
pub enum Effect {
    /// The extents are offered to the host, behind its other offers.
    Offer(HostId, Extents),
    /// The host's oldest offer is answered, and these extents of it are accepted.
    Answer(HostId, Extents),
    /// The host gets the granules.
    Take(HostId, Run),
    /// The host loses the granules.
    Leave(HostId, Run),
    /// The granules' words become 0.
    Zero(Run),
    /// The granules are dirty when nobody holds them, also where their region does not sanitize.
    Soil(Run),
    /// The extents are held until the message that ends their list.
    Hold(HostId, HeldKind, Extents),
    /// The held list is empty.
    Unhold(HostId, HeldKind),
    /// The log gets a record.
    Logged(LogId, Event),
    /// The log was full: a record is only counted.
    Missed(LogId),
    /// So many of the log's oldest records are cleared.
    Cleared(LogId, u16),
    /// The log's count of missed records is 0.
    Reset(LogId),
    /// Whether the Fabric Manager refers to the tag.
    Ref(Tag, bool),
    /// The tag of a shared allocation is used by nobody.
    TagEnd(Tag),
    /// The region has this block size.
    Block(RegionId, u64),
}

impl Effect {
    /// An equal effect. Only lists of extents take memory.
    pub fn copy(&self) -> Result<Effect, NoMemory>
        ensures { IfOk result (λ copy. copy ≡ self.now) }
    {
        match self {
            Effect::Offer(host, extents) => Ok(Effect::Offer(*host, extents.copy()?)),
            Effect::Answer(host, extents) => Ok(Effect::Answer(*host, extents.copy()?)),
            Effect::Take(host, run) => Ok(Effect::Take(*host, *run)),
            Effect::Leave(host, run) => Ok(Effect::Leave(*host, *run)),
            Effect::Zero(run) => Ok(Effect::Zero(*run)),
            Effect::Soil(run) => Ok(Effect::Soil(*run)),
            Effect::Hold(host, kind, extents) => { Ok(Effect::Hold(*host, *kind, extents.copy()?)) }
            Effect::Unhold(host, kind) => Ok(Effect::Unhold(*host, *kind)),
            Effect::Logged(log, event) => Ok(Effect::Logged(*log, *event)),
            Effect::Missed(log) => Ok(Effect::Missed(*log)),
            Effect::Cleared(log, count) => Ok(Effect::Cleared(*log, *count)),
            Effect::Reset(log) => Ok(Effect::Reset(*log)),
            Effect::Ref(tag, is_on) => Ok(Effect::Ref(*tag, *is_on)),
            Effect::TagEnd(tag) => Ok(Effect::TagEnd(*tag)),
            Effect::Block(region, size) => Ok(Effect::Block(*region, *size)),
        }
    }
}

impl Duplicate for Effect {
    fn duplicate_all(alloc: Global, items: &[Effect]) -> Result<Vec<Effect>, NoMemory> {
        let mut copies = Vec::new(alloc);
        for effect in items {
            copies.push(effect.copy()?)?;
        }
        Ok(copies)
    }
}
