//! What a granule is at a time.

ghost use Rattle.granule_map.specs.StateLists.{host_of, is_dirty_state, is_free_state, mark_of, same_state, told};
ghost use Rattle.std.specs.Prelude.{◌≡◌};

use dcd_base::{HostId, Tag};

/// The mark of a granule that may be offered.
pub(crate) const FREE: u8 = 0;
/// The mark of one that is offered to a host.
pub(crate) const RESERVED: u8 = 1;
/// The mark of one that a host holds.
pub(crate) const HELD: u8 = 2;
/// The mark of one that belongs to a tag.
pub(crate) const TAGGED: u8 = 3;
/// The mark of one that has to be zeroed before it is free.
pub(crate) const DIRTY: u8 = 4;

/// The state of a granule.
#[derive(Clone, Copy, Debug, PartialEq, Eq)]
pub enum GranuleState {
    /// It may be offered.
    Free,
    /// It stands in an unanswered offer to the host.
    Reserved(HostId),
    /// The host holds it.
    Held(HostId),
    /// It belongs to a live shareable tag.
    Tagged(Tag),
    /// It was taken and not zeroed since, and has to be zeroed before it is free.
    Dirty,
}

impl GranuleState {
    /// Whether the granule may be offered.
    pub fn is_free(&self) -> bool
        ensures { result ≡ is_free_state self.now }
    {
        matches!(self, GranuleState::Free)
    }

    /// Whether the granule has to be zeroed before it is free.
    pub fn is_dirty(&self) -> bool
        ensures { result ≡ is_dirty_state self.now }
    {
        matches!(self, GranuleState::Dirty)
    }

    /// The mark by which granules of such a state are found.
    pub(crate) fn mark(&self) -> u8
        ensures { result ≡ mark_of self.now }
    {
        match self {
            GranuleState::Free => FREE,
            GranuleState::Reserved(_) => RESERVED,
            GranuleState::Held(_) => HELD,
            GranuleState::Tagged(_) => TAGGED,
            GranuleState::Dirty => DIRTY,
        }
    }

    /// The number of the host that it names, or 0 where it names none.
    pub(crate) fn host(&self) -> u8
        ensures { result ≡ host_of self.now }
    {
        match self {
            GranuleState::Reserved(host) => host.0,
            GranuleState::Held(host) => host.0,
            _ => 0,
        }
    }
}

/// The state of a granule by its mark, which says whether its host or its tag counts.
pub(crate) fn told(mark: u8, host: u8, tag: &Tag) -> GranuleState
    ensures { result ≡ told mark host tag.now }
{
    match mark {
        FREE => GranuleState::Free,
        RESERVED => GranuleState::Reserved(HostId(host)),
        HELD => GranuleState::Held(HostId(host)),
        TAGGED => GranuleState::Tagged(*tag),
        _ => GranuleState::Dirty,
    }
}

/// Whether these are one state, of one host or tag.
pub(crate) fn is_same_state(a: &GranuleState, b: &GranuleState) -> bool
    ensures { result ≡ same_state a.now b.now }
{
    match (a, b) {
        (GranuleState::Free, GranuleState::Free) => true,
        (GranuleState::Reserved(first), GranuleState::Reserved(second)) => first == second,
        (GranuleState::Held(first), GranuleState::Held(second)) => first == second,
        (GranuleState::Tagged(first), GranuleState::Tagged(second)) => first == second,
        (GranuleState::Dirty, GranuleState::Dirty) => true,
        _ => false,
    }
}
