//! What the Fabric Manager is shown of a tag.

use crate::capacity::Tag;

/// A live shareable tag as the reply to List Tags shows it (profile).
#[derive(Clone, Copy, Debug, PartialEq, Eq)]
pub struct TagView {
    pub tag: Tag,
    /// Bit h stands where host h holds the tag.
    pub holders: u16,
    /// Bit h stands where host h is offered the tag.
    pub offered: u16,
    /// Whether the manager has a reference to it.
    pub referenced: bool,
}
