//! Why a reference to a tag is not changed.

#[derive(Clone, Copy, Debug, PartialEq, Eq)]
pub enum TagFault {
    /// The tag is not live.
    UnknownTag,
    /// The Fabric Manager has no reference to the tag.
    NotReferenced,
}
