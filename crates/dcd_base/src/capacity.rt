//! Capacity as a host sees it: tags and extents in its own addresses.

ghost use Rattle.std.specs.Prelude.{◌≡◌};
ghost use Rattle.dcd_base.specs.Words.{is_zero_tag, zero_tag};

/// The tag of an allocation, 16 bytes as they stand in a message (CXL 3.1, 8.2.9.2.1.6).
///
/// Sixteen zero bytes are no tag.
#[derive(Clone, Copy, Debug, PartialEq, Eq, PartialOrd, Ord, Hash)]
pub struct Tag(pub [u8; 16]);

/// No tag: sixteen zero bytes.
pub fn no_tag() -> Tag
    ensures { result ≡ zero_tag }
{
    Tag([0; 16])
}

/// Whether it is sixteen zero bytes, which is no tag.
pub fn is_no_tag(tag: &Tag) -> bool
    ensures { result ≡ is_zero_tag tag.now }
{
    tag.0 == [0; 16]
}

/// A range of a host's addresses with its tag and its place in the order of a shared allocation
/// (CXL 3.1, 8.2.9.2.1.6).
#[derive(Clone, Copy, Debug, PartialEq, Eq)]
pub struct Extent {
    /// The first device physical address (DPA), in bytes.
    pub start: u64,
    /// The length in bytes.
    pub length: u64,
    pub tag: Tag,
    /// 0 outside shareable regions; there 1, 2, 3 and so on among the extents of a tag.
    pub sequence: u16,
}
