//! The rules that a command may break.

ghost use Rattle.dcd_codes.specs.Rules.{code_of};
ghost use Rattle.std.specs.Prelude.{◌≡◌};

use crate::codes::Code;

/// A rule that a command breaks, with the values that say how (profile).
///
/// A command that breaks several is refused for the first in the order of its opcode. An index counts the
/// extents of the list that the command tries, from 0.
#[derive(Clone, Copy, Debug, PartialEq, Eq)]
pub enum Rule {
    /// The actor has no command of this opcode.
    UnknownOpcode(u16),
    /// The payload is not as long as the command's input, in bytes.
    WrongLength { need: u64, have: u64 },
    /// The region's number is at or past the number of regions.
    NoSuchRegion(u8),
    /// The host's number is at or past the number of hosts.
    NoSuchHost(u16),
    /// The first index is above the total.
    PastEnd { first: u32, total: u32 },
    /// The log's number is 5 or more.
    NoSuchLog(u8),
    /// The first handle out of place is in no record of the log behind those that the handles before it name.
    UnknownHandle(u16),
    /// The first handle out of place is in such a record; the value is the handle that is due there.
    OlderLeft(u16),
    /// All events are to be cleared, and the log has missed none.
    NotOverflowed,
    /// That many extents are held and listed, more than 64.
    TooManyListed(u64),
    /// The extent of that index has length 0.
    ZeroLength(u32),
    /// The extent is not within one region of the host, or not within the region that the command names.
    OutsideRegion(u32),
    /// The extent's offset in the region or its length is no multiple of the region's block size.
    Unaligned(u32),
    /// The extent lies in no single extent of the oldest offer.
    NotOffered(u32),
    /// The extent lies in no single accepted extent.
    NotAccepted(u32),
    /// A granule of the extent is not free.
    NotFree(u32),
    /// The extent shares an address with an earlier one of the list; `with` is the first such.
    Overlap { index: u32, with: u32 },
    /// The extent is in a shareable region and is not equal to the extent in which it lies.
    NotWhole(u32),
    /// In a shareable region a tag is listed with fewer extents than it has.
    TagIncomplete { listed: u32, need: u32 },
    /// The host would have that many extents, accepted and offered, more than 64.
    TooManyExtents(u64),
    /// The command has no policy of that number.
    NoSuchPolicy(u8),
    /// The policy is Prescriptive, and no extent is listed.
    EmptyList,
    /// Shared access is to be enabled in a region that is not shareable.
    NotShareable(u8),
    /// The tag is zero where the command needs one.
    ZeroTag,
    /// The tag is live in the device already.
    TagInUse,
    /// No live tag is the one that the command names.
    NoSuchTag,
    /// The host holds the tag or is offered it.
    AlreadyShared,
    /// The length is 0 or no multiple of the block size; the value is in bytes.
    BadLength(u64),
    /// Fewer blocks are free, or adjacent and free, than asked for. Both values are in blocks.
    TooFewFree { need: u64, have: u64 },
    /// The host would have that many tags, more than 32.
    TooManyTags(u32),
    /// The host's event log has fewer free places than records are needed.
    LogFull { host: u8, need: u32, have: u32 },
    /// A flag is set that the device does not support.
    UnsupportedFlag,
    /// The block size is none of the region's; the value is in bytes.
    NotSupportedSize(u64),
    /// The sanitize flag is not the region's setting.
    SanitizeDiffers,
    /// That many granules of the region are not free, at least one.
    RegionInUse(u32),
    /// The manager has no reference to the tag.
    NoReference,
}

/// The code of a response to a command that breaks this rule first (profile).
pub fn code_of(rule: &Rule) -> Code
    ensures { result ≡ code_of rule.now }
{
    match rule {
        Rule::UnknownOpcode(_) | Rule::UnsupportedFlag | Rule::SanitizeDiffers => Code::Unsupported,
        Rule::WrongLength { .. } => Code::InvalidPayloadLength,
        Rule::NoSuchRegion(_)
        | Rule::NoSuchHost(_)
        | Rule::PastEnd { .. }
        | Rule::NoSuchLog(_)
        | Rule::NotOverflowed
        | Rule::NoSuchPolicy(_)
        | Rule::EmptyList
        | Rule::NotShareable(_)
        | Rule::ZeroTag
        | Rule::TagInUse
        | Rule::NoSuchTag
        | Rule::AlreadyShared
        | Rule::BadLength(_)
        | Rule::NotSupportedSize(_)
        | Rule::NoReference => Code::InvalidInput,
        Rule::UnknownHandle(_) | Rule::OlderLeft(_) => Code::InvalidHandle,
        Rule::TooManyListed(_)
        | Rule::TooManyExtents(_)
        | Rule::TooFewFree { .. }
        | Rule::TooManyTags(_) => Code::ResourcesExhausted,
        Rule::ZeroLength(_)
        | Rule::Unaligned(_)
        | Rule::NotFree(_)
        | Rule::Overlap { .. }
        | Rule::NotWhole(_)
        | Rule::TagIncomplete { .. } => Code::InvalidExtentList,
        Rule::OutsideRegion(_) | Rule::NotOffered(_) | Rule::NotAccepted(_) => {
            Code::InvalidPhysicalAddress
        }
        Rule::LogFull { .. } | Rule::RegionInUse(_) => Code::RetryRequired,
    }
}
