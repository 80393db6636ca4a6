//! The numbers of a token, each in its slot. Tokens share slots, so that what is alike need not be told twice.

/// How many slots there are, of a number below 2^64 each.
pub(crate) const SLOTS: usize = 16;

pub(crate) type Slots = [u64; SLOTS];

/// The host that a token is about.
pub(crate) const HOST: usize = 0;

/// The first granule of a run.
pub(crate) const FIRST: usize = 1;

/// How many granules a run has, or how many records are cleared.
pub(crate) const COUNT: usize = 2;

/// The log: the number of its host, or 256 for the manager's.
pub(crate) const LOG: usize = 3;

/// The handle of a record.
pub(crate) const HANDLE: usize = 4;

/// What a record tells.
pub(crate) const EVENT_KIND: usize = 5;

/// The host that a record names.
pub(crate) const EVENT_HOST: usize = 6;

/// The region of the record or of the block size.
pub(crate) const REGION: usize = 7;

/// Whether a further record follows, the manager refers to a tag, or a held list is one of releases.
pub(crate) const FLAG: usize = 8;

/// Where an extent begins.
pub(crate) const START: usize = 9;

/// The length of an extent, or the size of a block.
pub(crate) const LENGTH: usize = 10;

/// The first eight bytes of a tag.
pub(crate) const TAG_LOW: usize = 11;

/// The other eight.
pub(crate) const TAG_HIGH: usize = 12;

/// The sequence number of an extent.
pub(crate) const SEQUENCE: usize = 13;

/// How many more extents a record says that the host can have.
pub(crate) const EXTENTS_LEFT: usize = 14;

/// How many more tags.
pub(crate) const TAGS_LEFT: usize = 15;

/// The bytes that end a token, by its kind. Those below 128 are places: of a byte of a slot.
pub(crate) const MORE: u8 = 128;

pub(crate) const OFFER: u8 = 129;

pub(crate) const ANSWER: u8 = 130;

pub(crate) const HOLD: u8 = 131;

pub(crate) const TAKE: u8 = 132;

pub(crate) const LEAVE: u8 = 133;

pub(crate) const ZERO: u8 = 134;

pub(crate) const SOIL: u8 = 135;

pub(crate) const UNHOLD: u8 = 136;

pub(crate) const LOGGED: u8 = 137;

pub(crate) const MISSED: u8 = 138;

pub(crate) const CLEARED: u8 = 139;

pub(crate) const RESET: u8 = 140;

pub(crate) const REF: u8 = 141;

pub(crate) const TAG_END: u8 = 142;

pub(crate) const BLOCK: u8 = 143;
