//! Why a text says no script.

ghost use Rattle.text_lines.specs.declared.faults.TextFault.TheVariants.{NoMemory as OutOfMemory};
ghost use Rattle.std.specs.Prelude.{◌≡◌};

use crate::keywords::Keyword;
use cci_codec::MessageFault;
use dcd_base::NoMemory;
use region_config::ConfigFault;
use std::alloc::AllocFailed;

/// What the grammar has at a place.
#[derive(Clone, Copy, Debug, PartialEq, Eq)]
pub enum Wanted {
    Keyword(Keyword),
    /// The version of the script, `1` or `2`.
    Version,
    /// 1 to 4 lanes.
    Lanes,
    Number,
    /// A decode length, a multiple of 256 MiB.
    Decode,
    /// Block sizes, powers of two with commas between them.
    Sizes,
    /// An extent, `START+LENGTH`.
    Extent,
    /// A tag, 32 hexadecimal digits.
    Tag,
    /// `h` and the number of a host.
    Host,
    /// A host, with a lane in version 2, or `fm`.
    Actor,
    /// A line of the script: `mark`, `scrub`, `command` or an actor.
    Line,
    HostCommand,
    ManagerCommand,
    /// A policy of Initiate Dynamic Capacity Add.
    AddPolicy,
    /// A policy of Initiate Dynamic Capacity Release.
    ReleasePolicy,
    /// Pairs of hexadecimal digits.
    Bytes,
    /// Nothing more on that line.
    End,
}

/// What is wrong with a word.
#[derive(Clone, Copy, Debug, PartialEq, Eq)]
pub enum Cause {
    /// It is missing, or another than the grammar has there.
    Wanted(Wanted),
    /// It is out of form.
    OutOfForm(Wanted),
    /// A number of it is above that, the most that its field has room for.
    TooLarge(u64),
    /// The script has no such host or lane.
    NoSuchActor,
    /// A region or a host is not the next one, which has that number.
    OutOfTurn(u64),
    /// The configuration that ends before the word is refused.
    BadConfig(ConfigFault),
    /// The message that begins there is no request.
    BadMessage(MessageFault),
    /// The message would have more than 65,535 bytes.
    MessageTooLong,
    /// It begins line 65,537 of the script.
    TooManyLines,
    /// The script that ends before it has more than 16,777,216 bytes.
    TooLong,
}

/// Why a text says no script.
#[derive(Clone, Copy, Debug, PartialEq, Eq)]
pub enum TextFault {
    /// The first fault: its line and its word, both from 1.
    Refused { line: u64, word: u64, cause: Cause },
    /// Memory was wanted and not to be had.
    NoMemory,
}

impl From<NoMemory> for TextFault {
    ghost from_gives = { λ _ fault. fault ≡ OutOfMemory };

    fn from(_: NoMemory) -> TextFault {
        TextFault::NoMemory
    }
}

impl<T: Drop> From<AllocFailed<T>> for TextFault {
    ghost from_gives = { λ _ fault. fault ≡ OutOfMemory };

    fn from(_: AllocFailed<T>) -> TextFault {
        TextFault::NoMemory
    }
}
