//! How a check ends.

ghost use Rattle.journal_check.specs.CheckStatuses.{check_end};
ghost use Rattle.edge_io.specs.Ends.{number_of};
ghost use Rattle.std.specs.Prelude.{◌≡◌};

use edge_io::{End, FAULT_PRINTED};
use report::script_codec::ScriptFault;

/// How a check ends.
#[derive(Clone, Copy, Debug, PartialEq, Eq)]
pub enum CheckStatus {
    /// The text is that of a legal journal of the script, and one line says so.
    Yes,
    /// This line, counted from 1, is the first wrong one, and one line says so.
    No(u32),
    /// There are words on the command line, and one line says that none is taken.
    Usage,
    /// The script of the frame has this fault, and one line says so.
    ScriptRefused(ScriptFault),
    /// Memory was wanted and not to be had. Nothing was written.
    NoMemory,
    /// A read failed. Nothing was written.
    ReadFault,
    /// A write failed. A front of what was to be written is written.
    WriteFault,
    /// The frame needs so many bytes and the input has fewer. Nothing was written.
    InputShort { need: u64, have: u64 },
    /// The input has more than 402,653,184 bytes. Nothing was written.
    InputLong,
}

impl CheckStatus {
    /// Which end it is.
    pub fn end(self) -> End
        ensures { result ≡ check_end self }
    {
        match self {
            CheckStatus::Yes => End::Done,
            CheckStatus::No(_) => End::Answer(1),
            CheckStatus::Usage => End::Usage,
            CheckStatus::ScriptRefused(_) => End::Refused,
            CheckStatus::NoMemory => End::NoMemory,
            CheckStatus::ReadFault => End::ReadFault,
            CheckStatus::WriteFault => End::WriteFault,
            CheckStatus::InputShort { .. } => End::Refusal(7),
            CheckStatus::InputLong => End::Refusal(8),
        }
    }

    /// The exit status of the program.
    pub fn number(self) -> u8
        ensures { result ≡ number_of (check_end self) }
    {
        self.end().number()
    }

    /// What is said of an answer that is no, and of an input that is refused.
    pub fn why<'a>(self) -> &'a str {
        match self {
            CheckStatus::No(_) => "no run of the script can print that line there",
            CheckStatus::InputShort { .. } => "the input ends within its script",
            CheckStatus::InputLong => "the input has more than 402653184 bytes",
            _ => FAULT_PRINTED,
        }
    }
}
