//! The ends of a run.

ghost use Rattle.edge_io.specs.Ends.{number_of};
ghost use Rattle.std.specs.Prelude.{◌≡◌};

/// How a run ends: one of the six ends that all programs have, or an answer or a refusal of the program's own, each with its
/// exit status.
#[derive(Clone, Copy, Debug, PartialEq, Eq)]
pub enum End {
    /// All that was asked for is done and written.
    Done,
    /// The words of the command line are refused, and one line says so.
    Usage,
    /// The input is refused, and one line says so.
    Refused,
    /// Memory was wanted and not to be had. Nothing was written.
    NoMemory,
    /// A read failed. Nothing was written.
    ReadFault,
    /// A write failed. A front of what was to be written is written.
    WriteFault,
    /// Another answer than `Done`, which is written.
    Answer(u8),
    /// The input is refused for another cause, and what is to be said of it is written.
    Refusal(u8),
}

impl End {
    /// The exit status of the program.
    pub fn number(self) -> u8
        ensures { result ≡ number_of self }
    {
        match self {
            End::Done => 0,
            End::Usage => 2,
            End::Refused => 3,
            End::NoMemory => 4,
            End::ReadFault => 5,
            End::WriteFault => 6,
            End::Answer(number) | End::Refusal(number) => number,
        }
    }

    /// Why a run ended that is not done, in words for a person. Of what the program decided, `decided` tells.
    pub fn why<'a>(self, decided: &'a str) -> Option<&'a str> {
        match self {
            End::Done => None,
            End::Usage => Some("the words are refused; --help says which it takes"),
            End::NoMemory => Some("memory was wanted and not to be had; nothing is written"),
            End::ReadFault => Some("the input cannot be read; nothing is written"),
            End::WriteFault => Some("standard output cannot be written"),
            End::Refused | End::Answer(_) | End::Refusal(_) => Some(decided),
        }
    }
}

/// Why a run stopped before all was decided and written.
#[derive(Clone, Copy, Debug, PartialEq, Eq)]
pub enum Stop {
    /// The words are refused.
    Usage,
    /// Memory was wanted and not to be had.
    NoMemory,
    /// A read failed.
    ReadFault,
    /// A write failed.
    WriteFault,
}
