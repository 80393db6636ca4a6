//! How a run ends.

ghost use Rattle.edge_io.specs.Ends.{number_of};
ghost use Rattle.script_runner.specs.Statuses.{status_end};
ghost use Rattle.std.specs.Prelude.{◌≡◌};

use edge_io::End;
use script_gen::script_codec::ScriptFault;

/// How a run ends.
#[derive(Clone, Copy, Debug, PartialEq, Eq)]
pub enum Status {
    /// The script was read to its end, all its lines ran, and all was written.
    Done,
    /// The words of the command line are refused, and one line says so.
    Usage,
    /// The input has this fault, and one line says so.
    ScriptRefused(ScriptFault),
    /// Memory was wanted and not to be had. Nothing was written.
    NoMemory,
    /// A read failed. Nothing was written.
    ReadFault,
    /// A write failed. A front of what was to be written is written.
    WriteFault,
}

impl Status {
    /// Which end it is.
    pub fn end(self) -> End
        ensures { result ≡ status_end self }
    {
        match self {
            Status::Done => End::Done,
            Status::Usage => End::Usage,
            Status::ScriptRefused(_) => End::Refused,
            Status::NoMemory => End::NoMemory,
            Status::ReadFault => End::ReadFault,
            Status::WriteFault => End::WriteFault,
        }
    }

    /// The exit status of the program.
    pub fn number(self) -> u8
        ensures { result ≡ number_of (status_end self) }
    {
        self.end().number()
    }
}
