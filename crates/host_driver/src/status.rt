//! How a run of the driver ends.

ghost use Rattle.host_driver.specs.Statuses.{drive_end};
ghost use Rattle.edge_io.specs.Ends.{number_of};
ghost use Rattle.std.specs.Prelude.{◌≡◌};

use edge_io::{End, FAULT_PRINTED};
use report::script_codec::ScriptFault;

/// How a run of the driver ends.
#[derive(Clone, Copy, Debug, PartialEq, Eq)]
pub enum DriveStatus {
    /// All lines of the others ran, the driver came to rest, and all was written.
    Done,
    /// The words of the command line are refused, and one line says so.
    Usage,
    /// The input has this fault, and one line says so.
    ScriptRefused(ScriptFault),
    /// Memory was wanted and not to be had. Nothing was written.
    NoMemory,
    /// A read failed. Nothing was written.
    ReadFault,
    /// A write failed. A front of what was to be written is written.
    WriteFault,
    /// The script has no such host. Nothing was written.
    NoSuchHost,
}

impl DriveStatus {
    /// Which end it is.
    pub fn end(self) -> End
        ensures { result ≡ drive_end self }
    {
        match self {
            DriveStatus::Done => End::Done,
            DriveStatus::Usage => End::Usage,
            DriveStatus::ScriptRefused(_) => End::Refused,
            DriveStatus::NoMemory => End::NoMemory,
            DriveStatus::ReadFault => End::ReadFault,
            DriveStatus::WriteFault => End::WriteFault,
            DriveStatus::NoSuchHost => End::Refusal(7),
        }
    }

    /// The exit status of the program.
    pub fn number(self) -> u8
        ensures { result ≡ number_of (drive_end self) }
    {
        self.end().number()
    }

    /// What is said of an input that is refused.
    pub fn why<'a>(self) -> &'a str {
        match self {
            DriveStatus::NoSuchHost => "the script has no such host",
            _ => FAULT_PRINTED,
        }
    }
}
