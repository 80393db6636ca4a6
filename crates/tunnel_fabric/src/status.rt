//! How a run of a fabric ends.

ghost use Rattle.edge_io.specs.Ends.{number_of};
ghost use Rattle.std.specs.Prelude.{◌≡◌};
ghost use Rattle.tunnel_fabric.specs.Statuses.{fabric_end};

use crate::FabricFault;
use edge_io::End;

/// How a run of a fabric ends.
#[derive(Clone, Copy, Debug, PartialEq, Eq)]
pub enum FabricStatus {
    /// The fabric was read to its end word, all its lines ran, and all was written.
    Done,
    /// There were words on the command line, and one line says so.
    Usage,
    /// The input has this fault, and one line says so.
    Refused(FabricFault),
    /// Memory was wanted and not to be had. Nothing was written.
    NoMemory,
    /// A read failed. Nothing was written.
    ReadFault,
    /// A write failed. A front of what was to be written is written.
    WriteFault,
}

impl FabricStatus {
    /// Which end it is.
    pub fn end(self) -> End
        ensures { result ≡ fabric_end self }
    {
        match self {
            FabricStatus::Done => End::Done,
            FabricStatus::Usage => End::Usage,
            FabricStatus::Refused(_) => End::Refused,
            FabricStatus::NoMemory => End::NoMemory,
            FabricStatus::ReadFault => End::ReadFault,
            FabricStatus::WriteFault => End::WriteFault,
        }
    }

    /// The exit status of the program.
    pub fn number(self) -> u8
        ensures { result ≡ number_of (fabric_end self) }
    {
        self.end().number()
    }
}
