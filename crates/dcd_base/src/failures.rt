//! Why something was not done.

ghost use Rattle.dcd_base.specs.Failures.{fault_words};
ghost use Rattle.std.specs.Prelude.{Some, codes};

use std::alloc::{AllocError, AllocFailed};
use std::error::Error;
use std::fmt::{self, Display};

/// Why a load or store is refused, in the order in which they are tried.
#[derive(Clone, Copy, Debug, PartialEq, Eq)]
pub enum AccessFault {
    /// The address is no multiple of 8.
    Misaligned,
    /// No region of the host has the address within its length.
    OutsideRegions,
    /// The host does not hold the granule.
    NotGranted,
}

impl Display for AccessFault {
    ghost output = { λ fault. Some (fault_words fault) };

    fn fmt<W: fmt::Write>(&self, f: &mut fmt::Formatter<W>) -> fmt::Result {
        f.write_str(match self {
            AccessFault::Misaligned => "the address is no multiple of 8",
            AccessFault::OutsideRegions => "no region of the host has the address",
            AccessFault::NotGranted => "the host does not hold the granule",
        })
    }
}

impl Error for AccessFault {}

/// Memory was wanted and not to be had. What was to change is as it was.
#[derive(Clone, Copy, Debug, PartialEq, Eq)]
pub struct NoMemory;

impl Display for NoMemory {
    ghost output = { λ failure. Some (codes "out of memory") };

    fn fmt<W: fmt::Write>(&self, f: &mut fmt::Formatter<W>) -> fmt::Result {
        f.write_str("out of memory")
    }
}

impl Error for NoMemory {}

impl From<AllocError> for NoMemory {
    fn from(_error: AllocError) -> NoMemory {
        NoMemory
    }
}

impl<T: Drop> From<AllocFailed<T>> for NoMemory {
    fn from(_failed: AllocFailed<T>) -> NoMemory {
        NoMemory
    }
}

/// A read or a write failed; the count of faults of what was read or written has risen.
#[derive(Clone, Copy, Debug, PartialEq, Eq)]
pub struct Failed;

impl Display for Failed {
    ghost output = { λ failure. Some (codes "a read or a write failed") };

    fn fmt<W: fmt::Write>(&self, f: &mut fmt::Formatter<W>) -> fmt::Result {
        f.write_str("a read or a write failed")
    }
}

impl Error for Failed {}
