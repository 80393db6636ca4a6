//! Why a test does not go on.

use dcd_base::NoMemory;
use region_config::ConfigFault;
use std::alloc::{AllocError, AllocFailed};

/// Why a test does not go on.
#[derive(Clone, Copy, Debug, PartialEq, Eq)]
pub enum Trouble {
    /// Memory was wanted and not to be had.
    NoMemory,
    /// A call that answered so left something changed.
    Changed,
    /// The configuration is refused.
    Config,
    /// The pass has made too many calls, or its actor may not do the act.
    Unfit,
    /// There are not as many passes, entries or shards as there should be.
    Count,
}

impl From<NoMemory> for Trouble {
    fn from(_fault: NoMemory) -> Trouble {
        Trouble::NoMemory
    }
}

impl From<AllocError> for Trouble {
    fn from(_fault: AllocError) -> Trouble {
        Trouble::NoMemory
    }
}

impl<T: Drop> From<AllocFailed<T>> for Trouble {
    fn from(_failed: AllocFailed<T>) -> Trouble {
        Trouble::NoMemory
    }
}

impl From<ConfigFault> for Trouble {
    fn from(fault: ConfigFault) -> Trouble {
        match fault {
            ConfigFault::NoMemory => Trouble::NoMemory,
            _ => Trouble::Config,
        }
    }
}
