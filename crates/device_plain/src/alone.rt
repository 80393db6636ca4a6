//! What a device with one host alone keeps.

ghost use Rattle.dcd_base.specs.declared.ids.HostId.{HostId};
ghost use Rattle.control_core.specs.device_rules.specs.Views.{first_view};
ghost use Rattle.device_plain.specs.Alone.{IsAlone};
ghost use Rattle.std.specs.Prelude.{IfOk};

use control_core::device_state::host_lists::HostLists;
use dcd_base::NoMemory;
use dcd_base::limits::HOST_RECORDS;
use event_log::EventLog;
use region_config::Config;
use std::alloc::Global;
use std::collections::BTreeMap;

/// A device that has one host alone: the present block sizes, the lists and the log of the host, and the words that it
/// stored, by their DPA, since it last accepted an extent with that DPA.
#[derive(Drop)]
pub(crate) struct Alone {
    pub(crate) present: Config,
    pub(crate) lists: HostLists,
    pub(crate) log: EventLog,
    pub(crate) words: BTreeMap<u64, u64>,
}

/// Why an item is not taken.
#[derive(Clone, Copy, Debug, PartialEq, Eq)]
pub(crate) enum Stop {
    /// No legal journal brings it.
    Unlawful,
    NoMemory,
}

impl From<NoMemory> for Stop {
    ghost use Rattle.device_plain.specs.declared.alone.Stop.TheVariants.{NoMemory as OutOfMemory};
    ghost use Rattle.std.specs.Prelude.{◌≡◌};

    ghost from_gives = { λ _ e. e ≡ OutOfMemory };

    fn from(_: NoMemory) -> Stop {
        Stop::NoMemory
    }
}

impl Alone {
    /// Nothing is offered, accepted, logged or stored, and the regions have their first block sizes.
    pub(crate) fn new(alloc: Global, config: &Config) -> Result<Alone, NoMemory>
        ensures { (h : HostId) → IfOk result (IsAlone config.now h (first_view config.now) (λ _. 0)) }
    {
        Ok(Alone {
            present: config.copy()?,
            lists: HostLists::new(alloc)?,
            log: EventLog::new(alloc, HOST_RECORDS)?,
            words: BTreeMap::new(alloc),
        })
    }
}
