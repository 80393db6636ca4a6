//! Why bytes begin with no head of a script, as a number and a place.

ghost use Rattle.dcd_c.specs.HeadFaults.{cause_of, fault_told};
ghost use Rattle.std.specs.Prelude.{◌≡◌};

use crate::faults::Fault;
use region_config::ConfigFault;
use script_codec::ScriptFault;

/// The number of a script's fault, and how many bytes stand before it; of a configuration that is refused also the number of
/// its fault, from 1 on, and the host and the region that it is about.
#[repr(C)]
#[derive(Clone, Copy, Drop)]
pub struct HeadFault {
    pub place: u64,
    pub number: u32,
    pub cause: u32,
    pub host: u8,
    pub region: u8,
    pub reserved: u16,
    pub reserved_too: u32,
}

/// The number of the fault of a configuration, and the host and the region that it is about, or 0.
fn cause_of(fault: &ScriptFault) -> (u32, u8, u8)
    ensures { result ≡ cause_of fault.now }
{
    match fault {
        ScriptFault::BadConfig(ConfigFault::Count) => (1, 0, 0),
        ScriptFault::BadConfig(ConfigFault::Base { host, region }) => (2, *host, *region),
        ScriptFault::BadConfig(ConfigFault::BlockSize(region)) => (3, 0, *region),
        ScriptFault::BadConfig(ConfigFault::Length(region)) => (4, 0, *region),
        ScriptFault::BadConfig(ConfigFault::Overlap { host, region }) => (5, *host, *region),
        ScriptFault::BadConfig(ConfigFault::TooManyGranules(_)) => (6, 0, 0),
        _ => (0, 0, 0),
    }
}

/// Puts the fault of a head there, if that is why nothing was opened.
pub(crate) fn tell_fault(outcome: &Result<(), Fault>, told: &mut HeadFault)
    ensures { told.new ≡ fault_told told.old outcome.now }
{
    match outcome {
        Err(Fault::Head(fault)) => {
            let (cause, host, region) = cause_of(fault);
            *told = HeadFault {
                place: fault.place(),
                number: fault.number(),
                cause,
                host,
                region,
                reserved: 0,
                reserved_too: 0,
            };
        }
        _ => {}
    }
}
