//! The run of a generated script, round by round.

ghost use Rattle.script_gen.specs.Generated.{generated};
ghost use Rattle.script_runner.specs.Fronts.{RanAll};
ghost use Rattle.script_runner.specs.Running.{IsLawful};
ghost use Rattle.std.specs.Prelude.{IfOk};

use crate::lines::{is_lawful, run_lines};
use dcd_base::NoMemory;
use device_plain::Device;
use script_gen::Rounds;
use std::alloc::Global;

/// Does all lines of the generated script on a fresh device. Each round is made when the one before it is done.
pub(crate) fn run_rounds(alloc: Global, seed: u64) -> Result<Device, NoMemory>
    ensures ran { IfOk result (λ device. RanAll (generated seed) device.config device.journal) }
    ensures lawful { IfOk result (λ device. IsLawful device.config device.journal) }
{
    let mut rounds = Rounds::new(alloc, seed);
    let mut device = Device::new(alloc, rounds.config()?)?;
    let mut number = 0;
    while let Some(lines) = rounds.next()? {
        number = run_lines(&mut device, 1, number, lines)?;
    }
    is_lawful(&device);
    Ok(device)
}
