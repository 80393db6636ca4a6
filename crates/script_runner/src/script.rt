//! The script of an input: each line is done as soon as it is read.

ghost use Rattle.script_gen.specs.script_codec.specs.Reading.{first_fault};
ghost use Rattle.script_runner.specs.Fronts.{RanRest, RanScript};
ghost use Rattle.script_runner.specs.Running.{IsLawful};
ghost use Rattle.std.specs.Prelude.{◌≡◌, ◌≢◌, ◌≤◌, [], Err, IfErr, IfOk, OnOk, Some};

use crate::lines::{is_lawful, run_line};
use dcd_base::Bytes;
use device_plain::Device;
use script_gen::script_codec::{Line, OwnReader, ScriptFault};
use std::alloc::Global;

/// Does the lines that are still to come, in their order, on the fresh device. All are read into one place.
fn run_rest(reader: &mut OwnReader, lanes: u8, device: &mut Device) -> Result<(), ScriptFault>
    requires fresh { device.old.journal ≡ [] }
    requires hosts { reader.old.hosts ≡ device.old.config.hosts }
    requires lanes { reader.old.lanes ≡ lanes }
    requires few { reader.old.left ≤ 65536 }
    ensures config { device.new.config ≡ device.old.config }
    ensures ran { OnOk result (RanRest device.old.config.hosts lanes reader.old.rest device.new.journal) }
    ensures fault { IfErr result (λ fault. fault ≢ ScriptFault.NoMemory → reader.old.rest ≡ Err fault) }
{
    let mut number = 0;
    let mut line = Line::Mark;
    while reader.read(&mut line)? {
        number += 1;
        run_line(device, lanes, number, &line)?;
    }
    Ok(())
}

/// Does all lines of the script that the input is on a fresh device, or answers the first fault of the input. `NoMemory`
/// may come in place of any answer. The bytes are let go as they are read.
#[tactic(auto, using(crate::proofs::Fronts::head_fault))]
pub(crate) fn run_script(alloc: Global, input: Bytes) -> Result<Device, ScriptFault>
    ensures ran { IfOk result (λ device. RanScript input device.config device.journal) }
    ensures lawful { IfOk result (λ device. IsLawful device.config device.journal) }
    ensures fault { IfErr result (λ fault. fault ≢ ScriptFault.NoMemory → first_fault input ≡ Some fault) }
{
    let (head, mut reader) = OwnReader::begin(alloc, input)?;
    let lanes = head.lanes;
    let mut device = Device::new(alloc, head.config)?;
    run_rest(&mut reader, lanes, &mut device)?;
    is_lawful(&device);
    Ok(device)
}
