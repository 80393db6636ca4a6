//! What a run of the driver prints.

use dcd_base::Bytes;
use device_plain::Device;
use report::script_codec::ScriptFault;

#[derive(Drop)]
pub(crate) enum Printed {
    /// The text of the journal of the device, and the lines of the driver's table behind it.
    Driven { device: Device, lines: Bytes },
    /// The line on the first fault of an input.
    Fault(ScriptFault),
    Nothing,
}
