//! What a run prints.

use device_plain::Device;
use device_plain::control_core::Control;
use journal_core::Accesses;
use script_gen::script_codec::ScriptFault;

/// What is printed.
#[derive(Drop)]
pub(crate) enum Printed {
    /// The text of the journal of a device, or its summary.
    Text(Device),
    Summary(Device),
    /// The same of what a run in threads left.
    MergedText(Control, Vec<Accesses>),
    MergedSummary(Control, Vec<Accesses>),
    /// The line on the first fault of an input.
    Fault(ScriptFault),
}
