//! What is written at the end: of the serial device, or of what a run in threads left.

ghost use Rattle.dcd_base.specs.Streams.{HasRisen, Passes};
ghost use Rattle.journal_core.specs.Merging.{merged};
ghost use Rattle.report.specs.Texts.{summary as summary_of, text};
ghost use Rattle.script_runner.specs.Planning.{PassesInPart};
ghost use Rattle.script_runner.specs.Threads.{CanBeLent};
ghost use Rattle.std.specs.Prelude.{[], OnErr, OnOk};

use dcd_base::{Failed, Sink};
use device_plain::Device;
use device_plain::control_core::Control;
use journal_core::Accesses;
use report::{render, summary};
use shared_device::lend_journal;

/// Writes the text of the journal of a device.
pub(crate) fn print_text<K: Sink>(device: &Device, sink: &mut K) -> Result<(), Failed>
    ensures whole { OnOk result (Passes (K.taken sink.old) (K.taken sink.new) [] (text device.now.config device.now.journal)) }
    ensures front { OnErr result (PassesInPart (K.taken sink.old) (K.taken sink.new) (text device.now.config device.now.journal)) }
    ensures failed { OnErr result (HasRisen (K.faults sink.old) (K.faults sink.new)) }
{
    let mut journal = device.journal();
    match device.commands() {
        Some(mut commands) => render(device.control(), &mut commands, sink),
        None => render(device.control(), &mut journal, sink),
    }
}

/// Writes the summary of the journal of a device.
pub(crate) fn print_summary<K: Sink>(device: &Device, sink: &mut K) -> Result<(), Failed>
    ensures whole { OnOk result (Passes (K.taken sink.old) (K.taken sink.new) [] (summary_of device.now.config device.now.journal)) }
    ensures front { OnErr result (PassesInPart (K.taken sink.old) (K.taken sink.new) (summary_of device.now.config device.now.journal)) }
    ensures failed { OnErr result (HasRisen (K.faults sink.old) (K.faults sink.new)) }
{
    let journal = device.journal();
    summary(device.control(), &journal, sink)
}

/// Writes the text of the one journal that a control and the shards make.
pub(crate) fn print_merged_text<K: Sink>(
    control: &Control,
    shards: &[Accesses],
    sink: &mut K,
) -> Result<(), Failed>
    requires { CanBeLent control.now.config control.now.entries shards.now }
    ensures whole { OnOk result (Passes (K.taken sink.old) (K.taken sink.new) [] (text control.now.config (merged control.now.entries shards.now))) }
    ensures front { OnErr result (PassesInPart (K.taken sink.old) (K.taken sink.new) (text control.now.config (merged control.now.entries shards.now))) }
    ensures failed { OnErr result (HasRisen (K.faults sink.old) (K.faults sink.new)) }
{
    let mut journal = lend_journal(control, shards);
    render(control, &mut journal, sink)
}

/// Writes the summary of the one journal that a control and the shards make.
pub(crate) fn print_merged_summary<K: Sink>(
    control: &Control,
    shards: &[Accesses],
    sink: &mut K,
) -> Result<(), Failed>
    requires { CanBeLent control.now.config control.now.entries shards.now }
    ensures whole { OnOk result (Passes (K.taken sink.old) (K.taken sink.new) [] (summary_of control.now.config (merged control.now.entries shards.now))) }
    ensures front { OnErr result (PassesInPart (K.taken sink.old) (K.taken sink.new) (summary_of control.now.config (merged control.now.entries shards.now))) }
    ensures failed { OnErr result (HasRisen (K.faults sink.old) (K.faults sink.new)) }
{
    let journal = lend_journal(control, shards);
    summary(control, &journal, sink)
}
