//! What is written of a device and of a driver's table.

ghost use Rattle.dcd_base.specs.Streams.{HasRisen, Passes};
ghost use Rattle.host_driver.specs.Planning.{extent_line, extent_lines};
ghost use Rattle.report.specs.Texts.{text};
ghost use Rattle.std.specs.Prelude.{◌≡◌, ◌≤◌, ◌++◌, [], IfOk, List, OnErr, OnOk, decimal, ℕ};

use dcd_base::{Bytes, Extent, Failed, NoMemory, Sink, write_all};
use device_plain::Device;
use itoa::Buffer;
use report::render;
use std::alloc::Global;

/// Puts a number in decimal digits.
fn write_number(text: &mut Bytes, number: u64) -> Result<(), NoMemory>
    ensures { OnOk result (text.new ≡ text.old ++ decimal number) }
{
    let mut buffer = Buffer::new();
    let digits = buffer.format(number).as_bytes();
    text.extend_from_slice(digits)
}

/// Puts the line of an extent: its start and its length in bytes.
#[tactic(auto, unfolding(crate::specs::Planning::extent_line))]
fn write_extent(text: &mut Bytes, extent: &Extent) -> Result<(), NoMemory>
    ensures { OnOk result (text.new ≡ text.old ++ extent_line extent.now) }
{
    text.extend_from_slice(b"ext ")?;
    write_number(text, extent.start)?;
    text.push(b' ')?;
    write_number(text, extent.length)?;
    text.push(b'\n')
}

#[tactic(auto, unfolding(crate::specs::Planning::extent_lines))]
pub(crate) fn extent_lines(alloc: Global, table: &[Extent]) -> Result<Bytes, NoMemory>
    ensures { IfOk result (λ text. text ≡ extent_lines table.now) }
{
    let mut text = Bytes::new(alloc);
    for extent in table {
        write_extent(&mut text, extent)?;
    }
    Ok(text)
}

/// Writes the text of the journal of a device.
fn print_journal<K: Sink>(device: &Device, sink: &mut K) -> Result<(), Failed>
    ensures whole { OnOk result (Passes (K.taken sink.old) (K.taken sink.new) [] (text device.now.config device.now.journal)) }
    ensures front { OnErr result ((rest : List ℕ) × Passes (K.taken sink.old) (K.taken sink.new) rest (text device.now.config device.now.journal)) }
    ensures failed { OnErr result (HasRisen (K.faults sink.old) (K.faults sink.new)) }
    ensures never_falls { K.faults sink.old ≤ K.faults sink.new }
{
    let mut journal = device.journal();
    render(device.control(), &mut journal, sink)
}

/// Writes the text of the journal of a device, and these bytes behind it.
pub(crate) fn print_with<K: Sink>(device: &Device, lines: &[u8], sink: &mut K) -> Result<(), Failed>
    ensures whole { OnOk result (Passes (K.taken sink.old) (K.taken sink.new) [] (text device.now.config device.now.journal ++ lines.now)) }
    ensures front { OnErr result ((rest : List ℕ) × Passes (K.taken sink.old) (K.taken sink.new) rest (text device.now.config device.now.journal ++ lines.now)) }
    ensures failed { OnErr result (HasRisen (K.faults sink.old) (K.faults sink.new)) }
{
    print_journal(device, sink)?;
    write_all(sink, lines)?;
    Ok(())
}
