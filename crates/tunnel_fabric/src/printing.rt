//! What is written of a fabric that was run.

ghost use Rattle.cci_codec.specs.Messages.{response_bytes};
ghost use Rattle.dcd_base.specs.Streams.{HasRisen, Passes};
ghost use Rattle.hex.specs.Hex.{encode_lower};
ghost use Rattle.report.specs.Texts.{text as text_of};
ghost use Rattle.std.specs.List.{All};
ghost use Rattle.std.specs.Prelude.{◌≡◌, ◌<◌, ◌≤◌, ◌++◌, [], IfOk, List, OnErr, OnOk, decimal, length, ℕ};
ghost use Rattle.tunnel_fabric.specs.Printing.{device_head, device_lines, devices_text, tunnel_line, tunnel_lines};
ghost use Rattle.tunnel_fabric.specs.Sending.{IsShortReply};

use crate::replies::Replied;
use crate::replying::write_response;
use cci_codec::Response;
use dcd_base::{Bytes, Failed, NoMemory, Sink, write_all};
use device_plain::Device;
use hex::encode;
use itoa::Buffer;
use report::render;
use std::alloc::Global;

/// Puts a number in decimal digits.
pub(crate) fn write_number(text: &mut Bytes, number: u64) -> Result<(), NoMemory>
    ensures { OnOk result (text.new ≡ text.old ++ decimal number) }
{
    let mut buffer = Buffer::new();
    let digits = buffer.format(number).as_bytes();
    text.extend_from_slice(digits)
}

/// Puts the bytes of a response in hexadecimal digits.
fn write_hex(text: &mut Bytes, response: &Response) -> Result<(), NoMemory>
    requires { length response.now.payload ≤ 2064 }
    ensures { OnOk result (text.new ≡ text.old ++ encode_lower (response_bytes response.now)) }
{
    let alloc = text.allocator();
    let mut bytes = Bytes::new(alloc);
    write_response(response, &mut bytes)?;
    let digits = encode(alloc, bytes.as_slice())?;
    text.extend_from_slice(digits.as_bytes())
}

/// Puts the line of a reply: the number of its line and the response.
#[tactic(auto, unfolding(crate::specs::Printing::tunnel_line))]
fn write_reply(text: &mut Bytes, reply: &Replied) -> Result<(), NoMemory>
    requires { IsShortReply reply.now }
    ensures { OnOk result (text.new ≡ text.old ++ tunnel_line reply.now) }
{
    text.extend_from_slice(b"t ")?;
    write_number(text, u64::from(reply.line))?;
    text.push(b' ')?;
    write_hex(text, &reply.response)?;
    text.push(b'\n')
}

#[tactic(auto, unfolding(crate::specs::Printing::tunnel_lines))]
pub(crate) fn reply_lines(alloc: Global, replies: &[Replied]) -> Result<Bytes, NoMemory>
    requires { All IsShortReply replies.now }
    ensures { IfOk result (λ text. text ≡ tunnel_lines replies.now) }
{
    let mut text = Bytes::new(alloc);
    for reply in replies {
        write_reply(&mut text, reply)?;
    }
    Ok(text)
}

/// The line before the text of the device of this number.
fn head_of(number: u8) -> [u8; 9]
    requires { number < 8 }
    ensures { result ≡ device_head number }
{
    let mut line = *b"device 0\n";
    line[7] = b'0' + number;
    line
}

/// Writes the text of the journal of a device.
fn print_journal<K: Sink>(device: &Device, sink: &mut K) -> Result<(), Failed>
    ensures whole { OnOk result (Passes (K.taken sink.old) (K.taken sink.new) [] (text_of device.now.config device.now.journal)) }
    ensures front { OnErr result ((rest : List ℕ) × Passes (K.taken sink.old) (K.taken sink.new) rest (text_of device.now.config device.now.journal)) }
    ensures failed { OnErr result (HasRisen (K.faults sink.old) (K.faults sink.new)) }
    ensures never_falls { K.faults sink.old ≤ K.faults sink.new }
{
    let mut journal = device.journal();
    render(device.control(), &mut journal, sink)
}

/// Writes the line before the text of a device, and the text.
fn print_device<K: Sink>(number: u8, device: &Device, sink: &mut K) -> Result<(), Failed>
    requires { number < 8 }
    ensures whole { OnOk result (Passes (K.taken sink.old) (K.taken sink.new) [] (device_lines (number, device.now))) }
    ensures front { OnErr result ((rest : List ℕ) × Passes (K.taken sink.old) (K.taken sink.new) rest (device_lines (number, device.now))) }
    ensures failed { OnErr result (HasRisen (K.faults sink.old) (K.faults sink.new)) }
    ensures never_falls { K.faults sink.old ≤ K.faults sink.new }
{
    let line = head_of(number);
    write_all(sink, line.as_slice())?;
    print_journal(device, sink)?;
    Ok(())
}

/// Writes the texts of all devices in order.
fn print_devices<K: Sink>(devices: &[Device], sink: &mut K) -> Result<(), Failed>
    requires { length devices.now ≤ 8 }
    ensures whole { OnOk result (Passes (K.taken sink.old) (K.taken sink.new) [] (devices_text devices.now)) }
    ensures front { OnErr result ((rest : List ℕ) × Passes (K.taken sink.old) (K.taken sink.new) rest (devices_text devices.now)) }
    ensures failed { OnErr result (HasRisen (K.faults sink.old) (K.faults sink.new)) }
{
    for i in 0..devices.len() {
        print_device(i as u8, &devices[i], sink)?;
    }
    Ok(())
}

/// Writes the lines of the replies, and the texts of all devices behind them.
pub(crate) fn print_fabric<K: Sink>(
    lines: &[u8],
    devices: &[Device],
    sink: &mut K,
) -> Result<(), Failed>
    requires { length devices.now ≤ 8 }
    ensures whole { OnOk result (Passes (K.taken sink.old) (K.taken sink.new) [] (lines.now ++ devices_text devices.now)) }
    ensures front { OnErr result ((rest : List ℕ) × Passes (K.taken sink.old) (K.taken sink.new) rest (lines.now ++ devices_text devices.now)) }
    ensures failed { OnErr result (HasRisen (K.faults sink.old) (K.faults sink.new)) }
{
    write_all(sink, lines)?;
    print_devices(devices, sink)?;
    Ok(())
}
