//! Requests in bytes.

ghost use Rattle.cci_codec.specs.Messages.{DecodesMessage, FillsMessage, IsDecoded, IsFaultOf, ReadsRequest, request_bytes, length_field};
ghost use Rattle.cci_codec.specs.declared.messages.Request.{Request};
ghost use Rattle.std.specs.Prelude.{IfOk, ◌≡◌, ◌+◌, ◌++◌, ◌<◌, ◌≤◌, ◌^◌, [], length, take, OnOk, OnErr};

use crate::faults::MessageFault;
use crate::headers::put_head;
use crate::messages::Request;
use crate::payloads::Payload;
use dcd_base::{Bytes, NoMemory, put_bytes, u16_at, zeros};
use std::alloc::Global;

/// The payload length that a header says, whatever the bits above its 21 bits are.
fn length_of(bytes: &[u8]) -> u32
    requires { 12 ≤ length bytes.now }
    ensures { result ≡ length_field bytes.now }
{
    u32::from(u16_at(bytes, 5)) + 0x1_0000 * u32::from(bytes[7] & 0x1F)
}

/// That the bytes are a request, or why not.
#[inline(always)]
fn sound(bytes: &[u8]) -> Result<(), MessageFault>
    ensures { IsFaultOf bytes.now result }
{
    if bytes.len() < 12 {
        return Err(MessageFault::Short(bytes.len() as u64));
    }
    let category = bytes[0] & 0x0F;
    if category != 0 {
        return Err(MessageFault::NotRequest(category));
    }
    let field = length_of(bytes);
    let rest = bytes.len() as u64 - 12;
    if u64::from(field) != rest {
        return Err(MessageFault::LengthDiffers { field, rest });
    }
    Ok(())
}

/// Reads a request from all of the bytes (CXL 3.1, 7.6.3).
///
/// Of the header it reads the category, the tag, the opcode and the 21 bits of the payload length; all other
/// bits and bytes are ignored. Each fault of `MessageFault` comes exactly in its place, and `NoMemory` only
/// where the bytes are a request.
pub fn decode(alloc: Global, bytes: &[u8]) -> Result<Request, MessageFault>
    ensures cases { DecodesMessage bytes.now result }
    ensures reads { IfOk result (λ request. ReadsRequest bytes.now request) }
    ensures only { (request : Request) → ReadsRequest bytes.now request → IsDecoded request result }
{
    sound(bytes)?;
    let (header, payload) = bytes.split_at(12);
    Ok(Request {
        tag: header[1],
        opcode: u16_at(header, 3),
        payload: Payload::from_slice(alloc, payload)?,
    })
}

impl Request {
    /// A command with no payload, to be filled.
    pub fn empty() -> Request
        ensures { result ≡ record { tag = 0; opcode = 0; payload = [] } }
    {
        Request {
            tag: 0,
            opcode: 0,
            payload: Payload::empty(),
        }
    }

    /// Makes it the request that the first `size` of these bytes are, as `decode` reads it, in the memory that it has.
    ///
    /// At a fault the request may be any.
    #[inline(always)]
    pub fn fill(&mut self, alloc: Global, bytes: &[u8], size: usize) -> Result<(), MessageFault>
        requires { size ≤ length bytes.now }
        ensures { FillsMessage (take size bytes.now) self.new result }
    {
        let (message, _) = bytes.split_at(size);
        sound(message)?;
        let (_, payload) = bytes.split_at(12);
        self.tag = message[1];
        self.opcode = u16_at(message, 3);
        self.payload.fill(alloc, payload, size - 12)?;
        Ok(())
    }
}

/// Fills the bytes of a request: its header, then its payload.
fn fill_request(out: &mut [u8], request: &Request)
    requires short { length request.now.payload < 2 ^ 21 }
    requires whole { length out.old ≡ 12 + length request.now.payload }
    ensures { out.new ≡ request_bytes request.now }
{
    let payload = request.payload.as_slice();
    put_head(out, 0, request.tag, request.opcode, 0, payload.len() as u32);
    put_bytes(out, 12, payload);
}

/// Appends the one spelling of a request, whose payload has at most 2,097,151 bytes (CXL 3.1, 7.6.3).
///
/// Reserved and ignored bits are 0. At `NoMemory` `out` is as it was.
pub fn encode_request(request: &Request, out: &mut Bytes) -> Result<(), NoMemory>
    requires { length request.now.payload < 2 ^ 21 }
    ensures appended { OnOk result (out.new ≡ out.old ++ request_bytes request.now) }
    ensures kept { OnErr result (out.new ≡ out.old) }
{
    let mut message = zeros(out.allocator(), 12 + request.payload.as_slice().len())?;
    fill_request(&mut message, request);
    out.append(Bytes::from_vec(out.allocator(), message))
}
