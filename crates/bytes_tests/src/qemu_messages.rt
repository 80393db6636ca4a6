//! Messages that QEMU was sent, and the heads of its answers.

use crate::qemu::bytes_of;
use crate::seeing::{see, see_list};
use cci_codec::{MessageFault, Request, decode, response_head};
use std::alloc::Global;
use std::process::Abort;
use std::test::Fail;

/// Messages as they were sent to QEMU, and what is read of them here: tag, opcode and payload. QEMU reads no message in the
/// second, answers Invalid Payload Length to the fourth and the seventh, Unsupported to the last, and the others alike.
static REQUESTS: [(&str, u8, u16, &[u8]); 8] = [
    ("002a00010000000000000000", 0x2A, 0x0001, &[]),
    ("f02a00010000000000000000", 0x2A, 0x0001, &[]),
    ("002aff010000000000000000", 0x2A, 0x0001, &[]),
    ("002a00010000008000000000", 0x2A, 0x0001, &[]),
    ("002a00010000000034000000", 0x2A, 0x0001, &[]),
    ("002a00010000000000005500", 0x2A, 0x0001, &[]),
    ("00010001000100000000000001", 0x01, 0x0001, &[1]),
    ("0002000048020000000000000200", 0x02, 0x4800, &[2, 0]),
];

/// Reads a message.
fn read(alloc: Global, digits: &str) -> Result<Request, Fail> {
    let bytes = bytes_of(alloc, &[digits])?;
    match decode(alloc, bytes.as_slice()) {
        Ok(request) => Ok(request),
        Err(_) => Err("this is a request".into()),
    }
}

/// Sees the tag, the opcode and the payload of a message.
fn see_request(rt: &impl Abort, request: &Request, tag: u8, opcode: u16, payload: &[u8]) {
    see(rt, &(request.tag, request.opcode), &(tag, opcode));
    see_list(rt, request.payload.as_slice(), payload);
}

#[test]
fn requests_are_read(rt: HostRuntime) -> Result<(), Fail> {
    for (digits, tag, opcode, payload) in &REQUESTS {
        see_request(&rt, &read(rt.alloc(), *digits)?, *tag, *opcode, *payload);
    }
    Ok(())
}

#[test]
fn a_response_is_no_request(rt: HostRuntime) -> Result<(), Fail> {
    let bytes = bytes_of(rt.alloc(), &["012a00010000000000000000"])?;
    let fault = decode(rt.alloc(), bytes.as_slice()).err();
    see(&rt, &fault, &Some(MessageFault::NotRequest(1)));
    Ok(())
}

/// The first 12 bytes of responses of QEMU, and what they say: tag, opcode, return code and length of the payload.
static HEADS: [(&str, u8, u16, u16, u32); 5] = [
    ("012a00010012000000000000", 0x2A, 0x0001, 0x0000, 18),
    ("010100010000000016000000", 0x01, 0x0001, 0x0016, 0),
    ("010200004800000003000000", 0x02, 0x4800, 0x0003, 0),
    ("01000004560000000f000000", 0x00, 0x5604, 0x000F, 0),
    ("010000035668000000000000", 0x00, 0x5603, 0x0000, 104),
];

#[test]
fn heads_of_responses_are_the_same(rt: HostRuntime) -> Result<(), Fail> {
    for (digits, tag, opcode, code, length) in &HEADS {
        let head = response_head(*tag, *opcode, *code, *length);
        see_list(&rt, &head, bytes_of(rt.alloc(), &[*digits])?.as_slice());
    }
    Ok(())
}
