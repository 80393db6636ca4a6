//! Requests and responses.

ghost use Rattle.std.specs.Prelude.{◌≡◌, IfOk};

use crate::payloads::Payload;
use dcd_base::{Bytes, NoMemory};

/// A request (CXL 3.1, 7.6.3): a command and its input payload.
#[derive(Debug, Drop)]
pub struct Request {
    /// The message tag, chosen by the requester and echoed in the response.
    pub tag: u8,
    /// The command opcode.
    pub opcode: u16,
    /// The input payload. One of more than 2,097,151 bytes has no spelling.
    pub payload: Payload,
}

impl Request {
    /// An equal request of its own.
    pub fn copy(&self) -> Result<Request, NoMemory>
        ensures { IfOk result (λ copy. copy ≡ self.now) }
    {
        Ok(Request {
            tag: self.tag,
            opcode: self.opcode,
            payload: self.payload.copy()?,
        })
    }
}

/// A response (CXL 3.1, 7.6.3): a return code and an output payload.
///
/// A response with a code other than Success has no payload (profile).
#[derive(Debug, Drop)]
pub struct Response {
    /// The message tag of the request.
    pub tag: u8,
    /// The opcode of the request.
    pub opcode: u16,
    /// The return code; 0 is Success.
    pub code: u16,
    /// The output payload. One of more than 2,097,151 bytes has no spelling.
    pub payload: Bytes,
}

impl Response {
    /// An equal response of its own.
    pub fn copy(&self) -> Result<Response, NoMemory>
        ensures { IfOk result (λ copy. copy ≡ self.now) }
    {
        Ok(Response {
            tag: self.tag,
            opcode: self.opcode,
            code: self.code,
            payload: self.payload.copy()?,
        })
    }
}
