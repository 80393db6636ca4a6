//! What ties the spelling of a request to its reading.

ghost use Rattle.cci_codec.specs.Messages.{ReadsRequest, WritesRequest, request_bytes};
ghost use Rattle.cci_codec.specs.declared.messages.Request.{Request};
ghost use Rattle.std.specs.Prelude.{◌<◌, ◌^◌, List, length, ℕ};

use crate::messages::Request;
use dcd_base::are_bytes;

/// The bytes that `encode_request` appends are the one spelling of the request. The call does nothing.
pub fn law_request_is_spelled(request: &Request)
    requires { length request.now.payload < 2 ^ 21 }
    ensures { WritesRequest request.now (request_bytes request.now) }
{
    let _tag = request.tag;
    let _opcode = request.opcode;
    are_bytes(request.payload.as_slice());
}

/// The spelling of a request reads as that request, so `decode` answers it or `NoMemory`. The call does nothing.
pub fn law_spelling_reads()
    ensures { (request : Request) (bytes : List ℕ) → WritesRequest request bytes → ReadsRequest bytes request }
{}
