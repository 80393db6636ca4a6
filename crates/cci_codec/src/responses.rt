//! The headers of responses in bytes.

ghost use Rattle.cci_codec.specs.Messages.{response_head_fields};
ghost use Rattle.dcd_base.specs.Layouts.{spelling};
ghost use Rattle.std.specs.Prelude.{◌≡◌, ◌<◌, ◌^◌};

use crate::headers::put_head;

/// The header of a response before a payload of `length` bytes, at most 2,097,151 (CXL 3.1, 7.6.3).
///
/// `tag` and `opcode` are those of the request. Reserved bits and the vendor status are 0.
pub fn response_head(tag: u8, opcode: u16, code: u16, length: u32) -> [u8; 12]
    requires { length < 2 ^ 21 }
    ensures { result ≡ spelling (response_head_fields tag opcode code length) }
{
    let mut header = [0; 12];
    put_head(&mut header, 1, tag, opcode, code, length);
    header
}
