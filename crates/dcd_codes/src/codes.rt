//! Return codes.

ghost use Rattle.dcd_codes.specs.Names.{name_of};
ghost use Rattle.dcd_codes.specs.Rules.{number_of};
ghost use Rattle.std.specs.Prelude.{◌≡◌, Some};

use std::fmt;

/// The return codes that the device answers (CXL 3.1, 8.2.8.4.5.1).
#[derive(Clone, Copy, Debug, PartialEq, Eq)]
pub enum Code {
    /// 0000h.
    Success,
    /// 0002h.
    InvalidInput,
    /// 0003h.
    Unsupported,
    /// 0005h.
    RetryRequired,
    /// 000Eh.
    InvalidHandle,
    /// 000Fh.
    InvalidPhysicalAddress,
    /// 0016h.
    InvalidPayloadLength,
    /// 001Dh.
    ResourcesExhausted,
    /// 001Eh.
    InvalidExtentList,
}

/// The number of a code, as it stands in a response (CXL 3.1, 8.2.8.4.5.1).
pub fn number_of(code: Code) -> u16
    ensures { result ≡ number_of code }
{
    match code {
        Code::Success => 0x0000,
        Code::InvalidInput => 0x0002,
        Code::Unsupported => 0x0003,
        Code::RetryRequired => 0x0005,
        Code::InvalidHandle => 0x000E,
        Code::InvalidPhysicalAddress => 0x000F,
        Code::InvalidPayloadLength => 0x0016,
        Code::ResourcesExhausted => 0x001D,
        Code::InvalidExtentList => 0x001E,
    }
}

/// The name of the code in the specification, as `Invalid Extent List`.
impl fmt::Display for Code {
    ghost output = { λ code. Some (name_of code) };

    fn fmt<W: fmt::Write>(&self, f: &mut fmt::Formatter<W>) -> fmt::Result {
        f.write_str(match self {
            Code::Success => "Success",
            Code::InvalidInput => "Invalid Input",
            Code::Unsupported => "Unsupported",
            Code::RetryRequired => "Retry Required",
            Code::InvalidHandle => "Invalid Handle",
            Code::InvalidPhysicalAddress => "Invalid Physical Address",
            Code::InvalidPayloadLength => "Invalid Payload Length",
            Code::ResourcesExhausted => "Resources Exhausted",
            Code::InvalidExtentList => "Invalid Extent List",
        })
    }
}
