//! Numbers at the end of bytes whose length is not known before. Without memory the bytes are as they were.

ghost use Rattle.dcd_base.specs.Layouts.{u16_bytes, u32_bytes, u64_bytes, u8_bytes};
ghost use Rattle.std.specs.Prelude.{◌≡◌, ◌++◌, OnErr, OnOk};

use crate::failures::NoMemory;
use crate::field_writing::{put_u16, put_u32, put_u64};
use crate::sequence::Bytes;

/// Appends a number of one byte.
pub fn add_u8(out: &mut Bytes, number: u8) -> Result<(), NoMemory>
    ensures added { OnOk result (out.new ≡ out.old ++ u8_bytes number) }
    ensures kept { OnErr result (out.new ≡ out.old) }
{
    out.push(number)
}

/// Appends a number of two bytes.
pub fn add_u16(out: &mut Bytes, number: u16) -> Result<(), NoMemory>
    ensures added { OnOk result (out.new ≡ out.old ++ u16_bytes number) }
    ensures kept { OnErr result (out.new ≡ out.old) }
{
    let mut bytes = [0; 2];
    put_u16(&mut bytes, 0, number);
    out.extend_from_slice(&bytes)
}

/// Appends a number of four bytes.
pub fn add_u32(out: &mut Bytes, number: u32) -> Result<(), NoMemory>
    ensures added { OnOk result (out.new ≡ out.old ++ u32_bytes number) }
    ensures kept { OnErr result (out.new ≡ out.old) }
{
    let mut bytes = [0; 4];
    put_u32(&mut bytes, 0, number);
    out.extend_from_slice(&bytes)
}

/// Appends a number of eight bytes.
pub fn add_u64(out: &mut Bytes, number: u64) -> Result<(), NoMemory>
    ensures added { OnOk result (out.new ≡ out.old ++ u64_bytes number) }
    ensures kept { OnErr result (out.new ≡ out.old) }
{
    let mut bytes = [0; 8];
    put_u64(&mut bytes, 0, number);
    out.extend_from_slice(&bytes)
}
