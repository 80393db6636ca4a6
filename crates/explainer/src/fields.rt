//! Fields of a payload behind their labels.

ghost use Rattle.dcd_base.specs.Layouts.{number_at};
ghost use Rattle.explainer.specs.PartWords.{labelled, labelled_size};
ghost use Rattle.std.specs.Int.{w16, w32, w64};
ghost use Rattle.std.specs.Prelude.{◌≡◌, ◌+◌, ◌<◌, ◌≤◌, ◌++◌, OnOk, length, slice_index};

use crate::parts::{write_labelled, write_labelled_size};
use dcd_base::{Bytes, NoMemory, u16_at, u32_at, u64_at};

/// Appends a label and the byte at a place.
pub(crate) fn write_u8(
    label: &[u8],
    bytes: &[u8],
    at: usize,
    out: &mut Bytes,
) -> Result<(), NoMemory>
    requires { at < length bytes.now }
    ensures { OnOk result (out.new ≡ out.old ++ labelled label.now (slice_index bytes.now at)) }
{
    write_labelled(label, u64::from(bytes[at]), out)
}

/// Appends a label and the two bytes at a place as a number.
pub(crate) fn write_u16(
    label: &[u8],
    bytes: &[u8],
    at: usize,
    out: &mut Bytes,
) -> Result<(), NoMemory>
    requires { at + 2 ≤ length bytes.now }
    ensures { OnOk result (out.new ≡ out.old ++ labelled label.now (number_at w16 bytes.now at)) }
{
    write_labelled(label, u64::from(u16_at(bytes, at)), out)
}

/// Appends a label and the four bytes at a place as a number.
pub(crate) fn write_u32(
    label: &[u8],
    bytes: &[u8],
    at: usize,
    out: &mut Bytes,
) -> Result<(), NoMemory>
    requires { at + 4 ≤ length bytes.now }
    ensures { OnOk result (out.new ≡ out.old ++ labelled label.now (number_at w32 bytes.now at)) }
{
    write_labelled(label, u64::from(u32_at(bytes, at)), out)
}

/// Appends a label and the eight bytes at a place as an address, a length or a size.
pub(crate) fn write_size_at(
    label: &[u8],
    bytes: &[u8],
    at: usize,
    out: &mut Bytes,
) -> Result<(), NoMemory>
    requires { at + 8 ≤ length bytes.now }
    ensures { OnOk result (out.new ≡ out.old ++ labelled_size label.now (number_at w64 bytes.now at)) }
{
    write_labelled_size(label, u64_at(bytes, at), out)
}
