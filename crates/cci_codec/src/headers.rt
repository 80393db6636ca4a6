//! The 12 bytes before the payload of a message.

ghost use Rattle.cci_codec.specs.Messages.{front_fields};
ghost use Rattle.dcd_base.specs.Layouts.{spelling, Number, Reserved};
ghost use Rattle.std.specs.Int.{w16};
ghost use Rattle.std.specs.Prelude.{◌≡◌, ◌++◌, ◌<◌, ◌≤◌, ◌^◌, [], ◌∷◌, length, take};

use dcd_base::{put_byte, put_u8, put_u16, put_u24, put_zeros};

/// Puts the header of a message of this category, before a payload of `size` bytes, at the start. Reserved bits and
/// the vendor status are 0.
pub fn put_head(out: &mut [u8], category: u8, tag: u8, opcode: u16, code: u16, size: u32)
    requires fits { size < 2 ^ 21 }
    requires within { 12 ≤ length out.old }
    ensures { take 12 out.new
        ≡ spelling (front_fields category tag opcode size ++ Number w16 code ∷ Reserved 2 ∷ []) }
{
    put_byte(out, 0, category);
    put_u8(out, 1, tag);
    put_zeros::<1>(out, 2);
    put_u16(out, 3, opcode);
    put_u24(out, 5, size);
    put_u16(out, 8, code);
    put_zeros::<2>(out, 10);
}
