//! What the types of numbers say of their values. These functions do nothing.

ghost use Rattle.dcd_base.specs.Layouts.{is_byte};
ghost use Rattle.std.specs.List.{list_all};
ghost use Rattle.std.specs.Prelude.{◌<◌, ◌^◌, IsTrue};

/// A `u8` is below 2^8.
pub fn fits_8(number: u8)
    ensures { number < 2 ^ 8 }
{}

/// A `u16` is below 2^16.
pub fn fits_16(number: u16)
    ensures { number < 2 ^ 16 }
{}

/// A `u32` is below 2^32.
pub fn fits_32(number: u32)
    ensures { number < 2 ^ 32 }
{}

/// A `u64` is below 2^64.
pub fn fits_64(number: u64)
    ensures { number < 2 ^ 64 }
{}

/// Each number of a slice of `u8` is below 2^8.
pub fn are_bytes(bytes: &[u8])
    ensures { IsTrue (list_all is_byte bytes.now) }
{}
