//! The payload that asks for members of a list: two numbers of four bytes each.

ghost use Rattle.dcd_base.specs.Layouts.{Number, spelling};
ghost use Rattle.std.specs.Int.{w32};
ghost use Rattle.std.specs.Prelude.{◌≡◌, [], ◌∷◌, IfOk, length};

use crate::failures::NoMemory;
use crate::field_writing::put_u32;
use crate::lengths::zeros;
use crate::sequence::Bytes;
use std::alloc::Global;

/// Fills eight bytes with two numbers.
fn fill_pair(out: &mut [u8], first: u32, second: u32)
    requires { length out.old ≡ 8 }
    ensures { out.new ≡ spelling (Number w32 first ∷ Number w32 second ∷ []) }
{
    put_u32(out, 0, first);
    put_u32(out, 4, second);
}

/// The payload of two numbers, one behind the other.
pub fn page_request(alloc: Global, first: u32, second: u32) -> Result<Bytes, NoMemory>
    ensures { IfOk result (λ bytes. bytes ≡ spelling (Number w32 first ∷ Number w32 second ∷ [])) }
{
    let mut payload = zeros(alloc, 8)?;
    fill_pair(&mut payload, first, second);
    Ok(Bytes::from_vec(alloc, payload))
}
