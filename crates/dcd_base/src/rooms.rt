//! Room for what is put behind bytes that stand already.

ghost use Rattle.std.specs.Prelude.{◌≡◌, ◌+◌, IfOk, OnErr, length, take, vec_len};

use crate::failures::NoMemory;
use crate::sequence::Bytes;
use std::mem::replace;

/// The bytes of `out` and so many zero bytes behind them, into which fields are put, in the room of `out`. It is empty then;
/// without memory it is as it was.
#[inline]
pub fn with_zeros(out: &mut Bytes, count: usize) -> Result<Vec<u8>, NoMemory>
    ensures front { IfOk result (λ bytes. take (length out.old) bytes.items ≡ out.old) }
    ensures len { IfOk result (λ bytes. vec_len bytes ≡ length out.old + count) }
    ensures kept { OnErr result (out.new ≡ out.old) }
{
    let alloc = out.allocator();
    let mut bytes = replace(out, Bytes::new(alloc)).into_vec();
    let whole = bytes.len().saturating_add(count);
    match bytes.resize(whole, 0) {
        Ok(()) => Ok(bytes),
        Err(_) => {
            *out = Bytes::from_vec(alloc, bytes);
            Err(NoMemory)
        }
    }
}
