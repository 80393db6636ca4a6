//! The lengths of payloads.

ghost use Rattle.dcd_base.specs.Payloads.{HasLength};
ghost use Rattle.std.specs.Prelude.{◌≡◌, IfOk, vec_len};

use crate::failures::NoMemory;
use crate::faults::PayloadFault;
use std::alloc::Global;

/// Refuses any other length than the one needed.
pub fn expect_length(payload: &[u8], need: u64) -> Result<(), PayloadFault>
    ensures { HasLength need payload.now result }
{
    let have = payload.len() as u64;
    if have == need {
        Ok(())
    } else {
        Err(PayloadFault::WrongLength { need, have })
    }
}

/// So many zero bytes, into which fields are put.
pub fn zeros(alloc: Global, count: usize) -> Result<Vec<u8>, NoMemory>
    ensures { IfOk result (λ bytes. vec_len bytes ≡ count) }
{
    Ok(Vec::from_elem(alloc, 0, count)?)
}
