//! Copies of entries that are lent.

ghost use Rattle.std.specs.Prelude.{◌≡◌, IfOk};

use crate::lending::Lender;
use dcd_base::NoMemory;
use journal_core::Journal;
use std::alloc::Global;

/// A journal of its own with copies of all entries that are lent, in their order. None is left then.
pub fn copies<J: Lender>(alloc: Global, lender: &mut J) -> Result<Journal, NoMemory>
    ensures { IfOk result (λ journal. journal ≡ J.rest lender.old) }
{
    let mut entries = Vec::new(alloc);
    while let Some(entry) = lender.peek() {
        entries.push(entry.copy(alloc)?)?;
        lender.skip();
    }
    Ok(Journal::from_vec(alloc, entries))
}
