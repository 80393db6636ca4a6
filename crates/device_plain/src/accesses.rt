//! What is kept of a load or a store beside what it does.

ghost use Rattle.std.specs.Prelude.{◌≡◌, ◌+◌, ◌<◌, ◌^◌, OnOk, length, vec_capacity, vec_len};

use control_core::Control;
use dcd_base::{NoMemory, Stamp};
use journal_core::Access;

/// Makes room for one more load or store.
pub(crate) fn reserve(accesses: &mut Vec<Access>) -> Result<(), NoMemory>
    ensures room { OnOk result (vec_len accesses.new < vec_capacity accesses.new) }
    ensures few { OnOk result (length accesses.new.items < 2 ^ 63) }
    ensures items { accesses.new.items ≡ accesses.old.items }
{
    accesses.reserve(1)?;
    Ok(())
}

/// The stamp of the next access, where so many came since the last command or scrub.
pub(crate) fn stamp_of(control: &Control, since: u64) -> Stamp
    requires { since < 2 ^ 63 }
    ensures { result ≡ record { number = length control.now.entries; count = since + 1 } }
{
    Stamp {
        number: control.entries().len() as u64,
        count: since + 1,
    }
}
