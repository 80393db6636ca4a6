//! One journal out of the control's and the shards'.

ghost use Rattle.cci_codec.specs.dcd_base.specs.declared.steps.Stamp.{Stamp};
ghost use Rattle.journal_core.specs.Merging.{Rising, has_stamp, merged};
ghost use Rattle.std.specs.Prelude.{◌≡◌, ◌++◌, IfOk, OnOk, filter, flat_map, length};

use crate::entries::{Entry, Journal};
use cci_codec::dcd_base::NoMemory;
use std::alloc::Global;

/// Puts copies of the entries behind those that are there.
fn add_copies(entries: &mut Vec<Entry>, more: &Journal) -> Result<(), NoMemory>
    ensures { OnOk result (entries.new.items ≡ entries.old.items ++ more.now) }
{
    for entry in more.as_slice() {
        entries.push(entry.copy()?)?;
    }
    Ok(())
}

/// The journal of a device: copies of all entries of its control and of its shards, in the order of their
/// stamps. Of equal stamps those of the control come first, then those of the shards in the order of the
/// shards; equal stamps of one list stay in the order of that list.
pub fn merge(alloc: Global, control: &Journal, shards: &[Journal]) -> Result<Journal, NoMemory>
    ensures merged { IfOk result (λ journal. journal ≡ merged control.now shards.now) }
    ensures rising { IfOk result (λ journal. Rising journal) }
    ensures ties { IfOk result (λ whole. (s : Stamp)
        → filter (has_stamp s) whole ≡ filter (has_stamp s) (control.now ++ flat_map (λ shard. shard) shards.now)) }
    ensures length { IfOk result (λ journal.
        length journal ≡ length (control.now ++ flat_map (λ shard. shard) shards.now)) }
{
    let mut entries = Vec::new(alloc);
    add_copies(&mut entries, control)?;
    for shard in shards {
        add_copies(&mut entries, shard)?;
    }
    entries.sort_by_key(|entry| (entry.stamp.number, entry.stamp.count))?;
    Ok(Journal::from_vec(alloc, entries))
}
