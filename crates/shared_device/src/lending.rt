//! The journal of a device that was taken apart.

ghost use Rattle.control_core.specs.Deciding.{AreShort};
ghost use Rattle.block_shard.specs.journal_core.specs.Entries.{effects};
ghost use Rattle.block_shard.specs.journal_core.specs.Merging.{AllRise, merged};
ghost use Rattle.shared_device.specs.Closing.{IsClosed};
ghost use Rattle.shared_device.specs.declared.pass.Pass.{Pass};
ghost use Rattle.std.specs.Prelude.{◌≡◌, ◌+◌, ◌^◌, ◌<◌, ◌≤◌, List, flat_map, length, ℕ};

use block_shard::journal_core::Accesses;
use control_core::Control;
use control_core::kept_journal::{KeptEntries, WholeOfShards, whole_of_shards};

/// How many loads and stores the lists have.
fn count_all(lists: &[Accesses]) -> u64
    requires { length lists.now ≤ 16 }
    ensures count { result ≡ length (flat_map (λ entries. entries) lists.now) }
    ensures few { result ≤ 2 ^ 62 }
{
    let mut count = 0;
    for list in lists {
        count += list.as_slice().len() as u64;
    }
    count
}

/// How many entries there are.
fn count_entries(control: &KeptEntries, lists: &[Accesses]) -> u64
    requires { length lists.now ≤ 16 }
    ensures { result ≡ length (merged control.now.entries lists.now) }
{
    control.len() as u64 + count_all(lists)
}

/// Lends what `Shared::close` left as one journal, in the order of the stamps. It takes no memory and copies no entry.
pub fn lend_journal<'a>(control: &'a Control, shards: &'a [Accesses]) -> WholeOfShards<'a>
    requires shards { length shards.now ≡ 16 }
    requires rise { AllRise shards.now }
    requires closed { (seats : ℕ) × (passes : List Pass) × IsClosed control.now.config seats passes control.now.entries shards.now }
    ensures value { result ≡ merged control.now.entries shards.now }
    ensures effects { effects control.now.entries ≡ effects result }
    ensures short { AreShort result }
    ensures few { length result < 2 ^ 64 }
{
    let entries = control.entries();
    let _count = count_entries(entries, shards);
    whole_of_shards(entries, shards)
}
