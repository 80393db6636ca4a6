//! What a command or a scrub changes of a shard.

ghost use Rattle.shard_laws.specs.device_rules.specs.ChangedRuns.{LiesIn};
ghost use Rattle.dcd_base.specs.Words.{has_granule};
ghost use Rattle.granule_mem.specs.Contents.{SetsHolders, word_in};
ghost use Rattle.shard_laws.specs.Changing.{AreMadeIn};
ghost use Rattle.shard_laws.specs.Stripes.{own_below};
ghost use Rattle.std.specs.Prelude.{◌≡◌, ◌+◌, ◌/◌, ◌<◌, ◌≤◌, ◌∷◌, ◌&&◌, [], ℕ, All, if◌then◌else◌, length};

use crate::numbers::own_part;
use dcd_base::Change;
use granule_mem::Memory;

/// Makes each change in turn, as far as it is of the shard, of a device with so many granules.
pub(crate) fn make_all(memory: &mut Memory, index: u32, granules: u32, changes: &[Change])
    requires index { index < 16 }
    requires few { granules ≤ 4096 }
    requires room { length memory.old.holders ≡ granules / 16 + 1 }
    requires inside { All (LiesIn granules) changes.now }
    ensures { AreMadeIn index memory.old memory.new changes.now }
{
    for i in 0..changes.len() {
        make(memory, index, granules, &changes[i]);
    }
}

/// Makes one change.
#[tactic(auto, using(crate::proofs::MadeChanges::made_one))]
fn make(memory: &mut Memory, index: u32, granules: u32, change: &Change)
    requires index { index < 16 }
    requires few { granules ≤ 4096 }
    requires room { length memory.old.holders ≡ granules / 16 + 1 }
    requires inside { LiesIn granules change.now }
    ensures { AreMadeIn index memory.old memory.new (change.now ∷ []) }
{
    put(memory, &own_change(index, granules, change));
}

/// The same change of the shard's own granules, by their numbers in it.
fn own_change(index: u32, granules: u32, change: &Change) -> Change
    requires index { index < 16 }
    requires few { granules ≤ 4096 }
    requires inside { LiesIn granules change.now }
    ensures first { result.run.first ≡ own_below index change.now.run.first }
    ensures end { result.run.first + result.run.count ≡ own_below index (change.now.run.first + change.now.run.count) }
    ensures holders { result.holders ≡ change.now.holders }
    ensures zero { result.zero ≡ change.now.zero }
    ensures inside { LiesIn (granules / 16 + 1) result }
{
    Change {
        run: own_part(index, &change.run),
        holders: change.holders,
        zero: change.zero,
    }
}

/// Changes holders and words of the run.
fn put(memory: &mut Memory, change: &Change)
    requires { LiesIn (length memory.old.holders) change.now }
    ensures granules { length memory.new.holders ≡ length memory.old.holders }
    ensures holders { SetsHolders memory.old memory.new change.now.run change.now.holders }
    ensures words { (g w : ℕ) → word_in memory.new g w
        ≡ (if change.now.zero && has_granule change.now.run g then 0 else word_in memory.old g w) }
{
    memory.set_holders(change.run, change.holders);
    if change.zero {
        memory.zero(change.run);
    }
}
