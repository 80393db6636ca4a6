//! The laws of shards.

ghost use Rattle.dcd_base.specs.declared.media.Change.{Change};
ghost use Rattle.journal_core.specs.declared.entries.Entry.{Entry};
ghost use Rattle.region_config.specs.Configurations.{Configuration};
ghost use Rattle.ruled_cells.specs.declared.about.About.{About};
ghost use Rattle.shard_laws.specs.Lawful.{MergesLegally};
ghost use Rattle.shard_laws.specs.Owed.{FollowsEffects, RestsLawful};
ghost use Rattle.shard_laws.specs.Stripes.{Stripe};
ghost use Rattle.std.specs.Prelude.{List, ℕ};

use ruled_cells::Chief;

/// All entries of a device with shards are one legal journal, numbered, where those of the control are legal by
/// themselves, and those of each shard are right beside those of the control. It does nothing.
pub fn law_merged()
    ensures { (c : Configuration) (control : List Entry) (shards : List (List Entry)) → MergesLegally c control shards }
{}

/// The changes of a command, made to a shard that is right for the journal before it, are what its effects say.
/// It does nothing.
#[tactic(auto, using(crate::proofs::ChangedShards::follows_effects))]
pub fn law_changed()
    ensures { (k : ℕ) (x y : Stripe) (log : List Entry) (e : Entry) (changes : List Change) → FollowsEffects k x y log e changes }
{}

/// What the cells tell of a shard once all turns are given back is what `law_merged` asks of it. It does nothing.
pub fn law_at_rest<F: Chief>()
    ensures { (about : About) (log : List Entry) (k : ℕ) (x : Stripe) → RestsLawful F.reads about log k x }
{}
