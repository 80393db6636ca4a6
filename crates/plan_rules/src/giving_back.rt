//! What a host's act leaves by which it gives back what it has above its demand.

ghost use Rattle.isolation_laws.specs.device_rules.specs.Legal.{Legal};
ghost use Rattle.journal_core.specs.declared.entries.Entry.{Entry};
ghost use Rattle.plan_rules.specs.GivingBack.{GivesLastBytesBack, MadeOfBlocks};
ghost use Rattle.region_config.specs.Configurations.{Configuration};
ghost use Rattle.region_config.specs.Soundness.{IsSound};
ghost use Rattle.std.specs.Prelude.{List};

/// After every legal journal a 4803h with the last bytes, in whole blocks, of a host's extents in a region that is not
/// shareable succeeds where nothing is held of earlier releases. The region's extents are then what is left of them, and
/// nobody holds a granule that it did not hold. All else of the hosts' lists stays, and each host's log. It does nothing.
pub fn law_given_back()
    ensures { (c : Configuration) → IsSound c → (journal : List Entry) → Legal c journal → GivesLastBytesBack c journal }
{}

/// After every legal journal what a host has accepted in a region is whole blocks of the region's present size. It does
/// nothing.
pub fn law_whole_blocks()
    ensures { (c : Configuration) → IsSound c → (journal : List Entry) → Legal c journal → MadeOfBlocks c journal }
{}
