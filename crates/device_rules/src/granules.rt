//! That the kept states of granules stay right.

ghost use Rattle.device_rules.specs.Legal.{Legal, Meets};
ghost use Rattle.device_rules.specs.GranuleTable.{StaysRight};
ghost use Rattle.journal_core.specs.declared.entries.Entry.{Entry};
ghost use Rattle.extent_list.specs.media_map.specs.region_config.specs.Configurations.{Configuration};
ghost use Rattle.extent_list.specs.media_map.specs.region_config.specs.Soundness.{IsSound};
ghost use Rattle.std.specs.Prelude.{List};

/// What is kept of each granule, its state and whether it has to be zeroed, is right after each step of a legal
/// journal: each effect changes the granules that it names, and no other. It does nothing.
pub fn law_granule_table()
    ensures { (c : Configuration) → IsSound c → (before : List Entry) → Legal c before → (e : Entry) → Meets c before e → StaysRight c before e }
{}
