//! The laws on the lives of tags.

ghost use Rattle.device_rules.specs.Invariants.{EndsWithLife, TagsLive};
ghost use Rattle.device_rules.specs.Legal.{Legal, Meets};
ghost use Rattle.journal_core.specs.declared.entries.Entry.{Entry};
ghost use Rattle.extent_list.specs.media_map.specs.region_config.specs.Configurations.{Configuration};
ghost use Rattle.extent_list.specs.media_map.specs.region_config.specs.Soundness.{IsSound};
ghost use Rattle.std.specs.Prelude.{List};

/// The next entry of a legal journal ends exactly the tags that lived as shareable ones before it and do not after it.
/// It does nothing.
pub fn law_ends_with_life()
    ensures { (c : Configuration) → IsSound c → (before : List Entry) → Legal c before → (e : Entry) → Meets c before e → EndsWithLife c before e }
{}

/// After every legal journal the open tags are the live shareable ones, each once, in the order in which they became
/// live. It does nothing.
pub fn law_tags_live()
    ensures { (c : Configuration) → IsSound c → (journal : List Entry) → Legal c journal → TagsLive c journal }
{}
