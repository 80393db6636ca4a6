//! Which tags are open.

ghost use Rattle.device_rules.specs.Legal.{Legal};
ghost use Rattle.device_rules.specs.OpenTags.{OpenOnce, OpenWhereLive};
ghost use Rattle.journal_core.specs.Entries.{effects};
ghost use Rattle.journal_core.specs.declared.entries.Entry.{Entry};
ghost use Rattle.extent_list.specs.media_map.specs.region_config.specs.Configurations.{Configuration};
ghost use Rattle.extent_list.specs.media_map.specs.region_config.specs.Soundness.{IsSound};
ghost use Rattle.std.specs.Prelude.{List};

/// After every legal journal a tag is open just where it lives, as an extent of a host or by a reference, and its
/// last offer lies in a shareable region; and no tag is open twice. It does nothing.
pub fn law_open_tags()
    ensures live { (c : Configuration) → IsSound c → (journal : List Entry) → Legal c journal → OpenWhereLive c (effects journal) }
    ensures once { (c : Configuration) (journal : List Entry) → OpenOnce c (effects journal) }
{}
