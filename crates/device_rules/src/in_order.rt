//! That a response in order is never refused.

ghost use Rattle.device_rules.specs.InOrderResponses.{AllowsInOrder, SucceedsInOrder};
ghost use Rattle.device_rules.specs.Legal.{Legal};
ghost use Rattle.journal_core.specs.declared.entries.Entry.{Entry};
ghost use Rattle.extent_list.specs.media_map.specs.region_config.specs.Configurations.{Configuration};
ghost use Rattle.extent_list.specs.media_map.specs.region_config.specs.Soundness.{IsSound};
ghost use Rattle.std.specs.Prelude.{List};

/// After every legal journal, where a host holds nothing of earlier responses, a response in one message (4802h
/// without More) that lists extents of its oldest offer whole, in order and each at most once, and where their region
/// is shareable all of them or none, breaks no rule and succeeds. It does nothing.
pub fn law_in_order()
    ensures allowed { (c : Configuration) → IsSound c → (journal : List Entry) → Legal c journal → AllowsInOrder c journal }
    ensures succeeds { (c : Configuration) → IsSound c → (journal : List Entry) → Legal c journal → SucceedsInOrder c journal }
{}
