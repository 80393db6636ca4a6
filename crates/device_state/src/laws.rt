//! That what is kept stays right.

ghost use Rattle.device_rules.specs.Legal.{Legal, Meets};
ghost use Rattle.device_state.specs.Updates.{HasRoomFor, IsOfDevice, KeepsEntered};
ghost use Rattle.journal_core.specs.declared.entries.Entry.{Entry};
ghost use Rattle.extent_list.specs.media_map.specs.region_config.specs.Configurations.{Configuration};
ghost use Rattle.extent_list.specs.media_map.specs.region_config.specs.Soundness.{IsSound};
ghost use Rattle.std.specs.Prelude.{All, List};

/// Where everything that is kept is what a legal journal says, there is a place for all that a legal step adds; and once its
/// effects are entered, everything is what the journal with the new entry says. It does nothing.
pub fn law_kept_entered()
    ensures of_device { (c : Configuration) → IsSound c → (past : List Entry) → Legal c past → (e : Entry) → Meets c past e → All (IsOfDevice c) e.effects }
    ensures fits { (c : Configuration) → IsSound c → (past : List Entry) → Legal c past → (e : Entry) → Meets c past e → HasRoomFor c past e }
    ensures kept { (c : Configuration) → IsSound c → (past : List Entry) → Legal c past → (e : Entry) → Meets c past e → KeepsEntered c past e }
{}
