//! The logs of every legal journal, and what its steps leave.

ghost use Rattle.cci_codec.specs.dcd_base.specs.declared.ids.HostId.{HostId};
ghost use Rattle.device_rules.specs.LogLaws.{LogsKept};
ghost use Rattle.device_rules.specs.Refusals.{EndsHeldAtMost, IsRefusal, IsSeenRefused, KeepsRest};
ghost use Rattle.device_rules.specs.Steps.{IsScrubbed, IsUnseen};
ghost use Rattle.device_rules.specs.Legal.{Legal, Meets};
ghost use Rattle.journal_core.specs.declared.entries.Entry.{Entry};
ghost use Rattle.journal_core.specs.declared.outcome.Effect.{Effect};
ghost use Rattle.extent_list.specs.media_map.specs.region_config.specs.Configurations.{Configuration};
ghost use Rattle.std.specs.Prelude.{◌∷◌, ◌++◌, [], List, ℕ};

/// After every legal journal each log is one that its history tells, and no record was ever missed in a host's log:
/// a command whose records have no room there is refused. It does nothing.
pub fn law_logs()
    ensures { (c : Configuration) (journal : List Entry) → Legal c journal → LogsKept journal }
{}

/// A step of one host, accepted or refused, leaves all that the answers to another host's commands depend on.
/// It does nothing.
pub fn law_unseen()
    ensures { (c : Configuration) (before : List Entry) (h k : HostId) (e : Entry) → Meets c before e → IsUnseen c before e h k }
{}

/// A refused command changes nothing but its sender's own held list: a host's 4802h or 4803h ends the list of responses or
/// of releases that earlier ones with More left, where there is one, and no other has an effect (`ends`). So the other hosts
/// see what they saw, and the sender all but that list (`seen`); and all else stays: who holds which granule, the statuses,
/// the logs, the tags, the block sizes, the words of the memory (`kept`). It does nothing.
pub fn law_refused()
    ensures ends { (c : Configuration) (before : List Entry) (e : Entry) → Meets c before e → IsRefusal e.reply → EndsHeldAtMost e.actor e.act e.effects }
    ensures seen { (c : Configuration) (before : List Entry) (e : Entry) (k : HostId) → Meets c before e → IsRefusal e.reply → IsSeenRefused c before e k }
    ensures kept { (c : Configuration) (before : List Entry) (e : Entry) → Meets c before e → IsRefusal e.reply → KeepsRest c before (before ++ e ∷ []) }
{}

/// A scrub frees the granules that it zeroes, and changes the status of no other. It does nothing.
pub fn law_scrubbed()
    ensures { (c : Configuration) (past : List Effect) (n g : ℕ) → IsScrubbed c past n g }
{}
