//! How the table of the open tags follows each kind of step.

ghost use Rattle.cci_codec.specs.dcd_base.specs.declared.capacity.Tag.{Tag};
ghost use Rattle.cci_codec.specs.dcd_base.specs.declared.ids.HostId.{HostId};
ghost use Rattle.device_rules.specs.Answers.{dropped, zeroes};
ghost use Rattle.device_rules.specs.Legal.{Legal};
ghost use Rattle.device_rules.specs.Outcomes.{Outcome};
ghost use Rattle.device_rules.specs.Tags.{is_live, is_referenced};
ghost use Rattle.device_rules.specs.Views.{View};
ghost use Rattle.host_payloads.specs.declared.requests.HostRequest.{HostRequest};
ghost use Rattle.journal_core.specs.Entries.{effects};
ghost use Rattle.journal_core.specs.declared.entries.Entry.{Entry};
ghost use Rattle.journal_core.specs.declared.outcome.Effect.{Effect};
ghost use Rattle.extent_list.specs.media_map.specs.region_config.specs.Configurations.{Configuration};
ghost use Rattle.extent_list.specs.media_map.specs.region_config.specs.Soundness.{IsSound};
ghost use Rattle.std.specs.List.{list_all};
ghost use Rattle.std.specs.Prelude.{◌≡◌, ◌==◌, [], List, false, true, ℕ};
ghost use Rattle.device_rules.specs.QuietRequests.{HostLeavesTable, LeavesTable, ManagerLeavesTable, is_quiet_host, leaves_table};
ghost use Rattle.device_rules.specs.ShownTags.{LivesWhereUsed, ReferencedAreOpen, ShowsTags, is_in_use};
ghost use Rattle.device_rules.specs.TagTable.{IsTable};
ghost use Rattle.device_rules.specs.TagTableSteps.{DropsReference, FollowsOffer, SetsReference, SetsHostOfTags};
ghost use Rattle.device_rules.specs.Tabled.{HostDoes, OfferDoes, RemovalDoes, Tabled, past_of};
ghost use Rattle.tag_refs.specs.Tables.{passes};
ghost use Rattle.tag_refs.specs.Tables.{has_entry, entry_referenced};
ghost use Rattle.tag_refs.specs.declared.entries.TagEntry.{TagEntry};

/// After every legal journal a tag to which the manager has a reference is open. It does nothing.
pub fn law_referenced()
    ensures { (c : Configuration) → IsSound c → (journal : List Entry) → Legal c journal → ReferencedAreOpen c (effects journal) }
{}

/// At first the table is empty. It stays right, with the same entries, after effects that are neither offers, answers,
/// leaves, references nor ends of tags: so after a refusal, a scrub, and each command but those of the other laws.
/// It does nothing.
pub fn law_tags_quiet()
    ensures begins { (c : Configuration) → IsTable c [] [] }
    ensures left { (c : Configuration) (past new : List Effect) → list_all leaves_table new ≡ true → LeavesTable c past new }
    ensures refused { (c : Configuration) (past : List Effect) (h : HostId) (v : View) (opcode : ℕ) → LeavesTable c past (dropped h v opcode) }
    ensures scrubbed { (c : Configuration) (past : List Effect) (granules : List ℕ) → LeavesTable c past (zeroes c granules) }
    ensures host { (c : Configuration) (past : List Effect) → HostLeavesTable c past }
    ensures manager { (c : Configuration) (past : List Effect) → ManagerLeavesTable c past }
{}

/// The entries show what the manager is to see of the open tags, in order (5608h); a tag has an entry just where it is
/// open, and it is open in the entry's region; an open tag lives just where its entry is used. It does nothing.
pub fn law_tags_shown()
    ensures shown { (c : Configuration) (past : List Effect) (entries : List TagEntry) → IsTable c past entries → ShowsTags c past entries }
    ensures used { (t : Tabled) (tag : Tag) → LivesWhereUsed t tag }
{}

/// After a response or a release that ends its list, and after a removal, that break no rule, what the host has of the
/// tags that may end by it is set anew (4802h, 4803h, 5605h). It does nothing.
pub fn law_tags_of_host()
    ensures list_ended { (t : Tabled) (h : HostId) (q : HostRequest) (o : Outcome) → is_quiet_host q ≡ false → HostDoes t h q o → SetsHostOfTags t h o }
    ensures removal { (t : Tabled) (o : Outcome) (a : RemovalDoes t o) → SetsHostOfTags t a.host o }
{}

/// After an offer that breaks no rule the table is as it was, or the tag's entry is set anew, or it has one more entry
/// (5604h). The tag has an entry before just where the policy is Enable Shared Access. The rules read in the hosts'
/// lists and in the table whether the tag is in use. It does nothing.
pub fn law_tags_offered()
    ensures offer { (t : Tabled) (o : Outcome) (a : OfferDoes t o) → FollowsOffer t o a }
    ensures policy { (t : Tabled) (o : Outcome) (a : OfferDoes t o) → has_entry a.tag t.entries ≡ (a.policy == 3) }
    ensures in_use { (t : Tabled) (tag : Tag) → is_live t.config tag (past_of t) ≡ is_in_use t tag }
{}

/// A new reference is set in the tag's entry, and a reference that goes is taken out of it: where nothing else uses the
/// tag it ends (5606h, 5607h). Whether the manager has one is read in the entry. It does nothing.
pub fn law_tags_referenced()
    ensures known { (t : Tabled) (tag : Tag) → is_referenced tag (past_of t) ≡ passes tag entry_referenced t.entries }
    ensures added { (c : Configuration) (past : List Effect) (tag : Tag) → SetsReference c past tag }
    ensures removed { (t : Tabled) (tag : Tag) → DropsReference t.config (past_of t) tag t.entries }
{}
