//! What the acts leave by which a host gains blocks.

ghost use Rattle.isolation_laws.specs.device_rules.specs.Legal.{Legal};
ghost use Rattle.journal_core.specs.declared.entries.Entry.{Entry};
ghost use Rattle.plan_rules.specs.Taking.{OffersFreeBlocks, OnlyRoomIsWanting, TakesWholeOffers};
ghost use Rattle.region_config.specs.Configurations.{Configuration};
ghost use Rattle.region_config.specs.Soundness.{IsSound};
ghost use Rattle.std.specs.Prelude.{List};

/// After every legal journal a 5604h by the policy Free, with no tag and in a region that is not shareable, that breaks
/// no rule offers extents of the region with so many bytes together. So many fewer blocks of the region are free then,
/// as many as before of each other region, and everybody holds what it held. All else of the hosts' lists stays, and the
/// other hosts' logs. It does nothing.
pub fn law_free_offered()
    ensures { (c : Configuration) → IsSound c → (journal : List Entry) → Legal c journal → OffersFreeBlocks c journal }
{}

/// After every legal journal a 5604h by the policy Free, with no tag and of whole blocks of a region that is not
/// shareable, of which so many are free, is refused for the number of the host's extents or for the room in its log
/// alone. It does nothing.
pub fn law_room_alone()
    ensures { (c : Configuration) → IsSound c → (journal : List Entry) → Legal c journal → OnlyRoomIsWanting c journal }
{}

/// After every legal journal a 4802h with all extents of the host's oldest offer succeeds where nothing is held of
/// earlier responses. They join its accepted extents, everybody goes on to hold what it held, and where their region is
/// not shareable each region has as many free blocks as before. All else of the hosts' lists stays, and each host's log.
/// It does nothing.
pub fn law_offer_taken()
    ensures { (c : Configuration) → IsSound c → (journal : List Entry) → Legal c journal → TakesWholeOffers c journal }
{}
