//! What the acts leave by which a dead host lets all go, and what a scrub leaves.

ghost use Rattle.isolation_laws.specs.device_rules.specs.Legal.{Legal};
ghost use Rattle.journal_core.specs.declared.entries.Entry.{Entry};
ghost use Rattle.plan_rules.specs.LettingGo.{ClearsWholeLogs, EmptiesRegions, LetsOffersGo, ScrubsKeep};
ghost use Rattle.region_config.specs.Configurations.{Configuration};
ghost use Rattle.region_config.specs.Soundness.{IsSound};
ghost use Rattle.std.specs.Prelude.{List};

/// After every journal a 0101h with all handles of its host's log succeeds and empties that log. It leaves all hosts'
/// lists and the other hosts' logs. It does nothing.
pub fn law_log_cleared()
    ensures { (c : Configuration) (journal : List Entry) → ClearsWholeLogs c journal }
{}

/// After every legal journal an empty 4802h of a host that has an offer and holds nothing of earlier responses
/// succeeds and lets the oldest offer go. All else of the hosts' lists stays, and each host's log. It does nothing.
pub fn law_offer_let_go()
    ensures { (c : Configuration) → IsSound c → (journal : List Entry) → Legal c journal → LetsOffersGo c journal }
{}

/// After every legal journal a 5605h by force (flags 11h) with all extents that a host has accepted in a region
/// succeeds where the host's log has room for as many records: no rule of the row is broken, that on incomplete tags
/// neither. These extents leave, and the host's log has so many records more. All else of the hosts' lists stays, and
/// the other hosts' logs. It does nothing.
pub fn law_region_emptied()
    ensures { (c : Configuration) → IsSound c → (journal : List Entry) → Legal c journal → EmptiesRegions c journal }
{}

/// After every journal a scrub zeroes as many dirty granules as it is asked to, or all, and leaves all hosts' lists and
/// all logs. It does nothing.
pub fn law_scrub_keeps()
    ensures { (c : Configuration) (journal : List Entry) → ScrubsKeep c journal }
{}
