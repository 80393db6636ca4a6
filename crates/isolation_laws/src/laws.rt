//! The laws on isolation.

ghost use Rattle.dcd_base.specs.declared.ids.HostId.{HostId};
ghost use Rattle.device_rules.specs.Invariants.{Holdings};
ghost use Rattle.device_rules.specs.Legal.{Legal};
ghost use Rattle.isolation_laws.specs.Laws.{AllSeeAlone, AreLawful, Clean, SameReplies};
ghost use Rattle.isolation_laws.specs.Solo.{Isolated, own_items};
ghost use Rattle.journal_core.specs.declared.entries.Entry.{Entry};
ghost use Rattle.extent_list.specs.media_map.specs.region_config.specs.Configurations.{Configuration};
ghost use Rattle.extent_list.specs.media_map.specs.region_config.specs.Soundness.{IsSound};
ghost use Rattle.std.specs.Prelude.{◌<◌, List};

use device_rules::law_promised_once;

/// The hosts that hold a granule are those whose accepted extents have it. Where nothing is shared, no granule stands in two
/// of the accepted and offered extents of all hosts; an extent of a shareable region lies in its open tag, and no two open
/// tags have a granule in common. A host has 64 extents at most, accepted and offered, each made of whole blocks of the size
/// that its region has then. It does nothing.
pub fn law_holdings()
    ensures { (c : Configuration) → IsSound c → (journal : List Entry) → Legal c journal → Holdings c journal }
{
    law_promised_once();
}

/// In a sanitized region a granule that is free or offered was not taken since its last zeroing, and one that was not taken
/// since has words that are 0. In a sanitized region that is not shareable, nothing of one host is left for another: a
/// granule that is held has stores of its holder alone. It does nothing.
pub fn law_clean()
    ensures { (c : Configuration) → IsSound c → (journal : List Entry) → Legal c journal → Clean c journal }
{}

/// The view of each host of the device is the one that it would have alone, after its own steps and deliveries. It does
/// nothing.
pub fn law_view()
    ensures { (c : Configuration) → IsSound c → (journal : List Entry) → Legal c journal → AllSeeAlone c journal }
{}

/// Each reply to a host is what a device with that host alone replies to its own steps and deliveries. It does nothing.
pub fn law_isolated()
    ensures { (c : Configuration) → IsSound c → (journal : List Entry) → Legal c journal → Isolated c journal }
{}

/// Two journals that bring a host the same steps and deliveries bring it the same replies. It does nothing.
pub fn law_two_worlds()
    ensures { (c : Configuration) → IsSound c → (left right : List Entry) → Legal c left → Legal c right → (h : HostId) → h < c.hosts → SameReplies c h left right }
{}

/// No legal journal brings a host of the device an item that `solo_replies` takes for unlawful. It does nothing.
pub fn law_lawful()
    ensures { (c : Configuration) → IsSound c → (journal : List Entry) → Legal c journal → (h : HostId) → h < c.hosts → AreLawful c h (own_items h journal) }
{}
