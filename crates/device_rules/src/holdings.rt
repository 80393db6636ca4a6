//! That nothing is promised twice, so that holding is exclusive, and that blocks have supported sizes.

ghost use Rattle.device_rules.specs.BlockSizes.{BlocksSupported};
ghost use Rattle.device_rules.specs.Pictures.{picture_of};
ghost use Rattle.device_rules.specs.Standing.{Sound};
ghost use Rattle.device_rules.specs.Invariants.{Holdings};
ghost use Rattle.device_rules.specs.Legal.{Exclusive, Legal};
ghost use Rattle.journal_core.specs.Entries.{effects};
ghost use Rattle.journal_core.specs.declared.entries.Entry.{Entry};
ghost use Rattle.extent_list.specs.media_map.specs.region_config.specs.Configurations.{Configuration};
ghost use Rattle.extent_list.specs.media_map.specs.region_config.specs.Soundness.{IsSound};
ghost use Rattle.std.specs.Prelude.{List};

/// After every legal journal the lists, the holders, the block sizes and the open tags are sound: what one more entry
/// needs to keep the holdings. It does nothing.
pub fn law_sound()
    ensures { (c : Configuration) → IsSound c → (journal : List Entry) → Legal c journal → Sound c (picture_of c (effects journal)) }
{}

/// After every legal journal the hosts that hold a granule are those whose accepted extents have it, and no granule is
/// promised twice: not to two extents of a host, and where nothing is shared not to two hosts. It does nothing.
pub fn law_promised_once()
    ensures { (c : Configuration) → IsSound c → (journal : List Entry) → Legal c journal → Holdings c journal }
{}

/// At every moment of a legal journal a granule of a region that is not shareable has one holder at most, and all
/// holders of one of a shareable region have it under one tag. It does nothing.
pub fn law_exclusive()
    ensures { (c : Configuration) → IsSound c → (journal : List Entry) → Legal c journal → Exclusive c journal }
{}

/// After every legal journal the present block of each region is a size that the region supports. It does nothing.
pub fn law_block_sizes()
    ensures { (c : Configuration) → IsSound c → (journal : List Entry) → Legal c journal → BlocksSupported c (effects journal) }
{}
