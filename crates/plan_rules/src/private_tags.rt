//! Tags of the hosts' extents.

ghost use Rattle.isolation_laws.specs.device_rules.specs.Legal.{Legal};
ghost use Rattle.journal_core.specs.declared.entries.Entry.{Entry};
ghost use Rattle.plan_rules.specs.PrivateTags.{HostsTagsFew, PrivateTagsClosed};
ghost use Rattle.region_config.specs.Configurations.{Configuration};
ghost use Rattle.region_config.specs.Soundness.{IsSound};
ghost use Rattle.std.specs.Prelude.{List};

/// After every legal journal an extent that a host has accepted or is offered in a region that is not shareable has a
/// tag that is not open. It does nothing.
pub fn law_private_tags()
    ensures { (c : Configuration) → IsSound c → (journal : List Entry) → Legal c journal → PrivateTagsClosed c journal }
{}

/// After every legal journal the extents that a host has accepted or is offered have no more tags than are supported.
/// It does nothing.
pub fn law_host_tags()
    ensures { (c : Configuration) → IsSound c → (journal : List Entry) → Legal c journal → HostsTagsFew c journal }
{}
