//! The law on maps.

ghost use Rattle.dcd_base.specs.Hosts.{has_host};
ghost use Rattle.dcd_base.specs.declared.ids.HostId.{HostId};
ghost use Rattle.dcd_c.specs.Changes.{mapped, runs_told};
ghost use Rattle.dcd_c.specs.Maps.{MovesOn, all_changed};
ghost use Rattle.dcd_c.specs.declared.sessions.Session.{Session};
ghost use Rattle.device_plain.specs.Lives.{IsLife};
ghost use Rattle.granule_mem.specs.Contents.{holders_in};
ghost use Rattle.region_config.specs.Granules.{granule_total};
ghost use Rattle.journal_core.specs.declared.outcome.Effect.{Effect};
ghost use Rattle.std.specs.Prelude.{◌≡◌, ℕ, ◌<◌, List, []};

/// Whoever applies the runs of each call from a fresh device on, in their order, has mapped for each host exactly the granules
/// that it holds. It does nothing.
pub(crate) fn law_maps_are_holdings()
    ensures { (fresh now : Session) → IsLife [] fresh.device → (changed : List (List Effect)) → MovesOn fresh changed now →
        (h : HostId) → h < now.device.config.hosts → (g : ℕ) → g < granule_total now.device.config →
        mapped h g (runs_told now.device.config (all_changed changed)) ≡ has_host (holders_in now.device.memory g) h }
{}
