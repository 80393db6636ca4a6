//! Extents that leave their host.

ghost use Rattle.device_rules.specs.ReleaseOutcomes.{removals};
ghost use Rattle.journal_core.specs.declared.outcome.Effect.{Effect};
ghost use Rattle.extent_list.specs.media_map.specs.Places.{is_granular};
ghost use Rattle.std.specs.Prelude.{◌≡◌, ◌++◌, ◌<◌, All, IsTrue, OnOk};

use crate::runs::run_of;
use cci_codec::dcd_base::{Extent, HostId, NoMemory, Run};
use extent_list::media_map::region_config::Config;
use journal_core::{Effect, Effects};
use std::mem::replace;

/// Each of the extents leaves the host; where the removal cleans, its granules are soiled at once.
pub fn append_leaves(
    config: &Config,
    host: HostId,
    clean: bool,
    extents: &[Extent],
    changes: &mut Effects,
) -> Result<(), NoMemory>
    requires host { host < config.now.hosts }
    requires granular { All (λ x. IsTrue (is_granular config.now host x.start x.length)) extents.now }
    ensures { OnOk result (changes.new ≡ changes.old ++ removals config.now host clean extents.now) }
{
    let alloc = changes.allocator();
    let mut effects = replace(changes, Effects::new(alloc)).into_vec();
    effects.reserve(extents.len().saturating_mul(2))?;
    for i in 0..extents.len() {
        let run = run_of(config, host, &extents[i]);
        effects.push_reserved(leave_of(host, &run));
        if clean {
            effects.push_reserved(Effect::Soil(run));
        }
    }
    *changes = Effects::from_vec(alloc, effects);
    Ok(())
}

/// The run leaves the host.
fn leave_of(host: HostId, run: &Run) -> Effect
    ensures { result ≡ Effect.Leave host run.now }
{
    Effect::Leave(host, *run)
}
