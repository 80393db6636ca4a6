//! A turn of the sanitizer, as a step.

ghost use Rattle.control_core.specs.Deciding.{IsDecided};
ghost use Rattle.cci_codec.specs.dcd_base.specs.declared.steps.Actor.{Actor};
ghost use Rattle.manager_commands.specs.device_state.specs.StateAfter.{IsReached};
ghost use Rattle.journal_core.specs.declared.acts.Act.{Act};
ghost use Rattle.std.specs.Prelude.{IfOk};

use crate::decided::Decided;
use cci_codec::dcd_base::NoMemory;
use extent_list::media_map::region_config::Config;
use journal_core::Reply;
use manager_commands::device_state::State;
use manager_commands::zero_dirty;
use std::alloc::Global;

/// What a scrub of so many granules at most comes to.
#[inline(never)]
pub(crate) fn scrub_step(
    alloc: Global,
    config: &Config,
    state: &State,
    most: u16,
) -> Result<Decided, NoMemory>
    requires reached { IsReached config.now state.now }
    ensures { IfOk result (IsDecided config.now state.now Actor.Sanitizer (Act.Scrub most)) }
{
    let zeroed = zero_dirty(alloc, config, state, most)?;
    Ok(Decided {
        reply: Reply::Scrubbed(zeroed.granules),
        effects: zeroed.changes,
    })
}
