//! 5600h Get DCD Info, of the Fabric Manager (CXL 3.1, 7.6.7.6.1; layout: profile).
//! Row: none; it breaks no rule.
//! Outcome: `info_reply`, device_rules/specs/Settings.antt; it changes nothing.
//! Bytes: docs/formats.md, 'Commands of the Fabric Manager', 'Replies to the Fabric Manager'.

ghost use Rattle.manager_commands.specs.ManagerMessages.{ManagerAnswers};
ghost use Rattle.device_state.specs.StateAfter.{IsReached};
ghost use Rattle.fm_payloads.specs.declared.requests.FmRequest.{FmRequest};
ghost use Rattle.std.specs.Prelude.{◌≡◌, ◌≤◌, length, map};

use device_commands::{Draft, Few};
use device_state::State;
use event_records::dcd_base::{Bytes, RegionId};
use extent_list::dcd_codes::Refusal;
use extent_list::media_map::region_config::Config;
use fm_payloads::write_info;
use std::alloc::Global;

/// How many hosts and granules there are, how many granules are free and dirty, and the block sizes that each region
/// supports (profile). It breaks no rule.
pub(crate) fn get_info(alloc: Global, config: &Config, state: &State) -> Result<Draft, Refusal>
    requires reached { IsReached config.now state.now }
    ensures { ManagerAnswers config.now state.now FmRequest.GetInfo result }
{
    let sizes = sizes_of(config);
    let mut payload = Bytes::new(alloc);
    let (free, dirty) = (state.granules.free(), state.granules.dirty());
    write_info(
        config.hosts(),
        config.granules(),
        free,
        dirty,
        sizes.as_slice(),
        &mut payload,
    )?;
    Ok(Draft::only(alloc, payload))
}

/// The mask of the block sizes of each region.
fn sizes_of(config: &Config) -> Few<u64>
    ensures sizes { result ≡ map (λ spec. spec.sizes) config.now.regions }
    ensures some { 1 ≤ length result }
{
    let mut sizes = Few::new(0);
    for region in 0..config.regions() {
        sizes.push(config.region(RegionId(region)).sizes);
    }
    sizes
}
