//! 4800h Get Dynamic Capacity Configuration, of a host (CXL 3.1, 8.2.9.9.9.1).
//! Row: `no_such_region`, device_rules/specs/Settings.antt.
//! Outcome: `configuration_reply`, device_rules/specs/Settings.antt; it changes nothing.
//! Bytes: docs/formats.md, 'Commands of a host', 'Replies to a host'.

ghost use Rattle.host_commands.specs.GetDynamicCapacityConfiguration.{AnswersConfiguration};
ghost use Rattle.device_commands.specs.device_rules.specs.Outcomes.{only};
ghost use Rattle.extent_list.specs.HostLists.{extent_total};
ghost use Rattle.std.specs.Prelude.{◌<◌, ◌≤◌};

use cci_codec::dcd_base::{Bytes, HostId};
use device_commands::host_lists::HostLists;
use device_commands::{Draft, Flags, host_counts, regions_seen};
use extent_list::dcd_codes::{Refusal, Rule};
use extent_list::media_map::region_config::Config;
use host_payloads::write_configuration;
use std::alloc::Global;

/// At most `count` regions from `first` on, as the host sees them, and what the host may have (CXL 3.1, 8.2.9.9.9.1).
///
/// `NoSuchRegion` comes exactly where the first number is at or past the number of regions. The configuration is the
/// one with the present blocks.
pub fn get_configuration(
    alloc: Global,
    present: &Config,
    host: HostId,
    lists: &HostLists,
    count: u8,
    first: u8,
) -> Result<Draft, Refusal>
    requires host { host < present.now.hosts }
    requires few { extent_total lists.now ≤ 64 }
    ensures { AnswersConfiguration present.now host lists.now count first result }
{
    if first >= present.regions() {
        return Err(Refusal::Broken(Rule::NoSuchRegion(first)));
    }
    let views = regions_seen(present, host, Flags::OfHost, count, first);
    let counts = host_counts(lists);
    let mut payload = Bytes::new(alloc);
    write_configuration(present.regions(), views.as_slice(), &counts, &mut payload)?;
    Ok(Draft::only(alloc, payload))
}
