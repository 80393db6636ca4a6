//! 4801h Get Dynamic Capacity Extent List, of a host (CXL 3.1, 8.2.9.9.9.2).
//! Row: `past_end`, device_rules/specs/Settings.antt.
//! Outcome: `extents_reply`, device_rules/specs/Settings.antt; it changes nothing.
//! Bytes: docs/formats.md, 'Commands of a host', 'Replies to a host'.

ghost use Rattle.host_commands.specs.GetDynamicCapacityExtentList.{AnswersExtents};
ghost use Rattle.device_commands.specs.device_rules.specs.Outcomes.{only};
ghost use Rattle.extent_list.specs.HostLists.{extent_total};
ghost use Rattle.std.specs.Prelude.{◌≤◌};

use cci_codec::dcd_base::Bytes;
use device_commands::host_lists::HostLists;
use device_commands::{Draft, extents_page};
use extent_list::dcd_codes::{Refusal, Rule};
use host_payloads::write_extents;
use std::alloc::Global;

/// At most `count` accepted extents from `first` on, 50 at most, with how many there are and how often the list
/// changed (CXL 3.1, 8.2.9.9.9.2). `PastEnd` comes exactly where the first index is above their number.
pub fn get_extents(
    alloc: Global,
    lists: &HostLists,
    count: u32,
    first: u32,
) -> Result<Draft, Refusal>
    requires { extent_total lists.now ≤ 64 }
    ensures { AnswersExtents lists.now count first result }
{
    let total = lists.accepted().len() as u32;
    if first > total {
        return Err(Refusal::Broken(Rule::PastEnd { first, total }));
    }
    let extents = extents_page(lists, count, first);
    let mut payload = Bytes::new(alloc);
    write_extents(total, lists.generation(), extents, &mut payload)?;
    Ok(Draft::only(alloc, payload))
}
