//! Whether a host's event log has room for the records of a command.

ghost use Rattle.event_records.specs.dcd_base.specs.declared.steps.LogId.{LogId};
ghost use Rattle.device_state.specs.device_rules.specs.Outcomes.{log_full};
ghost use Rattle.device_state.specs.StateAfter.{part_of};
ghost use Rattle.event_log.specs.Logs.{IsLogOf, Log};
ghost use Rattle.std.specs.Prelude.{◌≡◌, ◌<◌, length};

use device_state::State;
use event_records::dcd_base::HostId;
use extent_list::dcd_codes::Rule;

/// The rule that is broken where the host's log has fewer free places than records are due.
pub(crate) fn log_full(state: &State, host: HostId, need: u32) -> Option<Rule>
    requires { host < length state.now.hosts.items }
    ensures { (log : Log) → IsLogOf (LogId.Host host) log (part_of state.now host).log → result ≡ log_full host log need }
{
    let have = state.part(host).log.room();
    if have < need {
        return Some(Rule::LogFull {
            host: host.0,
            need,
            have,
        });
    }
    None
}
