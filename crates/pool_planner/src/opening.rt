//! Hosts with something open: held lists, or offers that they have not answered.

ghost use Rattle.journal_core.specs.Entries.{effects};
ghost use Rattle.plan_rules.specs.Planning.{has_held as holds_lists, has_number, is_demanded as demanded_by, is_open as open_by, lowest_below};
ghost use Rattle.std.specs.Prelude.{◌≡◌, ◌<◌};

use dcd_base::HostId;
use device_plain::control_core::Control;
use plan_rules::Demands;

/// Whether the host has held lists of responses or of releases.
fn has_held(control: &Control, host: HostId) -> bool
    requires { host < control.now.config.hosts }
    ensures { result ≡ holds_lists host (effects control.now.entries) }
{
    !control.held_responses(host).is_empty() || !control.held_releases(host).is_empty()
}

/// Whether the host is among the dead ones.
fn is_dead(demands: &Demands, host: HostId) -> bool
    ensures { result ≡ has_number demands.now.dead host }
{
    demands
        .dead
        .as_slice()
        .iter()
        .any(|dead| *dead == u32::from(host.0))
}

/// Whether a demand names the host.
fn is_demanded(demands: &Demands, host: HostId) -> bool
    ensures { result ≡ demanded_by demands.now host }
{
    demands
        .demands
        .as_slice()
        .iter()
        .any(|demand| demand.host == u32::from(host.0))
}

/// Whether the host has a held list and is dead or demanded, or has an unanswered offer and is demanded.
fn is_open(control: &Control, demands: &Demands, host: HostId) -> bool
    requires { host < control.now.config.hosts }
    ensures { result ≡ open_by (effects control.now.entries) demands.now host }
{
    let demanded = is_demanded(demands, host);
    let held = has_held(control, host) && (is_dead(demands, host) || demanded);
    held || (demanded && control.offers(host) != 0)
}

/// The lowest host with something open; None exactly where there is none.
pub(crate) fn open_host(control: &Control, demands: &Demands) -> Option<HostId>
    ensures { result ≡ lowest_below (open_by (effects control.now.entries) demands.now) control.now.config.hosts }
{
    for host in 0..control.first_config().hosts() {
        if is_open(control, demands, HostId(host)) {
            return Some(HostId(host));
        }
    }
    None
}
