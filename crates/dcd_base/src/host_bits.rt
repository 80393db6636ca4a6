//! Sets of hosts as numbers of 16 bits: bit h stands where host h is in the set.

ghost use Rattle.dcd_base.specs.Hosts.{has_host, with_host, without_host};
ghost use Rattle.std.specs.Prelude.{◌≡◌, ◌<◌, if◌then◌else◌};

use crate::ids::HostId;

/// Whether the host, below 16, is in the set.
pub fn has(hosts: u16, host: HostId) -> bool
    requires { host < 16 }
    ensures { result ≡ has_host hosts host }
{
    hosts >> host.0 & 1 == 1
}

/// The set with the host, below 16.
pub fn with(hosts: u16, host: HostId) -> u16
    requires { host < 16 }
    ensures { result ≡ with_host hosts host }
{
    hosts | 1 << host.0
}

/// The set without the host, below 16.
pub fn without(hosts: u16, host: HostId) -> u16
    requires { host < 16 }
    ensures { result ≡ without_host hosts host }
{
    hosts & !(1 << host.0)
}

/// The set with the host, below 16, where it is to be in it, and without the host where not.
pub fn set(hosts: u16, host: HostId, is_in: bool) -> u16
    requires { host < 16 }
    ensures { result ≡ (if is_in then with_host hosts host else without_host hosts host) }
{
    if is_in {
        with(hosts, host)
    } else {
        without(hosts, host)
    }
}
