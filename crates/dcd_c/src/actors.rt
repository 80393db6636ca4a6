//! Who sends a message.

ghost use Rattle.dcd_c.specs.Calls.{actor_numbered};
ghost use Rattle.std.specs.Prelude.{◌≡◌};

use dcd_base::{Actor, HostId};

/// The number of the Fabric Manager.
const MANAGER: u8 = 0xFE;

/// The actor of this number on a device of so many hosts: a host, or the Fabric Manager.
pub(crate) fn actor_of(hosts: u8, number: u8) -> Option<Actor>
    ensures { result ≡ actor_numbered hosts number }
{
    if number < hosts {
        Some(Actor::Host(HostId(number)))
    } else if number == MANAGER {
        Some(Actor::Manager)
    } else {
        None
    }
}
