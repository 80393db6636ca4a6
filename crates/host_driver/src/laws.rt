//! What a driver keeps in every legal journal.

ghost use Rattle.device_plain.specs.device_rules.specs.Legal.{Legal};
ghost use Rattle.host_driver.specs.Journals.{IsDriven, KeepsTable};
ghost use Rattle.std.specs.Prelude.{◌<◌};

use crate::spelling::are_spelled;
use dcd_base::HostId;
use journal_core::Entry;
use region_config::Config;

/// In a legal journal in which a host does what its driver gives, however others go on between, an empty log of the host
/// means that the driver's table is the host's accepted extents; and no command of the host but a release is refused.
///
/// The driver is one that takes no more than `most` bytes. The call changes nothing.
pub fn law_driven(config: &Config, journal: &[Entry], host: HostId, most: u64)
    requires legal { Legal config.now journal.now }
    requires known { host < config.now.hosts }
    requires driven { IsDriven host most journal.now }
    ensures { KeepsTable config.now host most journal.now }
{
    // A configuration is sound.
    let _hosts = config.hosts();
    are_spelled(journal);
}
