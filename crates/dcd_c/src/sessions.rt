//! A device with what its last step changed.

use device_plain::LiveDevice;
use journal_core::Effects;

/// A device, and what the last call that may take a step changed: nothing where it took none.
#[derive(Drop)]
pub struct Session {
    pub device: LiveDevice,
    pub last: Effects,
}
