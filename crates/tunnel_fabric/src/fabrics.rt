//! A fabric that was run.

ghost use Rattle.std.specs.Prelude.{◌≡◌, ◌<◌, Some, length, slice_get};
ghost use Rattle.tunnel_fabric.specs.Stepping.{ran};

use crate::replies::Replies;
use device_plain::Device;
use std::marker::Model;

/// The devices of a fabric after a run, and the replies to the messages to the tunnel.
///
/// Contracts see each device as its configuration and its journal.
#[derive(Drop)]
pub struct Fabric {
    devices: Vec<Device>,
    replies: Replies,
}

impl Model for Fabric {
    ghost use Rattle.tunnel_fabric.specs.Sending.{RanFabric};

    ghost Value = { RanFabric };

    ghost view = { λ f. record { devices = f.devices.items; replies = f.replies } };
}

impl Fabric {
    /// These devices and these replies.
    pub(crate) fn new(devices: Vec<Device>, replies: Replies) -> Fabric
        ensures { result ≡ ran devices.items replies }
    {
        Fabric { devices, replies }
    }

    /// All devices in order.
    pub(crate) fn devices(&self) -> &[Device]
        ensures { result.now ≡ self.now.devices }
    {
        self.devices.as_slice()
    }

    /// The device of this number.
    pub fn device(&self, number: u8) -> &Device
        requires { number < length self.now.devices }
        ensures { slice_get self.now.devices number ≡ Some result.now }
    {
        &self.devices[usize::from(number)]
    }

    /// The replies to the messages to the tunnel, in the order of their lines.
    pub fn replies(&self) -> &Replies
        ensures { result.now ≡ self.now.replies }
    {
        &self.replies
    }
}
