//! A pass with its device.

ghost use Rattle.shared_device.specs.Passing.{IsOneOf};
ghost use Rattle.std.specs.Prelude.{◌≡◌};

use shared_device::{Pass, Shared};

/// A pass of a device of sixteen hosts, with the device, and how many steps were done by it.
#[derive(Drop)]
pub struct Hand<'a> {
    pub(crate) shared: &'a Shared,
    pub(crate) pass: Pass,
    pub(crate) done: u32,
    ghost of: { IsOneOf shared.now pass },
    ghost hosts: { shared.now.config.hosts ≡ 16 },
}
