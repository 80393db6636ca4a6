//! What a caller keeps of its device.

ghost use Rattle.dcd_c.specs.Places.{has_device};
ghost use Rattle.std.specs.Prelude.{◌≡◌, IsTrue, None, Some, false};

use crate::loose::Loose;
use crate::places::{Place, empty_place, kept_in};
use crate::sessions::Session;
use std::alloc::Global;
use std::mem::replace;

/// What a caller keeps of its device. All zeros are a handle without one.
#[repr(C)]
pub struct Handle {
    is_open: bool,
    pub(crate) place: Place,
    ghost agrees: { is_open ≡ has_device place.device },
}

impl Handle {
    /// Whether it has a device.
    pub(crate) fn is_open(&self) -> bool
        ensures { result ≡ has_device self.now.place.device }
    {
        self.is_open
    }
}

/// Takes the device out of the handle.
pub(crate) fn take_out(handle: &mut Handle, alloc: Global) -> Box<Session>
    requires { IsTrue (has_device handle.old.place.device) }
    ensures had { handle.old.place.device ≡ Some result.value }
    ensures left { handle.new.place.device ≡ None }
{
    handle.is_open = false;
    let place = replace(&mut handle.place, empty_place());
    place.taken_out(alloc).into_box()
}

/// Puts the device into the handle, which has none.
pub(crate) fn put_in(handle: &mut Handle, device: Box<Session>)
    requires { has_device handle.old.place.device ≡ false }
    ensures { handle.new.place.device ≡ Some device.value }
{
    handle.is_open = true;
    handle.place = kept_in(Loose::of(device));
}

/// Nothing: a call of it asks that its type may go to another thread.
fn may_go<T: Send>() {}

/// That a handle may go from one thread to another between calls.
pub(crate) fn law_handle_may_go() {
    may_go::<Handle>();
}
