//! A place for a device on the heap.

ghost use Rattle.dcd_c.specs.Places.{has_device, place_owns};
ghost use Rattle.dcd_c.specs.declared.sessions.Session.{Session};
ghost use Rattle.std.specs.Prelude.{◌≡◌, IsTrue, None, Option, Some, false};

use crate::loose::Loose;
use crate::sessions::Session;
use std::alloc::Global;
use std::marker::Model;
use std::ptr::null_mut;

/// A place for a device on the heap: its address, or null where there is none.
///
/// C sees the address of bytes, since the device is none of its structs. The place owns the device that its ghost value
/// names, and is let go only where it names none.
#[repr(C)]
pub struct Place {
    at: *mut u8,
    pub ghost device: { Option Session },
}

impl Model for Place {
    ghost also_owns = { λ p. place_owns p.at p.device };
}

impl Drop for Place {
    fn drop(self)
        requires { has_device self.device ≡ false }
    {
        let Place { at: _ } = self;
    }
}

// What it owns says the same to every thread.
unsafe impl Send for Place {}

impl Place {
    /// The device of a place that has one.
    pub(crate) fn taken_out(self, alloc: Global) -> Loose<Session, Global>
        requires { IsTrue (has_device self.device) }
        ensures { self.device ≡ Some result.value }
    {
        let Place { at } = self;
        Loose {
            at: at as *mut Session,
            alloc,
        }
    }
}

/// A place that has the device.
pub(crate) fn kept_in(device: Loose<Session, Global>) -> Place
    ensures { result.device ≡ Some device.value }
{
    let Loose { at, alloc: _alloc } = device;
    Place { at: at as *mut u8 }
}

/// A place without a device.
pub(crate) fn empty_place() -> Place
    ensures { result.device ≡ None }
{
    Place { at: null_mut() }
}
