//! The live tags in the caller's room.

ghost use Rattle.dcd_c.specs.Lists.{TellsItems, TellsPlace, flag_number, tag_told, tags_told};
ghost use Rattle.std.specs.Prelude.{◌≡◌};

use crate::faults::Fault;
use crate::handles::{Handle, put_in, take_out};
use dcd_base::TagView;
use device_plain::LiveDevice;
use std::alloc::Global;

/// A live tag as C sees it.
#[repr(C)]
#[derive(Clone, Copy, Drop)]
pub struct TagTold {
    pub tag: [u8; 16],
    /// Bit h stands where host h holds the tag, and where it is offered the tag.
    pub holders: u16,
    pub offered: u16,
    /// 1 where the manager has a reference to the tag, else 0.
    pub referenced: u8,
    pub reserved: u8,
    pub reserved_too: u16,
}

/// 1 where it is so, else 0.
fn flag_of(on: bool) -> u8
    ensures { result ≡ flag_number on 1 }
{
    u8::from(on)
}

/// What the manager is shown of a tag, as C sees it.
fn tag_told(view: &TagView) -> TagTold
    ensures { result ≡ tag_told view.now }
{
    TagTold {
        tag: view.tag.0,
        holders: view.holders,
        offered: view.offered,
        referenced: flag_of(view.referenced),
        reserved: 0,
        reserved_too: 0,
    }
}

/// Puts the live tags into the room, in the order of opening.
fn tags_of(device: &LiveDevice, room: &mut [TagTold]) -> Result<u64, Fault>
    ensures { TellsItems tags_told room.old room.new device.now result }
{
    // Some legal journal leads to the device.
    let _sound = device.first_config();
    let kept = device.control();
    let count = kept.tags();
    if count > room.len() {
        return Err(Fault::NoRoom(count as u64));
    }
    for i in 0..count {
        let view = kept.tag(i);
        room[i] = tag_told(&view);
    }
    Ok(count as u64)
}

/// The live tags of the handle's device.
pub(crate) fn tags_asked(
    handle: &mut Handle,
    alloc: Global,
    room: &mut [TagTold],
) -> Result<u64, Fault>
    ensures told { TellsPlace room.old room.new (TellsItems tags_told room.old room.new) handle.old.place.device result }
    ensures kept { handle.new.place.device ≡ handle.old.place.device }
{
    if !handle.is_open() {
        return Err(Fault::Closed);
    }
    let session = take_out(handle, alloc);
    let outcome = tags_of(&session.device, room);
    put_in(handle, session);
    outcome
}
