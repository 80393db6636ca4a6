//! The payloads of the two event commands, which hosts and the manager ask alike.

ghost use Rattle.dcd_base.specs.EventCommands.{FitsHandle, clear_fields, clear_length};
ghost use Rattle.dcd_base.specs.Layouts.{FitsField, pieces, spelling, u16_bytes, u16_in};
ghost use Rattle.std.specs.List.{AllByRecursion};
ghost use Rattle.std.specs.Prelude.{◌≡◌, ◌+◌, ◌*◌, ◌≤◌, ◌++◌, IfOk, OnOk, flat_map, length, map, take};

use crate::failures::NoMemory;
use crate::field_reading::u16_at;
use crate::field_writing::{put_flag, put_u8, put_u16, put_zeros};
use crate::lengths::zeros;
use crate::lists::ShortList;
use crate::sequence::{Bytes, Handles};
use std::alloc::Global;

/// The length of a list of handles to clear: 6 bytes and 2 for each handle of its count.
pub fn clear_length(payload: &[u8]) -> u64
    ensures { result ≡ clear_length payload.now }
{
    if payload.len() < 6 {
        6
    } else {
        6 + 2 * u64::from(payload[2])
    }
}

/// So many handles of two bytes each. It takes memory only for several.
pub fn handles_of(alloc: Global, count: usize, bytes: &[u8]) -> Result<ShortList<u16>, NoMemory>
    requires { 2 * count ≤ length bytes.now }
    ensures { IfOk result (λ handles. handles ≡ map u16_in (pieces 2 count bytes.now)) }
{
    if count == 0 {
        return Ok(ShortList::new());
    }
    if count == 1 {
        return Ok(ShortList::of(u16_at(bytes, 0)));
    }
    Ok(ShortList::of_list(several_handles(alloc, count, bytes)?))
}

/// So many handles of two bytes each, as a list of their own.
fn several_handles(alloc: Global, count: usize, bytes: &[u8]) -> Result<Handles, NoMemory>
    requires { 2 * count ≤ length bytes.now }
    ensures { IfOk result (λ handles. handles ≡ map u16_in (pieces 2 count bytes.now)) }
{
    let mut handles = Handles::with_capacity(alloc, count)?;
    let mut rest = bytes;
    for _ in 0..count {
        let (piece, after) = rest.split_at(2);
        handles.push(u16_at(piece, 0))?;
        rest = after;
    }
    Ok(handles)
}

/// Puts handles at a place, two bytes each, and leaves what stands before them.
fn put_handles(out: &mut [u8], at: usize, handles: &[u16])
    requires { at + 2 * length handles.now ≤ length out.old }
    ensures put { take (at + 2 * length handles.now) out.new ≡ take at out.old ++ flat_map u16_bytes handles.now }
    ensures fit { AllByRecursion FitsHandle handles.now }
{
    let mut place = at;
    for handle in handles {
        put_u16(out, place, *handle);
        place += 2;
    }
}

/// Fills the payload that clears records.
fn fill_clear(out: &mut [u8], log: u8, all: bool, handles: &[u16])
    requires few { length handles.now ≤ 255 }
    requires whole { length out.old ≡ 6 + 2 * length handles.now }
    ensures spelled { out.new ≡ spelling (clear_fields log all handles.now) }
    ensures fits { AllByRecursion FitsField (clear_fields log all handles.now) }
{
    put_u8(out, 0, log);
    put_flag(out, 1, all);
    put_u8(out, 2, handles.len() as u8);
    put_zeros::<3>(out, 3);
    put_handles(out, 6, handles);
}

/// The payload that clears records: the log, whether all of it, the handles.
pub fn clear_payload(alloc: Global, log: u8, all: bool, handles: &[u16]) -> Result<Bytes, NoMemory>
    requires { length handles.now ≤ 255 }
    ensures spelled { IfOk result (λ bytes. bytes ≡ spelling (clear_fields log all handles.now)) }
    ensures fits { OnOk result (AllByRecursion FitsField (clear_fields log all handles.now)) }
{
    let mut payload = zeros(alloc, 6 + 2 * handles.len())?;
    fill_clear(&mut payload, log, all, handles);
    Ok(Bytes::from_vec(alloc, payload))
}
