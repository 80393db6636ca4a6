//! Event records in words.

ghost use Rattle.event_records.specs.Records.{record_fault};
ghost use Rattle.explainer.specs.RecordWords.{is_update, kind_words, matter_where, record_end, record_extent, record_matter, record_start, record_words};
ghost use Rattle.std.specs.Option.{is_none};
ghost use Rattle.std.specs.Prelude.{◌≡◌, ◌≤◌, ◌++◌, OnOk, length};

use crate::extents::{extent_at, write_extent_words};
use crate::fields::{write_u8, write_u16, write_u32};
use crate::parts::{write_bytes, write_label_where};
use dcd_base::{Bytes, NoMemory, flag_at};
use event_records::decode;

/// The number of the kind of a record that tells an update of a region.
const UPDATED: u8 = 3;

/// The name of a kind in the specification, by its number up to 5.
#[tactic(auto, unfolding(crate::specs::RecordWords::kind_words))]
fn kind_words(number: u8) -> &'static [u8]
    ensures { result.now ≡ kind_words number }
{
    match number {
        0 => b"Add Capacity".as_slice(),
        1 => b"Release Capacity".as_slice(),
        2 => b"Forced Capacity Release".as_slice(),
        3 => b"Region Configuration Updated".as_slice(),
        4 => b"Add Capacity Response".as_slice(),
        _ => b"Capacity Released".as_slice(),
    }
}

/// Appends the handle, the kind and the host of a record.
#[tactic(auto, unfolding(crate::specs::RecordWords::record_start))]
fn write_start(bytes: &[u8], out: &mut Bytes) -> Result<(), NoMemory>
    requires { 128 ≤ length bytes.now }
    ensures { OnOk result (out.new ≡ out.old ++ record_start bytes.now) }
{
    write_u16(b"record ", bytes, 20, out)?;
    out.extend_from_slice(b": ")?;
    out.extend_from_slice(kind_words(bytes[48]))?;
    write_u16(b", host ", bytes, 50, out)
}

/// Whether a record tells an update of a region.
fn is_update(bytes: &[u8]) -> bool
    requires { 128 ≤ length bytes.now }
    ensures { result ≡ is_update bytes.now }
{
    bytes[48] == UPDATED
}

/// Appends the extent of a record.
#[tactic(auto, unfolding(crate::specs::RecordWords::record_extent))]
fn write_extent_of(bytes: &[u8], out: &mut Bytes) -> Result<(), NoMemory>
    requires { 128 ≤ length bytes.now }
    ensures { OnOk result (out.new ≡ out.old ++ record_extent bytes.now) }
{
    let extent = extent_at(bytes, 56);
    out.extend_from_slice(b", ")?;
    write_extent_words(&extent, out)
}

/// Appends the region that a record is about, or the extent.
fn write_matter_where(update: bool, bytes: &[u8], out: &mut Bytes) -> Result<(), NoMemory>
    requires { 128 ≤ length bytes.now }
    ensures { OnOk result (out.new ≡ out.old ++ matter_where update bytes.now) }
{
    if update {
        write_u8(b", region ", bytes, 52, out)
    } else {
        write_extent_of(bytes, out)
    }
}

/// Appends what a record is about.
fn write_matter(bytes: &[u8], out: &mut Bytes) -> Result<(), NoMemory>
    requires { 128 ≤ length bytes.now }
    ensures { OnOk result (out.new ≡ out.old ++ record_matter bytes.now) }
{
    write_matter_where(is_update(bytes), bytes, out)
}

/// Appends whether more records of the same command follow, and what the host may still have.
#[tactic(auto, unfolding(crate::specs::RecordWords::record_end))]
fn write_end(bytes: &[u8], out: &mut Bytes) -> Result<(), NoMemory>
    requires { 128 ≤ length bytes.now }
    ensures { OnOk result (out.new ≡ out.old ++ record_end bytes.now) }
{
    write_label_where(flag_at(bytes, 53), b", more", out)?;
    write_u32(b"; room for ", bytes, 120, out)?;
    write_u32(b" extents, ", bytes, 124, out)?;
    out.extend_from_slice(b" tags")
}

/// Whether 128 bytes are a record.
fn is_record(bytes: &[u8]) -> bool
    requires { length bytes.now ≡ 128 }
    ensures { result ≡ is_none (record_fault bytes.now) }
{
    let mut record = [0; 128];
    record.copy_from_slice(bytes);
    match decode(&record) {
        Ok(_) => true,
        Err(_) => false,
    }
}

/// Appends a record.
fn write_event(bytes: &[u8], out: &mut Bytes) -> Result<(), NoMemory>
    requires { 128 ≤ length bytes.now }
    ensures { OnOk result (out.new ≡ out.old ++ (record_start bytes.now ++ record_matter bytes.now ++ record_end bytes.now)) }
{
    write_start(bytes, out)?;
    write_matter(bytes, out)?;
    write_end(bytes, out)
}

/// Appends the 128 bytes of an event record in words: its handle, its kind, its host, the extent or the region that it is
/// about, and how many extents and tags the host may still have. Bytes that are no record are shown as they are.
#[tactic(auto, unfolding(crate::specs::RecordWords::record_words))]
pub fn write_record(bytes: &[u8], out: &mut Bytes) -> Result<(), NoMemory>
    requires { length bytes.now ≡ 128 }
    ensures { OnOk result (out.new ≡ out.old ++ record_words bytes.now) }
{
    if is_record(bytes) {
        write_event(bytes, out)
    } else {
        write_bytes(bytes, out)
    }
}
