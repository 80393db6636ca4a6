//! Regions, block sizes and counts in words.

ghost use Rattle.dcd_base.specs.Layouts.{number_at};
ghost use Rattle.explainer.specs.PartWords.{counts_words, decode_bytes, labelled_size, region_flags, region_ranges, region_words, sizes_words};
ghost use Rattle.std.specs.Int.{w64};
ghost use Rattle.std.specs.Prelude.{◌≡◌, ◌+◌, ◌≤◌, ◌++◌, OnOk, codes, length};
ghost use Rattle.script_text.specs.text_lines.specs.Sizes.{sizes_text};

use crate::fields::{write_size_at, write_u32};
use crate::parts::{write_label_where, write_labelled_size};
use dcd_base::{Bytes, NoMemory, flag_at, u64_at};
use script_text::text_lines::write_sizes;

/// The most times 256 MiB that 64 bits have room for.
const MOST_UNITS: u64 = 0xF_FFFF_FFFF;

/// How far the addresses of a region reach, in bytes.
fn decode_bytes(units: u64) -> u64
    ensures { result ≡ decode_bytes units }
{
    units.min(MOST_UNITS) * 0x1000_0000
}

/// Appends how far the addresses of a region reach.
fn write_decode(bytes: &[u8], out: &mut Bytes) -> Result<(), NoMemory>
    requires { 40 ≤ length bytes.now }
    ensures { OnOk result (out.new ≡ out.old ++ labelled_size (codes " decode ") (decode_bytes (number_at w64 bytes.now 8))) }
{
    write_labelled_size(b" decode ", decode_bytes(u64_at(bytes, 8)), out)
}

/// Appends the base of a region, its length, its block size and how far its addresses reach.
#[tactic(auto, unfolding(crate::specs::PartWords::region_ranges))]
fn write_region_ranges(bytes: &[u8], out: &mut Bytes) -> Result<(), NoMemory>
    requires { 40 ≤ length bytes.now }
    ensures { OnOk result (out.new ≡ out.old ++ region_ranges bytes.now) }
{
    write_size_at(b"region base ", bytes, 0, out)?;
    write_size_at(b" length ", bytes, 16, out)?;
    write_size_at(b" block ", bytes, 24, out)?;
    write_decode(bytes, out)
}

/// Appends the handle of a region and its flags.
#[tactic(auto, unfolding(crate::specs::PartWords::region_flags))]
fn write_region_flags(bytes: &[u8], out: &mut Bytes) -> Result<(), NoMemory>
    requires { 40 ≤ length bytes.now }
    ensures { OnOk result (out.new ≡ out.old ++ region_flags bytes.now) }
{
    write_u32(b" handle ", bytes, 32, out)?;
    write_label_where(flag_at(bytes, 36), b" sanitize", out)?;
    write_label_where(bytes[36] & 2 == 2, b" shareable", out)
}

/// Appends the forty bytes of a region.
pub(crate) fn write_region(bytes: &[u8], out: &mut Bytes) -> Result<(), NoMemory>
    requires { 40 ≤ length bytes.now }
    ensures { OnOk result (out.new ≡ out.old ++ region_words bytes.now) }
{
    write_region_ranges(bytes, out)?;
    write_region_flags(bytes, out)
}

/// Appends the sixteen bytes of what a host may have.
#[tactic(auto, unfolding(crate::specs::PartWords::counts_words))]
pub(crate) fn write_counts(bytes: &[u8], out: &mut Bytes) -> Result<(), NoMemory>
    requires { 16 ≤ length bytes.now }
    ensures { OnOk result (out.new ≡ out.old ++ counts_words bytes.now) }
{
    write_u32(b"extents at most ", bytes, 0, out)?;
    write_u32(b", room for ", bytes, 4, out)?;
    write_u32(b"; tags at most ", bytes, 8, out)?;
    write_u32(b", room for ", bytes, 12, out)
}

/// Appends the block sizes that eight bytes at a place are.
fn write_sizes_at(bytes: &[u8], at: usize, out: &mut Bytes) -> Result<(), NoMemory>
    requires { at + 8 ≤ length bytes.now }
    ensures { OnOk result (out.new ≡ out.old ++ sizes_text (number_at w64 bytes.now at)) }
{
    write_sizes(u64_at(bytes, at), out)
}

/// Appends the eight bytes of block sizes.
#[tactic(auto, unfolding(crate::specs::PartWords::sizes_words))]
pub(crate) fn write_block_sizes(bytes: &[u8], out: &mut Bytes) -> Result<(), NoMemory>
    requires { 8 ≤ length bytes.now }
    ensures { OnOk result (out.new ≡ out.old ++ sizes_words bytes.now) }
{
    out.extend_from_slice(b"region with block sizes ")?;
    write_sizes_at(bytes, 0, out)
}
