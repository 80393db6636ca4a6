//! The items of replies in words, and what stands behind them.

ghost use Rattle.explainer.specs.PartWords.{detail, counts_words, extent_in, extent_words};
ghost use Rattle.explainer.specs.ReplyKinds.{item_length, tail_length};
ghost use Rattle.explainer.specs.ReplyWords.{item_line, item_lines, item_words, tail_lines};
ghost use Rattle.std.specs.Prelude.{◌≡◌, ◌*◌, ◌≤◌, ◌++◌, OnOk, length};

use crate::extents::{extent_at, write_extent_words};
use crate::kinds::{ReplyKind, item_length};
use crate::parts::{begin_detail, end_detail};
use crate::records::write_record;
use crate::regions::{write_block_sizes, write_counts, write_region};
use crate::tags::write_live_tag;
use dcd_base::{Bytes, NoMemory};

/// Appends the extent that forty bytes are.
fn write_extent_item(item: &[u8], out: &mut Bytes) -> Result<(), NoMemory>
    requires { 40 ≤ length item.now }
    ensures { OnOk result (out.new ≡ out.old ++ extent_words (extent_in item.now 0)) }
{
    write_extent_words(&extent_at(item, 0), out)
}

/// Appends an item.
fn write_item(kind: ReplyKind, item: &[u8], out: &mut Bytes) -> Result<(), NoMemory>
    requires { length item.now ≡ item_length kind }
    ensures { OnOk result (out.new ≡ out.old ++ item_words kind item.now) }
{
    match kind {
        ReplyKind::Records => write_record(item, out),
        ReplyKind::Regions | ReplyKind::HostRegions => write_region(item, out),
        ReplyKind::Extents | ReplyKind::HostExtents => write_extent_item(item, out),
        ReplyKind::Info => write_block_sizes(item, out),
        ReplyKind::Tags => write_live_tag(item, out),
    }
}

/// Appends the line of an item.
#[tactic(auto, unfolding(crate::specs::ReplyWords::item_line))]
fn write_item_line(kind: ReplyKind, item: &[u8], out: &mut Bytes) -> Result<(), NoMemory>
    requires { length item.now ≡ item_length kind }
    ensures { OnOk result (out.new ≡ out.old ++ item_line kind item.now) }
{
    begin_detail(out)?;
    write_item(kind, item, out)?;
    end_detail(out)
}

/// Appends a line for each of so many items.
#[tactic(auto, unfolding(crate::specs::ReplyWords::item_lines))]
pub(crate) fn write_items(
    kind: ReplyKind,
    count: usize,
    items: &[u8],
    out: &mut Bytes,
) -> Result<(), NoMemory>
    requires { item_length kind * count ≤ length items.now }
    ensures { OnOk result (out.new ≡ out.old ++ item_lines kind count items.now) }
{
    let size = item_length(kind);
    let mut rest = items;
    for _ in 0..count {
        let (item, behind) = rest.split_at(size);
        write_item_line(kind, item, out)?;
        rest = behind;
    }
    Ok(())
}

/// Appends the line of what a host may have.
fn write_counts_line(tail: &[u8], out: &mut Bytes) -> Result<(), NoMemory>
    requires { 16 ≤ length tail.now }
    ensures { OnOk result (out.new ≡ out.old ++ detail (counts_words tail.now)) }
{
    begin_detail(out)?;
    write_counts(tail, out)?;
    end_detail(out)
}

/// Appends what stands behind the items.
pub(crate) fn write_tail(kind: ReplyKind, tail: &[u8], out: &mut Bytes) -> Result<(), NoMemory>
    requires { tail_length kind ≤ length tail.now }
    ensures { OnOk result (out.new ≡ out.old ++ tail_lines kind tail.now) }
{
    match kind {
        ReplyKind::Regions | ReplyKind::HostRegions => write_counts_line(tail, out),
        _ => Ok(()),
    }
}
