//! Lists of a line, printed word by word.

ghost use Rattle.host_payloads.specs.HostPayloads.{is_untagged};
ghost use Rattle.std.specs.List.{list_all};
ghost use Rattle.std.specs.Prelude.{◌<◌, ◌≤◌, [], ◌∷◌, IsTrue, OnOk, decimal, length};
ghost use Rattle.text_lines.specs.Parts.{Part, SaysExtent, SaysNumber};
ghost use Rattle.script_text.specs.LinePrinting.{AddsItems, AddsParts};
ghost use Rattle.text_lines.specs.Extents.{extent_text};

use crate::words::write_key;
use dcd_base::{Bytes, Extent, NoMemory, are_bytes, fits_64};
use text_lines::{Keyword, law_decimal, law_extent, write_decimal, write_extent, write_pairs};

/// Appends a handle.
fn write_handle(handle: u16, out: &mut Bytes) -> Result<(), NoMemory>
    ensures { OnOk result (AddsItems (SaysNumber 65535) decimal (handle ∷ []) out.old out.new) }
{
    let number = handle as u64;
    law_decimal(number);
    out.push(b' ')?;
    write_decimal(number, out)?;
    Ok(())
}

/// Appends handles.
fn write_all_handles(handles: &[u16], out: &mut Bytes) -> Result<(), NoMemory>
    ensures { OnOk result (AddsItems (SaysNumber 65535) decimal handles.now out.old out.new) }
{
    for handle in handles {
        write_handle(*handle, out)?;
    }
    Ok(())
}

/// Appends handles behind their keyword, or nothing for none.
pub fn write_handles(handles: &[u16], out: &mut Bytes) -> Result<(), NoMemory>
    requires { length handles.now ≤ 255 }
    ensures { OnOk result (AddsParts out.old out.new (Part.Handles handles.now ∷ [])) }
{
    if handles.len() == 0 {
        return Ok(());
    }
    write_key(Keyword::Handles, out)?;
    write_all_handles(handles, out)?;
    Ok(())
}

/// Appends an extent without a tag.
fn write_extent_word(extent: &Extent, out: &mut Bytes) -> Result<(), NoMemory>
    requires { IsTrue (is_untagged extent.now) }
    ensures { OnOk result (AddsItems SaysExtent extent_text (extent.now ∷ []) out.old out.new) }
{
    fits_64(extent.start);
    fits_64(extent.length);
    law_extent(extent);
    out.push(b' ')?;
    write_extent(extent, out)?;
    Ok(())
}

/// Appends extents without tags.
fn write_all_extents(extents: &[Extent], out: &mut Bytes) -> Result<(), NoMemory>
    requires { IsTrue (list_all is_untagged extents.now) }
    ensures { OnOk result (AddsItems SaysExtent extent_text extents.now out.old out.new) }
{
    for extent in extents {
        write_extent_word(extent, out)?;
    }
    Ok(())
}

/// Appends extents without tags, at most so many.
pub fn write_extents(most: u32, extents: &[Extent], out: &mut Bytes) -> Result<(), NoMemory>
    requires few { length extents.now ≤ most }
    requires untagged { IsTrue (list_all is_untagged extents.now) }
    ensures { OnOk result (AddsParts out.old out.new (Part.Extents most extents.now ∷ [])) }
{
    write_all_extents(extents, out)?;
    Ok(())
}

/// Appends the bytes of a message.
pub fn write_bytes(bytes: &[u8], out: &mut Bytes) -> Result<(), NoMemory>
    requires some { 0 < length bytes.now }
    requires short { length bytes.now ≤ 65535 }
    ensures { OnOk result (AddsParts out.old out.new (Part.Pairs bytes.now ∷ [])) }
{
    are_bytes(bytes);
    write_pairs(bytes, out)?;
    Ok(())
}
