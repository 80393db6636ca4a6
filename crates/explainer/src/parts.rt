//! Labels, numbers and lines.

ghost use Rattle.explainer.specs.PartWords.{bytes_words, label_where, labelled, labelled_size};
ghost use Rattle.std.specs.Prelude.{◌≡◌, ◌++◌, ◌∷◌, [], OnOk, codes};

use dcd_base::{Bytes, NoMemory};
use script_text::text_lines::{write_decimal, write_pairs, write_size};

/// Appends a label and a number behind it.
#[tactic(auto, unfolding(crate::specs::PartWords::labelled))]
pub fn write_labelled(label: &[u8], number: u64, out: &mut Bytes) -> Result<(), NoMemory>
    ensures { OnOk result (out.new ≡ out.old ++ labelled label.now number) }
{
    out.extend_from_slice(label)?;
    write_decimal(number, out)
}

/// Appends a label and an address, a length or a size behind it.
#[tactic(auto, unfolding(crate::specs::PartWords::labelled_size))]
pub fn write_labelled_size(label: &[u8], number: u64, out: &mut Bytes) -> Result<(), NoMemory>
    ensures { OnOk result (out.new ≡ out.old ++ labelled_size label.now number) }
{
    out.extend_from_slice(label)?;
    write_size(number, out)
}

/// Appends a label where it is to stand.
#[tactic(auto, unfolding(crate::specs::PartWords::label_where))]
pub(crate) fn write_label_where(set: bool, label: &[u8], out: &mut Bytes) -> Result<(), NoMemory>
    ensures { OnOk result (out.new ≡ out.old ++ label_where set label.now) }
{
    if set {
        out.extend_from_slice(label)
    } else {
        Ok(())
    }
}

/// Appends what stands before the words of a line.
pub(crate) fn begin_detail(out: &mut Bytes) -> Result<(), NoMemory>
    ensures { OnOk result (out.new ≡ out.old ++ codes "    ") }
{
    out.extend_from_slice(b"    ")
}

/// Ends a line.
pub(crate) fn end_detail(out: &mut Bytes) -> Result<(), NoMemory>
    ensures { OnOk result (out.new ≡ out.old ++ 10 ∷ []) }
{
    out.push(b'\n')
}

/// Appends bytes that have no words.
#[tactic(auto, unfolding(crate::specs::PartWords::bytes_words))]
pub(crate) fn write_bytes(bytes: &[u8], out: &mut Bytes) -> Result<(), NoMemory>
    ensures { OnOk result (out.new ≡ out.old ++ bytes_words bytes.now) }
{
    out.extend_from_slice(b"bytes")?;
    write_pairs(bytes, out)
}
