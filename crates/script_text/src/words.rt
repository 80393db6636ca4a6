//! Words of a line, printed one after another.

ghost use Rattle.std.specs.Prelude.{◌≡◌, ◌++◌, ◌^◌, ◌-◌, ◌<◌, ◌≤◌, [], ◌∷◌, OnOk};
ghost use Rattle.text_lines.specs.Actors.{host_text};
ghost use Rattle.text_lines.specs.Parts.{Form, Part, key};
ghost use Rattle.script_text.specs.LinePrinting.{AddsParts, StartsLine};
ghost use Rattle.text_lines.specs.Characters.{IsTextWord};
ghost use Rattle.text_lines.specs.Words.{spaced};

use dcd_base::{Bytes, NoMemory, Tag, is_no_tag};
use text_lines::{
    Keyword, law_decimal, law_size, law_sizes, law_tag, write_decimal, write_size, write_sizes,
    write_tag,
};

/// Appends a space and a word.
pub fn write_word(word: &[u8], out: &mut Bytes) -> Result<(), NoMemory>
    ensures { OnOk result (out.new ≡ out.old ++ spaced word.now) }
{
    out.push(b' ')?;
    out.extend_from_slice(word)
}

/// Begins a line with a fixed word.
pub fn begin_fixed(word: &[u8], out: &mut Bytes) -> Result<(), NoMemory>
    requires { IsTextWord word.now }
    ensures { OnOk result (StartsLine out.old out.new (Part.Fixed word.now)) }
{
    out.extend_from_slice(word)?;
    Ok(())
}

/// Appends a fixed word.
pub fn write_fixed(word: &[u8], out: &mut Bytes) -> Result<(), NoMemory>
    requires { IsTextWord word.now }
    ensures { OnOk result (AddsParts out.old out.new (Part.Fixed word.now ∷ [])) }
{
    write_word(word, out)?;
    Ok(())
}

/// Begins a line with a word of the grammar.
pub fn begin_with(keyword: Keyword, out: &mut Bytes) -> Result<(), NoMemory>
    ensures { OnOk result (StartsLine out.old out.new (key keyword)) }
{
    begin_fixed(keyword.text(), out)
}

/// Appends a word of the grammar.
pub fn write_key(keyword: Keyword, out: &mut Bytes) -> Result<(), NoMemory>
    ensures { OnOk result (AddsParts out.old out.new (key keyword ∷ [])) }
{
    write_fixed(keyword.text(), out)
}

/// Appends a count, an index, a handle, or the number of a region or a log.
pub fn write_count(most: u64, number: u64, out: &mut Bytes) -> Result<(), NoMemory>
    requires { number ≤ most }
    ensures { OnOk result (AddsParts out.old out.new (Part.Number Form.Count most number ∷ [])) }
{
    law_decimal(number);
    out.push(b' ')?;
    write_decimal(number, out)?;
    Ok(())
}

/// Appends an address, a length, a size or a word of memory.
pub fn write_number(number: u64, out: &mut Bytes) -> Result<(), NoMemory>
    ensures { OnOk result (AddsParts out.old out.new (Part.Number Form.Size (2 ^ 64 - 1) number ∷ [])) }
{
    law_size(number);
    out.push(b' ')?;
    write_size(number, out)?;
    Ok(())
}

/// Appends a keyword and a count behind it.
pub fn write_named_count(
    keyword: Keyword,
    most: u64,
    number: u64,
    out: &mut Bytes,
) -> Result<(), NoMemory>
    requires { number ≤ most }
    ensures { OnOk result (AddsParts out.old out.new (key keyword ∷ Part.Number Form.Count most number ∷ [])) }
{
    write_key(keyword, out)?;
    write_count(most, number, out)?;
    Ok(())
}

/// Appends a keyword and a size behind it.
pub fn write_named_number(keyword: Keyword, number: u64, out: &mut Bytes) -> Result<(), NoMemory>
    ensures { OnOk result (AddsParts out.old out.new (key keyword ∷ Part.Number Form.Size (2 ^ 64 - 1) number ∷ [])) }
{
    write_key(keyword, out)?;
    write_number(number, out)?;
    Ok(())
}

/// Appends a keyword and a count behind it, or nothing for 0.
pub fn write_may_count(
    keyword: Keyword,
    most: u64,
    number: u64,
    out: &mut Bytes,
) -> Result<(), NoMemory>
    requires { number ≤ most }
    ensures { OnOk result (AddsParts out.old out.new (Part.May keyword Form.Count most number ∷ [])) }
{
    if number == 0 {
        return Ok(());
    }
    write_named_count(keyword, most, number, out)?;
    Ok(())
}

/// Appends a keyword and a size behind it, or nothing for 0.
pub fn write_may_number(keyword: Keyword, number: u64, out: &mut Bytes) -> Result<(), NoMemory>
    ensures { OnOk result (AddsParts out.old out.new (Part.May keyword Form.Size (2 ^ 64 - 1) number ∷ [])) }
{
    if number == 0 {
        return Ok(());
    }
    write_named_number(keyword, number, out)?;
    Ok(())
}

/// Appends a keyword, or nothing.
pub fn write_flag(keyword: Keyword, set: bool, out: &mut Bytes) -> Result<(), NoMemory>
    ensures { OnOk result (AddsParts out.old out.new (Part.Flag keyword set ∷ [])) }
{
    if !set {
        return Ok(());
    }
    write_key(keyword, out)?;
    Ok(())
}

/// Appends a tag.
pub fn write_tag_word(tag: &Tag, out: &mut Bytes) -> Result<(), NoMemory>
    ensures { OnOk result (AddsParts out.old out.new (Part.TagOf tag.now ∷ [])) }
{
    law_tag(tag);
    out.push(b' ')?;
    write_tag(tag, out)?;
    Ok(())
}

/// Appends a keyword and a tag behind it, or nothing for none.
pub fn write_may_tag(tag: &Tag, out: &mut Bytes) -> Result<(), NoMemory>
    ensures { OnOk result (AddsParts out.old out.new (Part.MayTag tag.now ∷ [])) }
{
    if is_no_tag(tag) {
        return Ok(());
    }
    write_key(Keyword::Tag, out)?;
    write_tag_word(tag, out)?;
    Ok(())
}

/// Appends h and the number of a host.
pub fn write_h(host: u16, out: &mut Bytes) -> Result<(), NoMemory>
    ensures { OnOk result (out.new ≡ out.old ++ host_text host) }
{
    out.push(b'h')?;
    write_decimal(host as u64, out)
}

/// Appends a host that the manager speaks of.
pub fn write_host(host: u16, out: &mut Bytes) -> Result<(), NoMemory>
    ensures { OnOk result (AddsParts out.old out.new (Part.HostOf host ∷ [])) }
{
    law_decimal(host as u64);
    out.push(b' ')?;
    write_h(host, out)?;
    Ok(())
}

/// Appends block sizes, as a mask.
pub fn write_block_sizes(mask: u64, out: &mut Bytes) -> Result<(), NoMemory>
    requires { 0 < mask }
    ensures { OnOk result (AddsParts out.old out.new (Part.Sizes mask ∷ [])) }
{
    law_sizes(mask);
    out.push(b' ')?;
    write_sizes(mask, out)?;
    Ok(())
}

/// Ends a line whose first word was put, and then the others.
pub fn end_line(out: &mut Bytes) -> Result<(), NoMemory>
    ensures { OnOk result (out.new ≡ out.old ++ 10 ∷ []) }
{
    out.push(b'\n')
}
