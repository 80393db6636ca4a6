//! What is printed is read back, and is one word.

ghost use Rattle.std.specs.Prelude.{◌≡◌, ◌<◌, [], ◌∷◌, Some, decimal, length};
ghost use Rattle.text_lines.specs.Characters.{IsNumberWord, IsTextWord};
ghost use Rattle.text_lines.specs.Extents.{extent_said, extent_text, untagged};
ghost use Rattle.text_lines.specs.Numbers.{digits_said, hexadecimal, number_said, size_text};
ghost use Rattle.text_lines.specs.Pairs.{pair_text, pairs_said, tag_said, tag_text};
ghost use Rattle.text_lines.specs.Sizes.{sizes_said, sizes_text};

use dcd_base::{Extent, Tag, are_bytes};

/// The decimal digits of a number say it.
pub fn law_decimal(number: u64)
    ensures reads { number_said (decimal number) ≡ Some number }
    ensures digits { digits_said 10 (decimal number) ≡ Some number }
    ensures word { IsNumberWord (decimal number) }
{}

/// 0x and the hexadecimal digits of a number say it.
pub fn law_hexadecimal(number: u64)
    ensures reads { number_said (hexadecimal number) ≡ Some number }
    ensures word { IsNumberWord (hexadecimal number) }
{}

/// An address, a length, a size or a word of memory is said by what is printed of it.
pub fn law_size(number: u64)
    ensures reads { number_said (size_text number) ≡ Some number }
    ensures word { IsNumberWord (size_text number) }
{}

/// An extent is said by what is printed of it, but for its tag and its place in a shared allocation.
pub fn law_extent(extent: &Extent)
    ensures reads { extent_said (extent_text extent.now) ≡ Some (untagged extent.now.start extent.now.length) }
    ensures word { IsTextWord (extent_text extent.now) }
{
    let _start = extent.start;
    let _length = extent.length;
}

/// A byte is said by its two digits.
pub fn law_pair(byte: u8)
    ensures reads { pairs_said (pair_text byte) ≡ Some (byte ∷ []) }
    ensures word { IsTextWord (pair_text byte) }
{}

/// The bytes of a tag are 16.
fn sixteen(bytes: &[u8; 16])
    ensures { length bytes.now ≡ 16 }
{}

/// A tag is said by its 32 digits.
pub fn law_tag(tag: &Tag)
    ensures reads { tag_said (tag_text tag.now) ≡ Some tag.now }
    ensures word { IsTextWord (tag_text tag.now) }
{
    sixteen(&tag.0);
    are_bytes(tag.0.as_slice());
}

/// Block sizes are said by what is printed of them.
pub fn law_sizes(mask: u64)
    requires { 0 < mask }
    ensures reads { sizes_said (sizes_text mask) ≡ Some mask }
    ensures word { IsTextWord (sizes_text mask) }
{}
