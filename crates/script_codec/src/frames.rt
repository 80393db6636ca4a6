//! A script in a frame: the number of its bytes in four bytes, the lowest first, the script, and a text behind it.

ghost use Rattle.script_codec.specs.Frames.{needed, script_part, text_part};
ghost use Rattle.std.specs.Prelude.{◌≡◌, ◌≤◌, length};

use cci_codec::dcd_base::u32_at;

/// How many bytes a frame needs for its script.
pub fn need_of(input: &[u8]) -> u64
    ensures { result ≡ needed input.now }
{
    if input.len() < 4 {
        4
    } else {
        4 + u64::from(u32_at(input, 0))
    }
}

/// The script and the text of a frame.
pub fn parts_of(input: &[u8]) -> (&[u8], &[u8])
    requires { needed input.now ≤ length input.now }
    ensures script { result.0.now ≡ script_part input.now }
    ensures text { result.1.now ≡ text_part input.now }
{
    let count = u32_at(input, 0) as usize;
    let (_, rest) = input.split_at(4);
    rest.split_at(count)
}
