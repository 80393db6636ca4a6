//! Which line of the script a line of a text claims to be of.

ghost use Rattle.edge_io.specs.Words.{number_in};
ghost use Rattle.journal_check.specs.Claims.{behind, claim_in, first_word};
ghost use Rattle.std.specs.Prelude.{◌≡◌, min};

use memchr::memchr;

/// A number above those of all lines, which stands for all such.
const TOO_HIGH: u32 = 65_537;

/// What stands behind the first byte of this value; nothing where there is none.
pub(crate) fn behind(mark: u8, bytes: &[u8]) -> &[u8]
    ensures { result.now ≡ behind mark bytes.now }
{
    match memchr(mark, bytes) {
        Some(at) => {
            let (_, rest) = bytes.split_at(at + 1);
            rest
        }
        None => {
            let (_, rest) = bytes.split_at(bytes.len());
            rest
        }
    }
}

/// The number that the first word writes, or 65,537 where it is higher.
fn number_at(bytes: &[u8]) -> u32
    ensures { result ≡ min 65537 (number_in (first_word bytes.now)) }
{
    let mut number = 0;
    for byte in bytes {
        if *byte == b' ' {
            return number;
        }
        number = TOO_HIGH.min(10 * number + u32::from(byte.saturating_sub(b'0')));
    }
    number
}

/// The number of the line that the first line of these claims to be of, or 65,537 where it is higher.
pub(crate) fn claim(bytes: &[u8]) -> u32
    ensures { result ≡ min 65537 (claim_in bytes.now) }
{
    number_at(behind(b' ', bytes))
}
