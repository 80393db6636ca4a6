//! How far characters of one kind go.

ghost use Rattle.std.specs.Prelude.{◌≡◌, ◌≤◌, length};
ghost use Rattle.text_lines.specs.Characters.{passed_from, is_gap as gap, is_other, is_plain as plain_one};

use crate::characters::{is_gap, is_plain};
use memchr::memchr;

/// How many spaces and tabs the bytes begin with.
pub fn gaps(bytes: &[u8]) -> usize
    ensures value { result ≡ passed_from gap 0 bytes.now }
    ensures within { result ≤ length bytes.now }
{
    for (i, b) in bytes.iter().enumerate() {
        if !is_gap(*b) {
            return i;
        }
    }
    bytes.len()
}

/// How many characters of a word the bytes begin with.
pub fn plain(bytes: &[u8]) -> usize
    ensures value { result ≡ passed_from plain_one 0 bytes.now }
    ensures within { result ≤ length bytes.now }
{
    for (i, b) in bytes.iter().enumerate() {
        if !is_plain(*b) {
            return i;
        }
    }
    bytes.len()
}

/// How many characters stand before the first that is this sign; all, where none is.
pub fn place_of(sign: u8, bytes: &[u8]) -> usize
    ensures value { result ≡ passed_from (is_other sign) 0 bytes.now }
    ensures within { result ≤ length bytes.now }
{
    match memchr(sign, bytes) {
        Some(place) => place,
        None => bytes.len(),
    }
}
