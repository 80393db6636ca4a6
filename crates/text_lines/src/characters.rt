//! What a character of a text is.

ghost use Rattle.std.specs.Prelude.{◌≡◌, ◌<◌, ◌≤◌, IfSome};
ghost use Rattle.text_lines.specs.Characters.{digit_in as digit_of_base, digit_value as value_of_digit, is_gap as gap, is_plain as plain, unit_of as unit};

/// A space or a tab.
pub fn is_gap(b: u8) -> bool
    ensures { result ≡ gap b }
{
    b == b' ' || b == b'\t'
}

/// What stands in a word: no space, no tab, and no number sign.
pub fn is_plain(b: u8) -> bool
    ensures { result ≡ plain b }
{
    b != b' ' && b != b'\t' && b != b'#'
}

/// The value of a digit; letters are in lower case.
fn digit_value(c: u8) -> Option<u8>
    ensures { result ≡ value_of_digit c }
{
    match c {
        b'0'..=b'9' => Some(c - b'0'),
        b'a'..=b'f' => Some(c - b'a' + 10),
        _ => None,
    }
}

/// The value of a digit of the base, which is at most 16.
pub fn digit_in(base: u8, c: u8) -> Option<u8>
    ensures value { result ≡ digit_of_base base c }
    ensures small { IfSome result (λ digit. digit < base) }
{
    match digit_value(c) {
        Some(digit) if digit < base => Some(digit),
        _ => None,
    }
}

/// What a suffix multiplies by: K, M, G, T or P.
pub fn unit_of(c: u8) -> Option<u64>
    ensures value { result ≡ unit c }
    ensures small { IfSome result (λ unit. unit ≤ 1125899906842624) }
    ensures some { IfSome result (λ unit. 0 < unit) }
{
    match c {
        b'K' => Some(1 << 10),
        b'M' => Some(1 << 20),
        b'G' => Some(1 << 30),
        b'T' => Some(1 << 40),
        b'P' => Some(1 << 50),
        _ => None,
    }
}
