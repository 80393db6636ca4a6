//! The numbers that words of the command line write.

ghost use Rattle.edge_io.specs.Words.{is_digit, is_number, number_in, number_written};
ghost use Rattle.std.specs.List.{list_all};
ghost use Rattle.std.specs.Prelude.{◌≡◌, ◌≤◌, IsTrue, length};

/// The number that a word of 1 to `most` decimal digits writes, where `most` is 18 or less. All other words write none.
pub fn number(word: &[u8], most: usize) -> Option<u64>
    requires { most ≤ 18 }
    ensures { result ≡ number_written most word.now }
{
    if is_number(word, most) {
        Some(value(word))
    } else {
        None
    }
}

/// Whether they are 1 to `most` decimal digits.
fn is_number(word: &[u8], most: usize) -> bool
    ensures { result ≡ is_number most word.now }
{
    !word.is_empty() && word.len() <= most && are_digits(word)
}

/// Whether all are decimal digits.
fn are_digits(bytes: &[u8]) -> bool
    ensures { result ≡ list_all is_digit bytes.now }
{
    bytes.iter().all(|byte| is_digit(*byte))
}

/// Whether it is a decimal digit.
fn is_digit(byte: u8) -> bool
    ensures { result ≡ is_digit byte }
{
    b'0' <= byte && byte <= b'9'
}

/// The number that so few digits write.
fn value(digits: &[u8]) -> u64
    requires few { length digits.now ≤ 18 }
    requires each { IsTrue (list_all is_digit digits.now) }
    ensures { result ≡ number_in digits.now }
{
    let mut number = 0;
    for i in 0..digits.len() {
        number = 10 * number + u64::from(digits[i] - b'0');
    }
    number
}
