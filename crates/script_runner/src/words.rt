//! The words of the command line.

ghost use Rattle.edge_io.specs.Words.{words_of};
ghost use Rattle.script_runner.specs.ItemByItem.{behind_mode, behind_seed, choice_of, item_in_front, mode_in_front, mode_named, seed_in_front, without_mode};
ghost use Rattle.script_runner.specs.Words.{IsChoice};
ghost use Rattle.std.specs.Prelude.{◌≡◌, IfNone, IfSome, None, Some};

use edge_io::number;

/// How the lines of a script are run.
#[derive(Clone, Copy, Debug, PartialEq, Eq)]
pub enum Mode {
    /// One after another, by one thread.
    Serial,
    /// Those of each lane by a worker of its own.
    Threads,
}

/// What the words of the command line ask for.
#[derive(Clone, Copy, Debug, PartialEq, Eq)]
pub struct Choice {
    pub mode: Mode,
    /// The seed of the generated script, or none where the script is that of the source.
    pub seed: Option<u64>,
}

/// How many digits a seed may have.
const DIGITS: usize = 18;

/// What the words ask for: at most one mode item and at most one gen item, in either order. All else is refused, which is
/// `None`. A mode item is `--mode` and `serial` or `threads`, a gen item `--gen` and 1 to 18 decimal digits, each in two words
/// or in one with a `=` between.
#[tactic(auto, using(crate::proofs::WordItems::choice_found))]
pub fn chosen(words: &[String]) -> Option<Choice>
    ensures { IsChoice (words_of words.now) result }
{
    found_in(words)
}

/// What is found in the words, item by item.
fn found_in(words: &[String]) -> Option<Choice>
    ensures { result ≡ choice_of (words_of words.now) }
{
    match mode_in_front(words) {
        Some((mode, rest)) => behind_mode(mode, rest),
        None => without_mode(words),
    }
}

/// What is found behind a mode item.
fn behind_mode(mode: Mode, words: &[String]) -> Option<Choice>
    ensures { result ≡ behind_mode mode (words_of words.now) }
{
    if words.is_empty() {
        return Some(Choice { mode, seed: None });
    }
    match seed_in_front(words) {
        Some((seed, [])) => Some(Choice {
            mode,
            seed: Some(seed),
        }),
        _ => None,
    }
}

/// What is found in words that no mode item begins.
fn without_mode(words: &[String]) -> Option<Choice>
    ensures { result ≡ without_mode (words_of words.now) }
{
    if words.is_empty() {
        return Some(Choice {
            mode: Mode::Threads,
            seed: None,
        });
    }
    match seed_in_front(words) {
        Some((seed, rest)) => behind_seed(seed, rest),
        None => None,
    }
}

/// What is found behind a gen item that is the first.
fn behind_seed(seed: u64, words: &[String]) -> Option<Choice>
    ensures { result ≡ behind_seed seed (words_of words.now) }
{
    if words.is_empty() {
        return Some(Choice {
            mode: Mode::Threads,
            seed: Some(seed),
        });
    }
    match mode_in_front(words) {
        Some((mode, [])) => Some(Choice {
            mode,
            seed: Some(seed),
        }),
        _ => None,
    }
}

/// The mode of the mode item that the words begin with, and the words behind it.
fn mode_in_front(words: &[String]) -> Option<(Mode, &[String])>
    ensures none { IfNone result (mode_in_front (words_of words.now) ≡ None) }
    ensures found { IfSome result (λ found. mode_in_front (words_of words.now) ≡ Some (found.0, words_of found.1.now)) }
{
    match item_in_front(b"--mode", b"--mode=", words) {
        Some((name, rest)) => match mode_named(name) {
            Some(mode) => Some((mode, rest)),
            None => None,
        },
        None => None,
    }
}

/// The seed of the gen item that the words begin with, and the words behind it.
fn seed_in_front(words: &[String]) -> Option<(u64, &[String])>
    ensures none { IfNone result (seed_in_front (words_of words.now) ≡ None) }
    ensures found { IfSome result (λ found. seed_in_front (words_of words.now) ≡ Some (found.0, words_of found.1.now)) }
{
    match item_in_front(b"--gen", b"--gen=", words) {
        Some((digits, rest)) => match number(digits, DIGITS) {
            Some(seed) => Some((seed, rest)),
            None => None,
        },
        None => None,
    }
}

/// The value of the item of this name that the words begin with, and the words behind it. The value is a word of its own,
/// or stands behind the name and a `=`, which is the joined name.
fn item_in_front<'a>(
    name: &[u8],
    joined: &[u8],
    words: &'a [String],
) -> Option<(&'a [u8], &'a [String])>
    ensures none { IfNone result (item_in_front name.now joined.now (words_of words.now) ≡ None) }
    ensures found { IfSome result (λ found. item_in_front name.now joined.now (words_of words.now) ≡ Some (found.0.now, words_of found.1.now)) }
{
    match words {
        [word, value, rest @ ..] if word.as_bytes() == name => Some((value.as_bytes(), rest)),
        [word, rest @ ..] => match word.as_bytes().strip_prefix(joined) {
            Some(value) => Some((value, rest)),
            None => None,
        },
        [] => None,
    }
}

/// The mode of this name.
fn mode_named(name: &[u8]) -> Option<Mode>
    ensures { result ≡ mode_named name.now }
{
    if name == b"serial".as_slice() {
        Some(Mode::Serial)
    } else if name == b"threads".as_slice() {
        Some(Mode::Threads)
    } else {
        None
    }
}
