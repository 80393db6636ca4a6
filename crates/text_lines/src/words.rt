//! The words of a line, one after another.

ghost use Rattle.std.specs.Prelude.{◌≡◌, ◌+◌, ◌<◌, ◌≤◌, ◌^◌, [], length};
ghost use Rattle.text_lines.specs.Unread.{behind_next, is_done, first_unread};
ghost use Rattle.text_lines.specs.Words.{ahead, words_in};

use crate::fronts::{gaps, plain};
use std::marker::Model;

/// What is still to come of a line: its words up to a comment, of which the next one is at hand.
///
/// Contracts see the number of the line, that of the next word, and the words.
#[derive(Debug, Drop)]
pub struct Words<'a> {
    line: u64,
    word: u64,
    /// The next word; empty where none comes any more.
    next: &'a [u8],
    /// What stands behind it.
    rest: &'a [u8],
}

impl<'a> Model for Words<'a> {
    ghost use Rattle.std.specs.Prelude.{◌≡◌, ◌+◌, ◌<◌, ◌^◌, [], length};
    ghost use Rattle.text_lines.specs.Unread.{UnreadWords};
    ghost use Rattle.text_lines.specs.Words.{ahead, words_in};

    ghost Value = { UnreadWords };

    ghost view = { λ w. record { line = w.line; word = w.word; words = ahead w.next.now (words_in w.rest.now) } };

    ghost invariant = { λ w. (w.word + length w.next.now + length w.rest.now < 2 ^ 64) × (w.next.now ≡ [] → words_in w.rest.now ≡ []) };
}

/// The first word of the bytes, or nothing where they have none, and what stands behind it.
fn cut_word(bytes: &[u8]) -> (&[u8], &[u8])
    ensures words { ahead result.0.now (words_in result.1.now) ≡ words_in bytes.now }
    ensures last { result.0.now ≡ [] → words_in result.1.now ≡ [] }
    ensures within { length result.0.now + length result.1.now ≤ length bytes.now }
{
    let (_, bytes) = bytes.split_at(gaps(bytes));
    bytes.split_at(plain(bytes))
}

impl<'a> Words<'a> {
    /// The words of a line of this number.
    pub fn of(line: u64, bytes: &'a [u8]) -> Words<'a>
        ensures { result ≡ record { line = line; word = 1; words = words_in bytes.now } }
    {
        let (next, rest) = cut_word(bytes);
        Words {
            line,
            word: 1,
            next,
            rest,
        }
    }

    /// The number of the line, from 1.
    pub fn line(&self) -> u64
        ensures { result ≡ self.now.line }
    {
        self.line
    }

    /// The number of the next word, from 1; where none comes any more, that of the word that would.
    pub fn word(&self) -> u64
        ensures { result ≡ self.now.word }
    {
        self.word
    }

    /// The next word; empty where none comes any more.
    pub fn next(&self) -> &'a [u8]
        ensures { result.now ≡ first_unread self.now }
    {
        self.next
    }

    /// Whether no word comes any more.
    pub fn is_done(&self) -> bool
        ensures { result ≡ is_done self.now }
    {
        self.next.is_empty()
    }

    /// Goes on to the word behind the next one.
    pub fn advance(&mut self)
        ensures { self.new ≡ behind_next self.old }
    {
        if !self.next.is_empty() {
            let (next, rest) = cut_word(self.rest);
            self.next = next;
            self.rest = rest;
            self.word += 1;
        }
    }
}
