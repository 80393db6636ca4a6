//! The lines of a text, one after another.

ghost use Rattle.std.specs.Prelude.{◌≡◌, ◌+◌, ◌<◌, ◌≤◌, ◌∷◌, ◌^◌, [], IsTrue, length};
ghost use Rattle.text_lines.specs.Unread.{IsNextLine, ahead_from, ahead_with, all_of, is_done, next_line};
ghost use Rattle.text_lines.specs.Words.{without_return as cut_return, lines_in};

use crate::fronts::place_of;
use crate::words::Words;
use std::marker::Model;

/// What is still to come of a text: its lines that have words.
///
/// Contracts see those lines, and the number of the line behind the last one.
#[derive(Debug, Drop)]
pub struct TextLines<'a> {
    /// The number of the next line.
    line: u64,
    rest: &'a [u8],
}

impl<'a> Model for TextLines<'a> {
    ghost use Rattle.std.specs.Prelude.{◌+◌, ◌<◌, ◌^◌, length};
    ghost use Rattle.text_lines.specs.Unread.{Ahead, ahead_from};

    ghost Value = { Ahead };

    ghost view = { λ l. ahead_from l.line l.rest.now };

    ghost invariant = { λ l. l.line + length l.rest.now < 2 ^ 64 };
}

/// A line without the carriage return at its end.
pub fn without_return(line: &[u8]) -> &[u8]
    ensures value { result.now ≡ cut_return line.now }
    ensures within { length result.now ≤ length line.now }
{
    if line.is_empty() {
        return line;
    }
    if line[line.len() - 1] != b'\r' {
        return line;
    }
    let (front, _) = line.split_at(line.len() - 1);
    front
}

/// The first line of a text that has one, and what stands behind its line feed.
fn cut_line(text: &[u8]) -> (&[u8], &[u8])
    requires { 0 < length text.now }
    ensures lines { lines_in text.now ≡ result.0.now ∷ lines_in result.1.now }
    ensures within { length result.0.now + length result.1.now ≤ length text.now }
    ensures shorter { length result.1.now < length text.now }
{
    let (line, rest) = text.split_at(place_of(b'\n', text));
    if rest.is_empty() {
        return (line, rest);
    }
    let (_, rest) = rest.split_at(1);
    (line, rest)
}

/// The words of the first line that has any, or none, the number of the line behind it, and what stands there.
fn first_line(line: u64, text: &[u8]) -> (Words<'_>, u64, &[u8])
    requires { line + length text.now < 2 ^ 64 }
    ensures ahead { ahead_with result.0 (ahead_from result.1 result.2.now) ≡ ahead_from line text.now }
    ensures within { result.1 + length result.2.now < 2 ^ 64 }
    ensures done { IsTrue (is_done result.0) → result.2.now ≡ [] }
{
    let mut words = Words::of(line, b"".as_slice());
    let mut number = line;
    let mut rest = text;
    while words.is_done() && !rest.is_empty() {
        let (bytes, after) = cut_line(rest);
        words = Words::of(number, without_return(bytes));
        number += 1;
        rest = after;
    }
    (words, number, rest)
}

/// The number of the line behind the last one.
fn end_of(line: u64, text: &[u8]) -> u64
    requires { line + length text.now < 2 ^ 64 }
    ensures { result ≡ line + length (lines_in text.now) }
{
    let mut number = line;
    let mut rest = text;
    while !rest.is_empty() {
        let (_, after) = cut_line(rest);
        rest = after;
        number += 1;
    }
    number
}

impl<'a> TextLines<'a> {
    /// The lines of a text, numbered from 1.
    pub fn of(text: &'a [u8]) -> TextLines<'a>
        ensures { result ≡ all_of text.now }
    {
        TextLines {
            line: 1,
            rest: text,
        }
    }

    /// The next line that has words, or `None` behind the last one.
    pub fn next(&mut self) -> Option<Words<'a>>
        ensures { IsNextLine self.old self.new result }
    {
        let (words, line, rest) = first_line(self.line, self.rest);
        self.line = line;
        self.rest = rest;
        if words.is_done() {
            return None;
        }
        Some(words)
    }

    /// The next line that has words, which stays the next one, or `None` behind the last one.
    pub fn peek(&self) -> Option<Words<'a>>
        ensures { result ≡ next_line self.now }
    {
        let (words, _, _) = first_line(self.line, self.rest);
        if words.is_done() {
            return None;
        }
        Some(words)
    }

    /// The number of the line behind the last one, from 1.
    pub fn end(&self) -> u64
        ensures { result ≡ self.now.end }
    {
        end_of(self.line, self.rest)
    }
}
