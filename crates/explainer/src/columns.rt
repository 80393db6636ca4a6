//! Where a word of a text stands.

ghost use Rattle.std.specs.Prelude.{◌≡◌, ◌-◌, ◌≤◌, length};
ghost use Rattle.explainer.specs.Columns.{after_word, column_of, from_word, line_said, lines_later, word_onward};
ghost use Rattle.script_text.specs.text_lines.specs.Characters.{passed_from, is_gap as gap, is_plain as plain_byte};
ghost use Rattle.script_text.specs.text_lines.specs.Extents.{after, before};
ghost use Rattle.script_text.specs.text_lines.specs.Words.{without_return as cut_return};

use script_text::text_lines::place_of;

/// A place of a text: its line and its column, both from 1, columns in bytes.
#[derive(Clone, Copy, Debug, PartialEq, Eq)]
pub struct Place {
    pub line: u64,
    pub column: u64,
}

/// A space or a tab.
fn is_gap(byte: u8) -> bool
    ensures { result ≡ gap byte }
{
    byte == b' ' || byte == b'\t'
}

/// What stands in a word.
fn is_plain(byte: u8) -> bool
    ensures { result ≡ plain_byte byte }
{
    byte != b' ' && byte != b'\t' && byte != b'#'
}

/// How many spaces and tabs the bytes begin with.
fn gaps(bytes: &[u8]) -> usize
    ensures value { result ≡ passed_from gap 0 bytes.now }
    ensures within { result ≤ length bytes.now }
{
    for (i, b) in bytes.iter().enumerate() {
        if !is_gap(*b) {
            return i;
        }
    }
    bytes.len()
}

/// How many characters of a word the bytes begin with.
fn plain(bytes: &[u8]) -> usize
    ensures value { result ≡ passed_from plain_byte 0 bytes.now }
    ensures within { result ≤ length bytes.now }
{
    for (i, b) in bytes.iter().enumerate() {
        if !is_plain(*b) {
            return i;
        }
    }
    bytes.len()
}

/// From the next word on.
fn to_word(bytes: &[u8]) -> &[u8]
    ensures value { result.now ≡ from_word bytes.now }
    ensures within { length result.now ≤ length bytes.now }
{
    let (_, rest) = bytes.split_at(gaps(bytes));
    rest
}

/// Behind the word that begins here.
fn past_word(bytes: &[u8]) -> &[u8]
    ensures value { result.now ≡ after_word bytes.now }
    ensures within { length result.now ≤ length bytes.now }
{
    let (_, rest) = bytes.split_at(plain(bytes));
    to_word(rest)
}

/// The line from the word of this number on.
#[tactic(auto, using(crate::proofs::Later::words_step))]
fn onward(word: u64, line: &[u8]) -> &[u8]
    ensures value { result.now ≡ word_onward word line.now }
    ensures within { length result.now ≤ length line.now }
{
    let mut rest = to_word(line);
    let mut before = word.saturating_sub(1);
    while before > 0 {
        rest = past_word(rest);
        before -= 1;
    }
    rest
}

/// Behind the first line feed; nothing where there is none.
fn past_line(text: &[u8]) -> &[u8]
    ensures { result.now ≡ after 10 text.now }
{
    let place = place_of(b'\n', text);
    let (_, rest) = text.split_at(place);
    if rest.is_empty() {
        return rest;
    }
    let (_, rest) = rest.split_at(1);
    rest
}

/// The text from the line of this number on.
#[tactic(auto, using(crate::proofs::Later::lines_step))]
fn from_line(line: u64, text: &[u8]) -> &[u8]
    ensures { result.now ≡ lines_later (line - 1) text.now }
{
    let mut rest = text;
    let mut before = line.saturating_sub(1);
    while before > 0 {
        rest = past_line(rest);
        before -= 1;
    }
    rest
}

/// A line without the carriage return at its end.
fn without_return(line: &[u8]) -> &[u8]
    ensures { result.now ≡ cut_return line.now }
{
    if line.is_empty() {
        return line;
    }
    if line[line.len() - 1] != b'\r' {
        return line;
    }
    let (front, _) = line.split_at(line.len() - 1);
    front
}

/// The line of this number, without its end.
fn line_of(line: u64, text: &[u8]) -> &[u8]
    ensures { result.now ≡ line_said line text.now }
{
    let rest = from_line(line, text);
    let (bytes, _) = rest.split_at(place_of(b'\n', rest));
    without_return(bytes)
}

/// The place of the word of this number in the line of this number, each from 1.
#[tactic(auto, unfolding(crate::specs::Columns::column_of))]
pub(crate) fn place_in(line: u64, word: u64, text: &[u8]) -> Place
    ensures line { result.line ≡ line }
    ensures column { result.column ≡ column_of line word text.now }
{
    let bytes = line_of(line, text);
    let rest = onward(word, bytes);
    let column = (bytes.len() - rest.len()) as u64 + 1;
    Place { line, column }
}
