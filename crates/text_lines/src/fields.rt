//! The words of a line, read one after another.

ghost use Rattle.host_payloads.specs.HostPayloads.{is_untagged};
ghost use Rattle.std.specs.Prelude.{◌≡◌, ◌≤◌, IfOk, IsTrue};
ghost use Rattle.text_lines.specs.Fields.{GivesWords, begins as begins_with, end_ahead, extent_of_word as extent_said, flag_ahead, keyword_ahead, may_ahead, may_tag_ahead, named_ahead, number_ahead, number_of_word as number_said, one_word as one_word_in, refused as refused_at, tag_ahead, tag_or};

use crate::faults::{Cause, TextFault, Wanted};
use crate::keywords::Keyword;
use crate::{NumberFault, Words, extent_of, number_of, tag_of};
use dcd_base::{Extent, Tag, no_tag};
use std::alloc::Global;

/// What is wrong with the next word.
pub fn refused(words: &Words<'_>, cause: Cause) -> TextFault
    ensures { result ≡ refused_at words.now cause }
{
    TextFault::Refused {
        line: words.line(),
        word: words.word(),
        cause,
    }
}

/// Whether the next word is that of the grammar.
pub fn begins(words: &Words<'_>, keyword: Keyword) -> bool
    ensures { result ≡ begins_with keyword words.now }
{
    words.next() == keyword.text()
}

/// What the next word says, which has to be there.
pub fn one_word<T: Drop>(
    words: &mut Words<'_>,
    wanted: Wanted,
    read: Result<T, Cause>,
) -> Result<T, TextFault>
    ensures { GivesWords (λ x. x) result words.new (one_word_in wanted words.old read) }
{
    if words.is_done() {
        return Err(refused(words, Cause::Wanted(wanted)));
    }
    match read {
        Ok(value) => {
            words.advance();
            Ok(value)
        }
        Err(cause) => Err(refused(words, cause)),
    }
}

/// A word of the grammar.
#[tactic(auto, unfolding(crate::specs::Fields::keyword_ahead))]
pub fn keyword(words: &mut Words<'_>, keyword: Keyword) -> Result<(), TextFault>
    ensures { GivesWords (λ x. x) result words.new (keyword_ahead keyword words.old) }
{
    if !begins(words, keyword) {
        return Err(refused(words, Cause::Wanted(Wanted::Keyword(keyword))));
    }
    words.advance();
    Ok(())
}

/// Whether that word of the grammar comes next; then it is passed.
#[tactic(auto, unfolding(crate::specs::Fields::flag_ahead))]
pub fn flag(words: &mut Words<'_>, keyword: Keyword) -> bool
    ensures { flag_ahead keyword words.old ≡ (result, words.new) }
{
    let set = begins(words, keyword);
    if set {
        words.advance();
    }
    set
}

/// That nothing more stands on the line.
#[tactic(auto, unfolding(crate::specs::Fields::end_ahead))]
pub fn end(words: &mut Words<'_>) -> Result<(), TextFault>
    ensures { GivesWords (λ x. x) result words.new (end_ahead words.old) }
{
    if words.is_done() {
        Ok(())
    } else {
        Err(refused(words, Cause::Wanted(Wanted::End)))
    }
}

/// The number of a word, at most `most`.
pub fn number_of_word(most: u64, word: &[u8]) -> Result<u64, Cause>
    ensures value { result ≡ number_said most word.now }
    ensures small { IfOk result (λ n. n ≤ most) }
{
    match number_of(word, most) {
        Ok(number) => Ok(number),
        Err(NumberFault::NoNumber) => Err(Cause::OutOfForm(Wanted::Number)),
        Err(NumberFault::TooLarge) => Err(Cause::TooLarge(most)),
    }
}

/// A number that is at most `most`.
#[tactic(auto, unfolding(crate::specs::Fields::number_ahead))]
pub fn number(words: &mut Words<'_>, most: u64) -> Result<u64, TextFault>
    ensures value { GivesWords (λ n. n) result words.new (number_ahead most words.old) }
    ensures small { IfOk result (λ n. n ≤ most) }
{
    let read = number_of_word(most, words.next());
    one_word(words, Wanted::Number, read)
}

/// A number behind its keyword, at most `most`; 0 where both are left out.
#[tactic(auto, unfolding(crate::specs::Fields::may_ahead))]
pub fn may(words: &mut Words<'_>, keyword: Keyword, most: u64) -> Result<u64, TextFault>
    ensures value { GivesWords (λ n. n) result words.new (may_ahead keyword most words.old) }
    ensures small { IfOk result (λ n. n ≤ most) }
{
    if !begins(words, keyword) {
        return Ok(0);
    }
    words.advance();
    number(words, most)
}

/// A number behind its keyword, at most `most`.
#[tactic(auto, unfolding(crate::specs::Fields::named_ahead))]
pub fn named(words: &mut Words<'_>, name: Keyword, most: u64) -> Result<u64, TextFault>
    ensures value { GivesWords (λ n. n) result words.new (named_ahead name most words.old) }
    ensures small { IfOk result (λ n. n ≤ most) }
{
    keyword(words, name)?;
    number(words, most)
}

/// The tag that was read.
fn told_tag(tag: Option<Tag>) -> Result<Tag, Cause>
    ensures { result ≡ tag_or tag }
{
    match tag {
        Some(tag) => Ok(tag),
        None => Err(Cause::OutOfForm(Wanted::Tag)),
    }
}

/// A tag.
#[tactic(auto, unfolding(crate::specs::Fields::tag_ahead))]
pub fn tag(alloc: Global, words: &mut Words<'_>) -> Result<Tag, TextFault>
    ensures { GivesWords (λ tag. tag) result words.new (tag_ahead words.old) }
{
    let read = told_tag(tag_of(alloc, words.next())?);
    one_word(words, Wanted::Tag, read)
}

/// A tag behind its keyword; none where both are left out.
#[tactic(auto, unfolding(crate::specs::Fields::may_tag_ahead))]
pub fn may_tag(alloc: Global, words: &mut Words<'_>) -> Result<Tag, TextFault>
    ensures { GivesWords (λ tag. tag) result words.new (may_tag_ahead words.old) }
{
    if !begins(words, Keyword::Tag) {
        return Ok(no_tag());
    }
    words.advance();
    tag(alloc, words)
}

/// The extent of a word.
pub fn extent_of_word(word: &[u8]) -> Result<Extent, Cause>
    ensures value { result ≡ extent_said word.now }
    ensures untagged { IfOk result (λ extent. IsTrue (is_untagged extent)) }
{
    match extent_of(word) {
        Ok(extent) => Ok(extent),
        Err(NumberFault::NoNumber) => Err(Cause::OutOfForm(Wanted::Extent)),
        Err(NumberFault::TooLarge) => Err(Cause::TooLarge(u64::MAX)),
    }
}
