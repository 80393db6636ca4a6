//! Lists of words of one form, up to the message tag or the end of the line.

ghost use Rattle.host_payloads.specs.HostPayloads.{is_untagged};
ghost use Rattle.std.specs.List.{list_all};
ghost use Rattle.std.specs.Prelude.{◌≡◌, ◌≤◌, IfOk, IsTrue, length};
ghost use Rattle.text_lines.specs.Fields.{GivesWords, and_room, extent_of_word as extent_said, extents_ahead, handles_ahead, list_behind, list_ahead, number_of_word as number_said};

use crate::Words;
use crate::faults::{Cause, TextFault, Wanted};
use crate::fields::{begins, extent_of_word, number, number_of_word, one_word};
use crate::keywords::Keyword;
use dcd_base::{Extent, Extents, Handles, Seq};
use std::alloc::Global;

/// What a word of a list says.
trait Item: Copy + Drop {
    ghost use Rattle.std.specs.Prelude.{ℕ, List, Result};
    ghost use Rattle.text_lines.specs.declared.faults.Cause.{Cause};

    ghost read: { List ℕ → Result Self Cause };

    /// What the grammar has there.
    fn wanted() -> Wanted;

    /// The item of a word.
    fn of_word(word: &[u8]) -> Result<Self, Cause>
        ensures { result ≡ read word.now };
}

impl Item for Extent {
    ghost read = { extent_said };

    fn wanted() -> Wanted {
        Wanted::Extent
    }

    fn of_word(word: &[u8]) -> Result<Extent, Cause> {
        extent_of_word(word)
    }
}

impl Item for u16 {
    ghost read = { number_said 65535 };

    fn wanted() -> Wanted {
        Wanted::Number
    }

    fn of_word(word: &[u8]) -> Result<u16, Cause> {
        match number_of_word(65535, word) {
            Ok(number) => Ok(number as u16),
            Err(cause) => Err(cause),
        }
    }
}

/// What was read, where so many more may come.
fn with_room<T: Drop>(left: u32, read: Result<T, Cause>) -> Result<T, Cause>
    ensures { result ≡ and_room left read }
{
    match read {
        Ok(_) if left == 0 => Err(Cause::MessageTooLong),
        read => read,
    }
}

/// Puts the items of further words behind those that are there, at most so many.
fn fill<T: Item>(words: &mut Words<'_>, most: u32, items: &mut Seq<T>) -> Result<(), TextFault>
    ensures { GivesWords (λ _. items.new) result words.new (list_behind items.old (list_ahead T.read most words.old)) }
{
    let mut left = most;
    while !words.is_done() && !begins(words, Keyword::MessageTag) {
        let read = with_room(left, T::of_word(words.next()));
        items.push(one_word(words, T::wanted(), read)?)?;
        left -= 1;
    }
    Ok(())
}

/// Extents without tags, at most so many.
pub fn extents(alloc: Global, words: &mut Words<'_>, most: u32) -> Result<Extents, TextFault>
    ensures value { GivesWords (λ xs. xs) result words.new (extents_ahead most words.old) }
    ensures few { IfOk result (λ xs. length xs ≤ most) }
    ensures untagged { IfOk result (λ xs. IsTrue (list_all is_untagged xs)) }
{
    let mut extents = Extents::new(alloc);
    fill(words, most, &mut extents)?;
    Ok(extents)
}

/// Handles behind their keyword, 1 to 255; none where they are left out.
#[tactic(auto, unfolding(crate::specs::Fields::handles_ahead))]
pub fn handles(alloc: Global, words: &mut Words<'_>) -> Result<Handles, TextFault>
    ensures value { GivesWords (λ handles. handles) result words.new (handles_ahead words.old) }
    ensures few { IfOk result (λ handles. length handles ≤ 255) }
{
    let mut handles = Handles::new(alloc);
    if !begins(words, Keyword::Handles) {
        return Ok(handles);
    }
    words.advance();
    handles.push(number(words, 65535)? as u16)?;
    fill(words, 254, &mut handles)?;
    Ok(handles)
}
