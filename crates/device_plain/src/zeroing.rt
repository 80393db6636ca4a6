//! The words that a command or a scrub zeroes.

ghost use Rattle.device_plain.specs.Accesses.{AreZeroed, IsZeroedBy};
ghost use Rattle.std.specs.Prelude.{◌≡◌, length};

use granule_mem::GranuleWords;
use journal_core::Effect;

/// Makes the words 0 of each granule that the effects zero.
pub fn zero_all(words: &mut GranuleWords, effects: &[Effect])
    ensures words { AreZeroed words.old words.new effects.now }
    ensures granules { length words.new ≡ length words.old }
{
    for i in 0..effects.len() {
        zero_by(words, &effects[i]);
    }
}

/// Makes the words 0 of the granules that one effect zeroes, if it zeroes any.
#[inline(always)]
fn zero_by(words: &mut GranuleWords, effect: &Effect)
    ensures words { IsZeroedBy words.old words.new effect.now }
    ensures granules { length words.new ≡ length words.old }
{
    match effect {
        Effect::Zero(run) => words.zero(*run),
        _ => {}
    }
}
