//! Programs that take no words.

ghost use Rattle.edge_io.specs.Words.{words_of};
ghost use Rattle.edge_io.specs.Meanings.{asks_nothing};
ghost use Rattle.std.specs.Prelude.{◌≡◌, Option};

/// What words ask for where none is taken: the one task that there is, or nothing where there are words.
pub fn no_words(words: &[String]) -> Option<()>
    ensures asked { asks_nothing (words_of words.now) result }
    ensures alone { (other : Option (Unit {0})) → asks_nothing (words_of words.now) other → other ≡ result }
{
    match words.len() {
        0 => Some(()),
        _ => None,
    }
}
