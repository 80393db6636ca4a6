//! Where the words stand in the table.

ghost use Rattle.std.specs.Prelude.{◌≡◌, ◌*◌, ◌^◌, ◌<◌};

/// How many words of the table there are from one turn to the next: 64 bytes, a line of the cache, so that threads
/// which take turns of different cells do not take a line from each other.
const APART: usize = 8;

/// The word of a cell's turn, or, for the number of the cells, the user's word.
pub fn word_of(cell: usize) -> usize
    requires { cell < 2 ^ 60 }
    ensures { result ≡ 8 * cell }
{
    APART * cell
}
