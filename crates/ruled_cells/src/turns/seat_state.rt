//! What a seat knows.

use dcd_base::Seq;

/// What a seat knows. No value of it is made.
pub struct SeatState<X, V> {
    pub number: u32,
    /// How many seats there are to be.
    pub among: u32,
    /// Whether it is still used, and was not taken in by another seat.
    pub live: bool,
    /// For each cell the value that was taken from it, if this seat has its turn.
    pub taken: Seq<Option<X>>,
    /// The cell whose slot is out of its place, if the seat is in the midst of a step.
    pub moving: Option<usize>,
    /// The cell whose turn its last try read.
    pub at: usize,
    /// What its last try read: 0, or the number of another seat plus 1.
    pub saw: u64,
    /// How often it tried to get a turn.
    pub tries: u64,
    /// The seats that it took in.
    pub joined: Seq<u32>,
    /// Whether it makes the others, and how many there are by now.
    pub makes: bool,
    pub made: u32,
    /// What the user's rule sees.
    pub client: V,
}
