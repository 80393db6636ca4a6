//! The rule of the cells' user, and what it says of each kind of step.
use crate::turns::seat_state::SeatState;
use atomic_table::{Seat, Shared, TableRule};
use std::marker::PhantomData;

/// The user's rule over the words, the value of each cell and the view of each seat.
pub trait Protocol<X, V, K> {
    ghost use Rattle.std.specs.Prelude.{ℕ, List};

    ghost holds: { K → List ℕ → List X → List V → Type 0 };

    // The values at first, which seat 0 has taken.
    ghost given: { K → List X };

    ghost seats: { K → ℕ };

    // The view of seat 0 at first.
    ghost first: { K → V };
}

/// What a step on a turn tells: of the cell, the view before, the value that was taken, the value that is there
/// now, and the view after.
pub trait Outcome<X, V> {
    ghost use Rattle.std.specs.Prelude.{ℕ};

    ghost then: { ℕ → V → X → X → V → Type 0 };
}

/// What a step on the user's word tells: of the views before and after.
pub trait Marking<V> {
    ghost then: { V → V → Type 0 };
}

/// The view of a new seat, by its number and the view of seat 0.
pub trait Admission<V> {
    ghost use Rattle.std.specs.Prelude.{ℕ};

    ghost new: { ℕ → V → V };
}

/// The view of a seat that takes in another, and what is left of the other's.
pub trait Merging<V> {
    ghost both: { V → V → V };

    ghost spent: { V };
}

/// The rule of the table.
pub struct Turns<P> {
    protocol: PhantomData<P>,
}

impl<X, V, K, P: Protocol<X, V, K>> TableRule<Option<X>, SeatState<X, V>, K> for Turns<P> {
    ghost use Rattle.std.specs.Prelude.{length};
    ghost use Rattle.ruled_cells.specs.Turning.{TiedApart, opener};

    ghost holds = { λ key. TiedApart (length (P.given key)) (P.seats key) (P.holds key) };

    ghost first = { λ key. opener (P.seats key) (P.given key) (P.first key) };
}

pub type Board<X, V, K, P> = Shared<Option<X>, SeatState<X, V>, K, Turns<P>>;

pub type Token<X, V> = Seat<Option<X>, SeatState<X, V>>;
