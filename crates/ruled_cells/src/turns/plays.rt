//! The steps on the table, each with what it tells.
ghost use Rattle.ruled_cells.specs.Turning.{enrolled, given_back, gone, in_row, joint, laid_back, marks_seat, newcomer, picked_up, tried};

use crate::turns::protocol::{Admission, Marking, Merging, Outcome};
use crate::turns::seat_state::SeatState;
use atomic_table::{Join, Play, Split};
use std::marker::PhantomData;

/// Takes a turn if it is free.
pub struct Try<M> {
    outcome: PhantomData<M>,
}

impl<X, V, M: Outcome<X, V>> Play<Option<X>, SeatState<X, V>> for Try<M> {
    ghost then = { λ st. tried M.then (in_row st) };
}

/// Lays an emptied slot back.
pub struct Lay;

impl<X, V> Play<Option<X>, SeatState<X, V>> for Lay {
    ghost then = { laid_back };
}

/// Picks an empty slot up.
pub struct Pick;

impl<X, V> Play<Option<X>, SeatState<X, V>> for Pick {
    ghost then = { λ st. picked_up (in_row st) };
}

/// Lays a filled slot back and frees its turn.
pub struct Give<M> {
    outcome: PhantomData<M>,
}

impl<X, V, M: Outcome<X, V>> Play<Option<X>, SeatState<X, V>> for Give<M> {
    ghost then = { λ st. given_back M.then (in_row st) };
}

/// Sets the user's word.
pub struct Mark<M> {
    marking: PhantomData<M>,
}

impl<X, V, M: Marking<V>> Play<Option<X>, SeatState<X, V>> for Mark<M> {
    ghost then = { marks_seat M.then };
}

/// Makes a seat.
pub struct Enroll<M> {
    admission: PhantomData<M>,
}

impl<X, V, M: Admission<V>> Split<SeatState<X, V>> for Enroll<M> {
    ghost left = { enrolled };

    ghost right = { newcomer M.new };
}

/// Takes a seat in.
pub struct Absorb<M> {
    merging: PhantomData<M>,
}

impl<X, V, M: Merging<V>> Join<SeatState<X, V>> for Absorb<M> {
    ghost both = { joint M.both };

    ghost spent = { gone M.spent };
}
