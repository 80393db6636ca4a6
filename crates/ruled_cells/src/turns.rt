//! Cells that are taken in turns, under a rule of their user.
//!
//! Each cell has a word of the table, its turn: 0, or the number of the seat that has it plus 1. One more word is
//! the user's. A value is at home in its slot, or it was taken by the seat that has the turn.
mod plays;
mod protocol;
mod seat_state;
mod seats;
mod sleepers;
mod steps;
mod words;

pub(crate) use protocol::{Admission, Board, Marking, Merging, Outcome, Protocol, Token, Turns};
pub(crate) use seat_state::SeatState;
pub(crate) use seats::{Store, absorb, close, enroll, open};
pub(crate) use sleepers::Sleepers;
pub(crate) use steps::{give, mark, take, try_take};
