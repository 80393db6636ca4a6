//! Cells that threads take, use and give back in turns, under one rule that holds between any two steps.
#![tactic(auto)]

mod about;
mod calls;
mod cell_value;
mod cells;
mod chief;
mod closing;
mod making;
mod member;
mod ruling;
mod seat;
mod turns;

pub use about::{About, SeatView};
pub use cells::Cells;
pub use chief::Chief;
pub use member::Member;
pub use seat::{Busy, Seat};
