//! A seat at the cells.

ghost use Rattle.std.specs.Prelude.{◌≡◌, None, false, length, true};

use crate::about::SeatView;
use crate::cell_value::CellValue;
use crate::turns::Token;
use std::error::Error;
use std::fmt::{self, Display};

/// A token that takes turns. Its view says what its user knows of the cells and has done with them.
pub struct Seat<F, S> {
    pub(crate) number: u32,
    pub(crate) token: Token<CellValue<F, S>, SeatView>,
    ghost resting: { (token.me.0.number ≡ number) × (token.me.0.live ≡ true) × (token.me.0.moving ≡ None) × (length token.me.1 ≡ 0) },
    ghost used: { token.me.0.client.spent ≡ false },
}

impl<F, S> Seat<F, S> {
    /// Its number among the seats of its cells, from 0.
    pub fn number(&self) -> u32
        ensures { result ≡ self.now.number }
    {
        self.number
    }

    pub(crate) fn into_token(self) -> Token<CellValue<F, S>, SeatView>
        ensures { result ≡ self.token }
    {
        let Self { number: _, token } = self;
        token
    }
}

impl<F, S> Drop for Seat<F, S> {
    fn drop(self) {
        let Self {
            number: _,
            token: _,
        } = self;
    }
}

/// The turn is another's.
#[derive(Clone, Copy, Debug, PartialEq, Eq)]
pub struct Busy {
    /// The number of the seat that has it.
    pub seat_seen: u32,
}

impl Display for Busy {
    fn fmt<W: fmt::Write>(&self, f: &mut fmt::Formatter<W>) -> fmt::Result {
        write!(f, "the cell is taken by seat {}", self.seat_seen)
    }
}

impl Error for Busy {}
