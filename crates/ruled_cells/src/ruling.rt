//! The rule of the cells, and what it tells at each kind of step.
ghost use Rattle.journal_core.specs.declared.entries.Entry.{Entry};
ghost use Rattle.ruled_cells.specs.Making.{fills};
ghost use Rattle.ruled_cells.specs.Ruling.{names};
ghost use Rattle.ruled_cells.specs.Telling.{fresh_seat, gave_first, gave_shard, joint_view, next_view, no_entry, noted_as, spent_view, took_first, took_shard, values};
ghost use Rattle.ruled_cells.specs.Reads.{about_of};

use crate::about::SeatView;
use crate::cell_value::{CellValue, OpeningValues};
use crate::chief::Chief;
use crate::member::Member;
use crate::turns::{Admission, Marking, Merging, Outcome, Protocol};
use std::marker::{Brand, PhantomData};

/// The rule.
pub struct Ruling<F, S> {
    of: PhantomData<(F, S)>,
}

impl<F: Chief, S: Member> Protocol<CellValue<F, S>, SeatView, OpeningValues<F, S>>
    for Ruling<F, S> {
    ghost use Rattle.ruled_cells.specs.Booking.{Whole};

    ghost holds = { λ key. Whole (names F.reads S.reads) (about_of F.reads key.first) };

    ghost given = { λ key. values key.first key.rest.items };

    ghost seats = { λ key. key.seats };

    ghost first = { λ key. fresh_seat 0 (about_of F.reads key.first) };
}

/// The first cell is taken.
pub struct TakeFirst<F, S> {
    of: PhantomData<(F, S)>,
}

impl<F: Chief, S: Member> Outcome<CellValue<F, S>, SeatView> for TakeFirst<F, S> {
    ghost then = { took_first (names F.reads S.reads) };
}

/// A cell of the row is taken.
pub struct TakeCell<F, S> {
    of: PhantomData<(F, S)>,
}

impl<F: Chief, S: Member> Outcome<CellValue<F, S>, SeatView> for TakeCell<F, S> {
    ghost then = { took_shard (names F.reads S.reads) };
}

/// The first cell is given back.
pub struct GiveFirst<F, S> {
    of: PhantomData<(F, S)>,
}

impl<F: Chief, S: Member> Outcome<CellValue<F, S>, SeatView> for GiveFirst<F, S> {
    ghost then = { gave_first (names F.reads S.reads) };
}

/// A cell of the row is given back.
pub struct GiveCell<F, S> {
    of: PhantomData<(F, S)>,
}

impl<F: Chief, S: Member> Outcome<CellValue<F, S>, SeatView> for GiveCell<F, S> {
    ghost then = { gave_shard (names F.reads S.reads) };
}

/// A cell is given back as it was taken, when the cells are made.
pub struct Fill<F, S> {
    of: PhantomData<(F, S)>,
}

impl<F, S> Outcome<CellValue<F, S>, SeatView> for Fill<F, S> {
    ghost then = { fills };
}

/// Which entry is noted.
pub trait NotedEntry {
    ghost entry: { Entry };
}

impl NotedEntry for Brand {
    ghost entry = { no_entry };
}

/// A command or a scrub is noted.
pub struct Note<N> {
    of: PhantomData<N>,
}

impl<N: NotedEntry> Marking<SeatView> for Note<N> {
    ghost then = { noted_as N.entry };
}

/// A seat is made.
pub struct Enter;

impl Admission<SeatView> for Enter {
    ghost new = { next_view };
}

/// A seat is taken in.
pub struct Leave;

impl Merging<SeatView> for Leave {
    ghost both = { joint_view };

    ghost spent = { spent_view };
}
