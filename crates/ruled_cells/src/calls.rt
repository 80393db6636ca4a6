//! Taking a cell, noting, and giving back.

ghost use Rattle.std.specs.Prelude.{◌≡◌, ◌≢◌, suc, ◌+◌, ◌<◌, slice_set, IfErr, IfOk, MatchResult, None, Some};
ghost use Rattle.ruled_cells.specs.Calls.{GaveIn, IsOf, MayGiveFirstIn, MayGiveIn, MayNoteIn, row_of, seats_of};
ghost use Rattle.ruled_cells.specs.Ruling.{names};
ghost use Rattle.ruled_cells.specs.Seats.{HasCell, HasFirst, IsNoTry, IsSameSeat, NoCell, NoFirst, seat_number, saw_of, tried_at, tries_of, turns_of, seat_view};
ghost use Rattle.ruled_cells.specs.Telling.{ToldCell, ToldFirst, begun, last_of, noted_as};
ghost use Rattle.ruled_cells.specs.declared.cell_value.CellValue.TheVariants.{First, Rest};

use crate::cell_value::CellValue;
use crate::cells::Cells;
use crate::chief::Chief;
use crate::member::Member;
use crate::ruling::{GiveCell, GiveFirst, Note, NotedEntry, TakeCell, TakeFirst};
use crate::seat::{Busy, Seat};
use crate::turns;
use std::marker::Brand;
use std::sync::Wait;

impl<F: Chief, S: Member> Cells<F, S> {
    /// Takes the first cell, and sleeps while another seat has it.
    pub fn take_first<R: Wait>(&self, rt: &R, seat: &mut Seat<F, S>) -> F
        requires cells { IsOf self.now seat.old }
        requires no_turn { NoFirst seat.old }
        ensures seat { IsSameSeat seat.old seat.new }
        ensures turn { (turns_of seat.new ≡ slice_set (turns_of seat.old) 0 (Some (First result))) × HasFirst seat.new result }
        ensures view { seat_view seat.new ≡ begun (seat_view seat.old) }
        ensures told { ToldFirst (names F.reads S.reads) (seat_view seat.old) result }
    {
        let kept = turns::take::<CellValue<F, S>, _, _, _, TakeFirst<F, S>, R>(
            rt,
            &self.table.shared,
            &self.sleepers,
            &mut seat.token,
            seat.number,
            0,
        );
        let CellValue::First(first) = kept else {
            unreachable!()
        };
        first
    }

    /// Takes the cell of an index, and sleeps while another seat has it.
    pub fn take<R: Wait>(&self, rt: &R, seat: &mut Seat<F, S>, index: u32) -> S
        requires cells { IsOf self.now seat.old }
        requires index { index < row_of self.now }
        requires no_turn { NoCell seat.old index }
        ensures seat { IsSameSeat seat.old seat.new }
        ensures turn { (turns_of seat.new ≡ slice_set (turns_of seat.old) (suc index) (Some (Rest result))) × HasCell seat.new index result }
        ensures view { seat_view seat.new ≡ seat_view seat.old }
        ensures told { ToldCell (names F.reads S.reads) (seat_view seat.old) result }
    {
        let kept = turns::take::<CellValue<F, S>, _, _, _, TakeCell<F, S>, R>(
            rt,
            &self.table.shared,
            &self.sleepers,
            &mut seat.token,
            seat.number,
            index as usize + 1,
        );
        let CellValue::Rest(value) = kept else {
            unreachable!()
        };
        value
    }

    /// Takes the cell of an index if it is free. It tries once: `Busy` comes exactly where that one step found the
    /// turn with another seat, and then nothing has changed but what the seat saw.
    pub fn try_take(&self, seat: &mut Seat<F, S>, index: u32) -> Result<S, Busy>
        requires cells { IsOf self.now seat.old }
        requires index { index < row_of self.now }
        requires no_turn { NoCell seat.old index }
        ensures seat { IsSameSeat seat.old seat.new }
        ensures once { tries_of seat.new ≡ tries_of seat.old + 1 }
        ensures at { tried_at seat.new ≡ suc index }
        ensures saw { MatchResult result (λ _. saw_of seat.new ≡ 0) (λ busy. saw_of seat.new ≡ busy.seat_seen + 1) }
        ensures view { seat_view seat.new ≡ seat_view seat.old }
        ensures turn { IfOk result (λ value. (turns_of seat.new ≡ slice_set (turns_of seat.old) (suc index) (Some (Rest value))) × HasCell seat.new index value) }
        ensures told { IfOk result (λ value. ToldCell (names F.reads S.reads) (seat_view seat.old) value) }
        ensures busy { IfErr result (λ busy. (turns_of seat.new ≡ turns_of seat.old) × (busy.seat_seen < seats_of self.now) × (busy.seat_seen ≢ seat_number seat.old)) }
    {
        let tried = turns::try_take::<CellValue<F, S>, _, _, _, TakeCell<F, S>>(
            &self.table.shared,
            &mut seat.token,
            seat.number,
            index as usize + 1,
        );
        match tried {
            Ok(kept) => {
                let CellValue::Rest(value) = kept else {
                    unreachable!()
                };
                Ok(value)
            }
            Err(seat_seen) => Err(Busy { seat_seen }),
        }
    }

    /// Writes the number of the entry that the first cell gained, which makes it part of the journal.
    ///
    /// `first` is the value taken with that entry, which is not given back yet.
    pub fn note(&self, seat: &mut Seat<F, S>, first: &F)
        requires cells { IsOf self.now seat.old }
        requires may { MayNoteIn F.reads S.reads self.now seat.old first.now (last_of (F.reads.journal first.now)) }
        ensures seat { IsSameSeat seat.old seat.new }
        ensures turns { turns_of seat.new ≡ turns_of seat.old }
        ensures view { noted_as (last_of (F.reads.journal first.now)) (seat_view seat.old) (seat_view seat.new) }
    {
        write::<Brand, F, S>(self, seat, first);
    }

    /// Gives the first cell back.
    pub fn give_first(&self, seat: &mut Seat<F, S>, value: F)
        requires cells { IsOf self.now seat.old }
        requires may { MayGiveFirstIn F.reads S.reads self.now seat.old value }
        ensures seat { IsSameSeat seat.old seat.new }
        ensures turn { turns_of seat.new ≡ slice_set (turns_of seat.old) 0 None }
        ensures view { seat_view seat.new ≡ begun (seat_view seat.old) }
    {
        turns::give::<CellValue<F, S>, _, _, _, GiveFirst<F, S>>(
            &self.table.shared,
            &self.sleepers,
            &mut seat.token,
            seat.number,
            0,
            CellValue::First(value),
        );
    }

    /// Gives the cell of an index back.
    pub fn give(&self, seat: &mut Seat<F, S>, index: u32, value: S)
        requires cells { IsOf self.now seat.old }
        requires index { index < row_of self.now }
        requires may { MayGiveIn F.reads S.reads seat.old index value }
        ensures seat { IsSameSeat seat.old seat.new }
        ensures turn { turns_of seat.new ≡ slice_set (turns_of seat.old) (suc index) None }
        ensures no_try { IsNoTry seat.old seat.new }
        ensures told { GaveIn F.reads S.reads seat.old index value (seat_view seat.new) }
    {
        turns::give::<CellValue<F, S>, _, _, _, GiveCell<F, S>>(
            &self.table.shared,
            &self.sleepers,
            &mut seat.token,
            seat.number,
            index as usize + 1,
            CellValue::Rest(value),
        );
    }
}

/// Sets the count word, at a noted entry that the caller picks.
fn write<N: NotedEntry, F: Chief, S: Member>(cells: &Cells<F, S>, seat: &mut Seat<F, S>, first: &F)
    requires cells { IsOf cells.now seat.old }
    requires may { MayNoteIn F.reads S.reads cells.now seat.old first.now N.entry }
    ensures seat { IsSameSeat seat.old seat.new }
    ensures turns { turns_of seat.new ≡ turns_of seat.old }
    ensures view { noted_as N.entry (seat_view seat.old) (seat_view seat.new) }
{
    turns::mark::<CellValue<F, S>, _, _, _, Note<N>>(
        &cells.table.shared,
        &mut seat.token,
        seat.number,
        cells.row as usize + 1,
        first.count(),
    );
}
