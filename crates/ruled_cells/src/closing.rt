//! Taking the cells apart.

ghost use Rattle.std.specs.Prelude.{◌≡◌, ℕ, ◌+◌, ◌≤◌, List, [], length, map, vec_capacity, IfErr, IfOk, Some};
ghost use mathlib.Core.Option.{some};
ghost use lib.ListN.{get_elem?};
ghost use Rattle.core.specs.Mem.Slots.{slots_items, slots_len, IsFull};
ghost use Rattle.ruled_cells.specs.Calls.{AccountFor, AreAll, IsOf, NoOthers, opened_with, row_of};
ghost use Rattle.ruled_cells.specs.Making.{IsGathered};
ghost use Rattle.ruled_cells.specs.Resting.{IsAtRest};
ghost use Rattle.ruled_cells.specs.Ruling.{names};
ghost use Rattle.ruled_cells.specs.Seats.{IsSameSeat, NoTurns, seat_number, seat_view};
ghost use Rattle.ruled_cells.specs.Telling.{joint_view, values};
ghost use Rattle.ruled_cells.specs.Turning.{joint};
ghost use Rattle.ruled_cells.specs.declared.seat.Seat.{Seat};
ghost use Rattle.ruled_cells.specs.Reads.{about_of};

use crate::cell_value::CellValue;
use crate::cells::Cells;
use crate::chief::Chief;
use crate::member::Member;
use crate::ruling::Leave;
use crate::seat::Seat;
use crate::turns;
use atomic_table::Closed;
use dcd_base::NoMemory;
use std::alloc::Global;

/// A seat takes in another.
fn merge<F: Chief, S: Member>(cells: &Cells<F, S>, seat: &mut Seat<F, S>, other: Seat<F, S>)
    requires of { IsOf cells.now seat.old × IsOf cells.now other }
    requires no_turns { NoTurns other }
    ensures seat { IsSameSeat seat.old seat.new }
    ensures joint { seat.new.token.me ≡ (joint joint_view seat.old.token.me.0 other.token.me.0, seat.old.token.me.1) }
{
    turns::absorb::<CellValue<F, S>, _, _, _, Leave>(
        &cells.table.shared,
        &mut seat.token,
        other.into_token(),
    );
}

/// The last seat takes in all others.
fn gather<F: Chief, S: Member>(cells: &Cells<F, S>, mut seats: Vec<Seat<F, S>>) -> Seat<F, S>
    requires all { AreAll cells.now seats.items }
    ensures of { IsOf cells.now result × NoTurns result }
    ensures each { (k : ℕ) (s : Seat F S) → get_elem? seats.items k ≡ some s → IsGathered result.token.me (seat_number s) (seat_view s) }
{
    let Some(mut main) = seats.pop() else {
        unreachable!()
    };
    while let Some(other) = seats.pop() {
        merge(cells, &mut main, other);
    }
    main
}

/// Takes each value out of its slot.
fn unpack<F, S>(
    mut closed: Closed<Option<CellValue<F, S>>, Global>,
    mut row: Vec<S>,
    count: u32,
) -> (F, Vec<S>)
    requires full { IsFull closed.slots × (slots_len closed.slots ≡ count + 1) }
    requires kept { (first : F) × (rest : List S) × (slots_items closed.slots ≡ map (λ x. Some x) (values first rest)) }
    requires room { (row.items ≡ []) × (count ≤ vec_capacity row) }
    ensures { slots_items closed.slots ≡ map (λ x. Some x) (values result.0 result.1.items) }
{
    let slot = closed.take(0);
    let Some(kept) = slot else { unreachable!() };
    let CellValue::First(first) = kept else {
        unreachable!()
    };
    for i in 0..count {
        let slot = closed.take(i as usize + 1);
        let Some(kept) = slot else { unreachable!() };
        let CellValue::Rest(value) = kept else {
            unreachable!()
        };
        row.push_reserved(value);
    }
    closed.free();
    (first, row)
}

impl<F: Chief, S: Member> Cells<F, S> {
    /// Takes the cells apart, once all turns are given back, into a row that has room for them: the first cell and the row, of
    /// which the rule tells what they are. It cannot fail.
    pub fn close_into(self, row: Vec<S>, seats: Vec<Seat<F, S>>) -> (F, Vec<S>)
        requires all { AreAll self seats.items }
        requires room { (row.items ≡ []) × (row_of self ≤ vec_capacity row) }
        ensures rest { IsAtRest (names F.reads S.reads) (about_of F.reads (opened_with self)) result.0 result.1.items }
        ensures row { length result.1.items ≡ row_of self }
        ensures calls { AccountFor F.reads S.reads result.0 result.1.items seats.items }
        ensures no_others { NoOthers F.reads S.reads self result.0 result.1.items }
    {
        let last = gather(&self, seats);
        let Cells {
            table,
            row: count,
            sleepers: _,
        } = self;
        unpack(turns::close(table, last.into_token()), row, count)
    }

    /// Takes the cells apart, once all turns are given back: the first cell and the row, of which the rule tells what
    /// they are. `NoMemory` comes before anything is taken apart, and hands all back.
    pub fn close(
        self,
        alloc: Global,
        seats: Vec<Seat<F, S>>,
    ) -> Result<(F, Vec<S>), (NoMemory, Cells<F, S>, Vec<Seat<F, S>>)>
        requires { AreAll self seats.items }
        ensures rest { IfOk result (λ values. IsAtRest (names F.reads S.reads) (about_of F.reads (opened_with self)) values.0 values.1.items) }
        ensures row { IfOk result (λ values. length values.1.items ≡ row_of self) }
        ensures calls { IfOk result (λ values. AccountFor F.reads S.reads values.0 values.1.items seats.items) }
        ensures no_others { IfOk result (λ back. NoOthers F.reads S.reads self back.0 back.1.items) }
        ensures kept { IfErr result (λ back. (back.1 ≡ self) × (back.2.items ≡ seats.items)) }
    {
        let Ok(row) = Vec::with_capacity(alloc, self.row as usize) else {
            return Err((NoMemory, self, seats));
        };
        Ok(self.close_into(row, seats))
    }
}
