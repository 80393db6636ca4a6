//! Making cells and their seats.

ghost use Rattle.std.specs.Prelude.{◌≡◌, ℕ, ◌+◌, ◌<◌, ◌≤◌, [], ◌∷◌, length, vec_capacity, vec_len, IfErr, IfOk};
ghost use Rattle.ruled_cells.specs.Calls.{AreNew, AreOthers, opened_with, row_of, seats_of};
ghost use Rattle.ruled_cells.specs.Making.{IsFilling, IsMaker};
ghost use Rattle.ruled_cells.specs.Ruling.{names};
ghost use Rattle.ruled_cells.specs.declared.seat.Seat.{Seat};
ghost use Rattle.ruled_cells.specs.Telling.{MayOpen};
ghost use Rattle.ruled_cells.specs.Turning.{HasTurn, HasWords, NoTurn};
ghost use Rattle.ruled_cells.specs.declared.cell_value.CellValue.TheVariants.{First};
ghost use Rattle.ruled_cells.specs.Reads.{about_of};

use crate::about::SeatView;
use crate::cell_value::{CellValue, OpeningValues};
use crate::cells::Cells;
use crate::chief::Chief;
use crate::member::Member;
use crate::ruling::{Enter, Fill, Ruling};
use crate::seat::Seat;
use crate::turns::{self, Board, Sleepers, Token};
use dcd_base::NoMemory;
use std::alloc::Global;

/// The words and slots of the cells.
pub type Shelf<F, S> = Board<CellValue<F, S>, SeatView, OpeningValues<F, S>, Ruling<F, S>>;

/// Seat 0 gives each cell back with the value that it was made with.
fn fill<F: Chief, S: Member>(
    shelf: &Shelf<F, S>,
    sleepers: &Sleepers,
    token: &mut Token<CellValue<F, S>, SeatView>,
    first: F,
    mut rest: Vec<S>,
)
    requires board { token.old.table_id ≡ shelf.now.table_id }
    requires shelf { (length rest.items + 1 ≡ shelf.now.table_id.slots) × HasWords shelf.now.table_id }
    requires maker { IsMaker shelf.now.key.seats 1 (about_of F.reads shelf.now.key.first) token.old.me }
    requires sound { F.reads.sound first }
    requires first { HasTurn token.old.me.0.taken 0 (First first) }
    requires filling { IsFilling rest.items token.old.me }
    ensures board { (token.new.table_id ≡ token.old.table_id) × (token.new.id ≡ token.old.id) }
    ensures maker { IsMaker shelf.now.key.seats 1 (about_of F.reads shelf.now.key.first) token.new.me }
    ensures no_turns { (k : ℕ) → NoTurn token.new.me.0.taken k }
{
    turns::give::<CellValue<F, S>, _, _, _, Fill<F, S>>(
        shelf,
        sleepers,
        token,
        0,
        0,
        CellValue::First(first),
    );
    while let Some(value) = rest.pop() {
        turns::give::<CellValue<F, S>, _, _, _, Fill<F, S>>(
            shelf,
            sleepers,
            token,
            0,
            rest.len() + 1,
            CellValue::Rest(value),
        );
    }
    rest.destroy_empty();
}

/// Seat 0 makes all others, in the order of their numbers.
fn enroll_all<F: Chief, S: Member>(
    cells: &Cells<F, S>,
    token: &mut Token<CellValue<F, S>, SeatView>,
    others: &mut Vec<Seat<F, S>>,
    seats: u32,
)
    requires board { token.old.table_id ≡ cells.now.table.shared.table_id }
    requires maker { IsMaker (seats_of cells.now) 1 (about_of F.reads cells.now.table.shared.key.first) token.old.me }
    requires seats { (seats ≡ seats_of cells.now) × (0 < seats) }
    requires room { (others.old.items ≡ []) × (seats ≤ vec_capacity others.old) }
    ensures board { (token.new.table_id ≡ token.old.table_id) × (token.new.id ≡ token.old.id) }
    ensures maker { IsMaker (seats_of cells.now) seats (about_of F.reads cells.now.table.shared.key.first) token.new.me }
    ensures taken { token.new.me.0.taken ≡ token.old.me.0.taken }
    ensures count { length others.new.items + 1 ≡ seats }
    ensures room { vec_capacity others.new ≡ vec_capacity others.old }
    ensures each { AreOthers cells.now (about_of F.reads cells.now.table.shared.key.first) others.new.items }
{
    let mut made: u32 = 1;
    while made < seats {
        let other = turns::enroll::<CellValue<F, S>, _, _, _, Enter>(&cells.table.shared, token);
        others.push_reserved(Seat {
            number: made,
            token: other,
        });
        made += 1;
    }
}

/// Puts an item before the others, where there is room.
fn put_first<T: Drop>(items: &mut Vec<T>, item: T)
    requires { vec_len items.old < vec_capacity items.old }
    ensures { items.new.items ≡ item ∷ items.old.items }
{
    let _ = items.insert(0, item);
}

impl<F: Chief, S: Member> Cells<F, S> {
    /// Cells with these values, and so many seats, numbered from 0.
    ///
    /// Each word is one atomic word, each value moves into and out of its place by moves alone. `NoMemory` comes
    /// before anything has moved for good, and hands the values back.
    pub fn make(
        alloc: Global,
        first: F,
        rest: Vec<S>,
        seats: u32,
    ) -> Result<(Cells<F, S>, Vec<Seat<F, S>>), (NoMemory, F, Vec<S>)>
        requires seats { 0 < seats }
        requires contents { MayOpen (names F.reads S.reads) first rest.items }
        ensures cells { IfOk result (λ made. (opened_with made.0 ≡ first) × (seats_of made.0 ≡ seats) × (row_of made.0 ≡ length rest.items)) }
        ensures count { IfOk result (λ made. length made.1.items ≡ seats) }
        ensures each { IfOk result (λ made. AreNew made.0 (about_of F.reads first) made.1.items) }
        ensures kept { IfErr result (λ back. (back.1 ≡ first) × (back.2.items ≡ rest.items)) }
    {
        let Ok(row) = u32::try_from(rest.len()) else {
            return Err((NoMemory, first, rest));
        };
        let Ok(mut all) = Vec::with_capacity(alloc, seats as usize) else {
            return Err((NoMemory, first, rest));
        };
        let Ok(sleepers) = Sleepers::none(alloc, row as usize + 1) else {
            return Err((NoMemory, first, rest));
        };
        let contents = OpeningValues { first, rest, seats };
        let Ok((table, mut token)) = turns::open(alloc, row as usize + 1, &contents) else {
            let OpeningValues {
                first,
                rest,
                seats: _,
            } = contents;
            return Err((NoMemory, first, rest));
        };
        let OpeningValues {
            first,
            rest,
            seats: _,
        } = contents;
        fill(&table.shared, &sleepers, &mut token, first, rest);
        let cells = Cells {
            table,
            row,
            sleepers,
        };
        enroll_all(&cells, &mut token, &mut all, seats);
        put_first(&mut all, Seat { number: 0, token });
        Ok((cells, all))
    }
}
