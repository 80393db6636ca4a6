//! Making the cells, their seats, and taking all of it apart again.
ghost use Rattle.std.specs.Prelude.{◌≡◌, ◌≢◌, ℕ, ◌+◌, ◌*◌, ◌^◌, ◌<◌, [], true, length, replicate, slice_set, IfOk};
ghost use Rattle.core.specs.Mem.Slots.{slots_items, slots_len, IsFull};
ghost use Rattle.ruled_cells.specs.Turning.{Admits, HasWords, HoldsAtFirst, IsIn, MergesSeats, NoTurn, SettledBy, enrolled, joint, newcomer, opener};

use crate::turns::plays::{Absorb, Enroll};
use crate::turns::protocol::{Admission, Board, Merging, Protocol, Token, Turns};
use crate::turns::seat_state::SeatState;
use crate::turns::words::word_of;
use atomic_table::{Closed, Table};
use dcd_base::NoMemory;
use std::alloc::Global;

pub type Store<X, V, K, P> = Table<Option<X>, SeatState<X, V>, K, Turns<P>, Global>;

/// The words at first: all turns are seat 0's, and the user's word is 0. What stands between them is never used.
fn first_words(alloc: Global, cells: usize) -> Result<Vec<u64>, NoMemory>
    requires { cells < 2 ^ 60 }
    ensures { IfOk result (λ words. words.items ≡ slice_set (replicate (8 * cells + 1) 1) (8 * cells) 0) }
{
    let last = word_of(cells);
    let mut words = Vec::from_elem(alloc, 1u64, last + 1)?;
    words[last] = 0;
    Ok(words)
}

/// The cells, all empty, and seat 0, which has all turns and is to fill them.
pub fn open<X, V, K, P: Protocol<X, V, K>>(
    alloc: Global,
    cells: usize,
    about: &K,
) -> Result<(Store<X, V, K, P>, Token<X, V>), NoMemory>
    requires cells { (cells ≡ length (P.given about.now)) × (cells < 2 ^ 60) }
    requires seats { (0 < P.seats about.now) × (P.seats about.now < 2 ^ 32) }
    requires rule { HoldsAtFirst (P.holds about.now) cells (P.given about.now) (P.first about.now) }
    ensures words { IfOk result (λ made. made.0.shared.table_id.words ≡ 8 * cells + 1) }
    ensures slots { IfOk result (λ made. made.0.shared.table_id.slots ≡ cells) }
    ensures table { IfOk result (λ made. made.1.table_id ≡ made.0.shared.table_id) }
    ensures seat { IfOk result (λ made. made.1.me ≡ (opener (P.seats about.now) (P.given about.now) (P.first about.now), [])) }
    ensures key { IfOk result (λ made. made.0.shared.key ≡ about.now) }
{
    let words = first_words(alloc, cells)?;
    Ok(Table::vacant(alloc, words.as_slice(), cells, about)?)
}

/// Seat 0 makes a seat, which has the next number.
pub fn enroll<X, V, K, P: Protocol<X, V, K>, M: Admission<V>>(
    board: &Board<X, V, K, P>,
    seat: &mut Token<X, V>,
) -> Token<X, V>
    requires board { (seat.old.table_id ≡ board.now.table_id) × HasWords board.now.table_id }
    requires makes { (seat.old.me.0.live ≡ true) × (seat.old.me.0.makes ≡ true) × (seat.old.me.0.made < seat.old.me.0.among) }
    requires rule { Admits (P.holds board.now.key) seat.old.me.0.client M.new }
    ensures kept { (seat.new.table_id ≡ seat.old.table_id) × (seat.new.id ≡ seat.old.id) × (seat.new.me ≡ (enrolled seat.old.me.0, seat.old.me.1)) }
    ensures given { (result.table_id ≡ seat.old.table_id) × (result.me ≡ (newcomer M.new seat.old.me.0, [])) }
{
    board.split_seat::<Enroll<M>>(seat)
}

/// Takes in a seat that has no turn.
pub fn absorb<X, V, K, P: Protocol<X, V, K>, M: Merging<V>>(
    board: &Board<X, V, K, P>,
    seat: &mut Token<X, V>,
    other: Token<X, V>,
)
    requires board { (seat.old.table_id ≡ board.now.table_id) × (other.table_id ≡ board.now.table_id) × HasWords board.now.table_id }
    requires live { (seat.old.me.0.live ≡ true) × (other.me.0.live ≡ true) × (other.me.1 ≡ []) }
    requires no_turn { (k : ℕ) → NoTurn other.me.0.taken k }
    requires rule { MergesSeats (P.holds board.now.key) seat.old.me.0 other.me.0 M.both M.spent }
    ensures { (seat.new.table_id ≡ seat.old.table_id) × (seat.new.id ≡ seat.old.id) × (seat.new.me ≡ (joint M.both seat.old.me.0 other.me.0, seat.old.me.1)) }
{
    board.join_seat::<Absorb<M>>(seat, other);
}

/// Takes the table apart, once one seat is left and has no turn: each cell's value is in its slot.
pub fn close<X, V, K, P: Protocol<X, V, K>>(
    store: Store<X, V, K, P>,
    seat: Token<X, V>,
) -> Closed<Option<X>, Global>
    requires board { (seat.table_id ≡ store.shared.table_id) × HasWords store.shared.table_id }
    requires live { seat.me.0.live ≡ true }
    requires no_turn { (k : ℕ) → NoTurn seat.me.0.taken k }
    requires alone { (i : ℕ) → i < seat.me.0.among → i ≢ seat.me.0.number → IsIn i seat.me.0.joined }
    ensures counts { slots_len result.slots ≡ store.shared.table_id.slots }
    ensures full { IsFull result.words × IsFull result.slots }
    ensures settled { SettledBy (P.holds store.shared.key) store.shared.table_id.slots seat.me.0 (slots_items result.words) (slots_items result.slots) }
{
    store.close_with(seat)
}
