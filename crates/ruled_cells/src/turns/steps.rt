//! Taking a turn, giving it back, and setting the user's word.
ghost use Rattle.std.specs.Prelude.{◌≡◌, ◌+◌, ◌<◌, [], ◌∷◌, IfErr, IfOk, None, Some};
ghost use Rattle.ruled_cells.specs.Turning.{GivesFrom, HasTurn, HasWords, IsGiven, IsMissed, IsMoving, IsResting, HasTaken, IsTakenInTheEnd, Marks, NoTurn, TakesTurn, marks_seat, moving_at, still, tried};
ghost use Rattle.atomic_table.specs.Table.{step};
ghost use mathlib.Core.Option.{none};

use crate::turns::plays::{Give, Lay, Mark, Pick, Try};
use crate::turns::protocol::{Board, Marking, Outcome, Protocol, Token};
use crate::turns::sleepers::Sleepers;
use crate::turns::words::word_of;
use std::hint::spin_loop;
use std::sync::Wait;
use std::thread::yield_now;

/// One try, by one step.
fn attempt<X, V, K, P: Protocol<X, V, K>, M: Outcome<X, V>>(
    board: &Board<X, V, K, P>,
    seat: &mut Token<X, V>,
    number: u32,
    cell: usize,
) -> u64
    requires board { (seat.old.table_id ≡ board.now.table_id) × (cell < board.now.table_id.slots) × HasWords board.now.table_id }
    requires resting { IsResting number seat.old.me }
    requires no_turn { NoTurn seat.old.me.0.taken cell }
    requires rule { TakesTurn (P.holds board.now.key) board.now.table_id.slots number seat.old.me.0.taken seat.old.me.0.client cell M.then }
    ensures board { (seat.new.table_id ≡ seat.old.table_id) × (seat.new.id ≡ seat.old.id) }
    ensures tried { tried M.then (step board.now.table_id.slots cell 0 (number + 1) none) seat.old.me result seat.new.me }
{
    board.compare_exchange::<Try<M>>(seat, word_of(cell), 0, u64::from(number) + 1)
}

/// Takes the value out of the slot, and lays the slot back.
fn lift<X, V, K, P: Protocol<X, V, K>>(
    board: &Board<X, V, K, P>,
    seat: &mut Token<X, V>,
    cell: usize,
) -> X
    requires board { (seat.old.table_id ≡ board.now.table_id) × (cell < board.now.table_id.slots) × HasWords board.now.table_id }
    requires moving { (x : X) × IsMoving cell (Some x) seat.old.me }
    ensures board { (seat.new.table_id ≡ seat.old.table_id) × (seat.new.id ≡ seat.old.id) }
    ensures value { seat.old.me.1 ≡ (cell, Some result) ∷ [] }
    ensures seat { seat.new.me ≡ (still seat.old.me.0, []) }
{
    let Some(value) = board.exchange(seat, cell, None) else {
        unreachable!()
    };
    board.load::<Lay>(seat, word_of(cell));
    value
}

/// Takes a turn if it is free, by one try. Else it answers the number of the seat that has it.
pub fn try_take<X, V, K, P: Protocol<X, V, K>, M: Outcome<X, V>>(
    board: &Board<X, V, K, P>,
    seat: &mut Token<X, V>,
    number: u32,
    cell: usize,
) -> Result<X, u32>
    requires board { (seat.old.table_id ≡ board.now.table_id) × (cell < board.now.table_id.slots) × HasWords board.now.table_id }
    requires resting { IsResting number seat.old.me }
    requires no_turn { NoTurn seat.old.me.0.taken cell }
    requires rule { TakesTurn (P.holds board.now.key) board.now.table_id.slots number seat.old.me.0.taken seat.old.me.0.client cell M.then }
    ensures board { (seat.new.table_id ≡ seat.old.table_id) × (seat.new.id ≡ seat.old.id) }
    ensures ok { IfOk result (λ value. HasTaken M.then cell seat.old.me value seat.new.me) }
    ensures err { IfErr result (λ other. IsMissed seat.old.me cell other seat.new.me) }
{
    let found = attempt::<X, V, K, P, M>(board, seat, number, cell);
    if found == 0 {
        Ok(lift(board, seat, cell))
    } else {
        Err((found - 1) as u32)
    }
}

/// How often a turn that is another's is looked at again before other threads are let run.
const LOOKS: u32 = 20;

/// How often they are let run before a sleep: to be woken costs more than most turns take.
const YIELDS: u32 = 100;

/// Looks at a turn again until it is given back, or so many times.
fn look_again<X, V, K, P: Protocol<X, V, K>>(board: &Board<X, V, K, P>, cell: usize) -> bool
    requires { (cell < board.now.table_id.slots) × HasWords board.now.table_id }
{
    for _ in 0..LOOKS {
        if board.peek(word_of(cell)) == 0 {
            return true;
        }
        spin_loop();
    }
    false
}

/// Lets other threads run until a turn is given back, or so many times.
fn yield_for<X, V, K, P: Protocol<X, V, K>>(board: &Board<X, V, K, P>, cell: usize) -> bool
    requires { (cell < board.now.table_id.slots) × HasWords board.now.table_id }
{
    for _ in 0..YIELDS {
        yield_now();
        if board.peek(word_of(cell)) == 0 {
            return true;
        }
    }
    false
}

/// Sleeps while the turn is this seat's, which its word tells by the seat's number plus 1.
fn sleep<X, V, K, P: Protocol<X, V, K>, R: Wait>(
    rt: &R,
    board: &Board<X, V, K, P>,
    sleepers: &Sleepers,
    cell: usize,
    word: u32,
)
    requires { (cell < board.now.table_id.slots) × HasWords board.now.table_id }
{
    sleepers.come(cell);
    board.park(rt, word_of(cell), word);
    sleepers.leave(cell);
}

/// Waits a while for a turn that is another's: it looks again some times, lets others run some times, and then sleeps.
fn rest<X, V, K, P: Protocol<X, V, K>, R: Wait>(
    rt: &R,
    board: &Board<X, V, K, P>,
    sleepers: &Sleepers,
    cell: usize,
    word: u32,
)
    requires { (cell < board.now.table_id.slots) × HasWords board.now.table_id }
{
    if !look_again(board, cell) && !yield_for(board, cell) {
        sleep(rt, board, sleepers, cell, word);
    }
}

/// Takes a turn. While it is another's, it waits, and tries again.
pub fn take<X, V, K, P: Protocol<X, V, K>, M: Outcome<X, V>, R: Wait>(
    rt: &R,
    board: &Board<X, V, K, P>,
    sleepers: &Sleepers,
    seat: &mut Token<X, V>,
    number: u32,
    cell: usize,
) -> X
    requires board { (seat.old.table_id ≡ board.now.table_id) × (cell < board.now.table_id.slots) × HasWords board.now.table_id }
    requires resting { IsResting number seat.old.me }
    requires no_turn { NoTurn seat.old.me.0.taken cell }
    requires rule { TakesTurn (P.holds board.now.key) board.now.table_id.slots number seat.old.me.0.taken seat.old.me.0.client cell M.then }
    ensures board { (seat.new.table_id ≡ seat.old.table_id) × (seat.new.id ≡ seat.old.id) }
    ensures taken { IsTakenInTheEnd M.then cell seat.old.me result seat.new.me }
{
    for _ in rt.forever() {
        match try_take::<X, V, K, P, M>(board, seat, number, cell) {
            Ok(value) => return value,
            Err(other) => {
                rest(rt, board, sleepers, cell, other + 1);
            }
        }
    }
    unreachable!()
}

/// Picks up the empty slot of a cell.
fn pick<X, V, K, P: Protocol<X, V, K>>(
    board: &Board<X, V, K, P>,
    seat: &mut Token<X, V>,
    number: u32,
    cell: usize,
)
    requires board { (seat.old.table_id ≡ board.now.table_id) × (cell < board.now.table_id.slots) × HasWords board.now.table_id }
    requires resting { IsResting number seat.old.me }
    requires turn { (x : X) × HasTurn seat.old.me.0.taken cell x }
    ensures board { (seat.new.table_id ≡ seat.old.table_id) × (seat.new.id ≡ seat.old.id) }
    ensures moving { seat.new.me ≡ (moving_at cell seat.old.me.0, (cell, None) ∷ seat.old.me.1) }
{
    board.load::<Pick>(seat, word_of(cell));
}

/// Picks up the empty slot of a cell, and puts the value in.
fn fill<X, V, K, P: Protocol<X, V, K>>(
    board: &Board<X, V, K, P>,
    seat: &mut Token<X, V>,
    number: u32,
    cell: usize,
    value: X,
)
    requires board { (seat.old.table_id ≡ board.now.table_id) × (cell < board.now.table_id.slots) × HasWords board.now.table_id }
    requires resting { IsResting number seat.old.me }
    requires turn { (x : X) × HasTurn seat.old.me.0.taken cell x }
    ensures board { (seat.new.table_id ≡ seat.old.table_id) × (seat.new.id ≡ seat.old.id) }
    ensures moving { seat.new.me ≡ (moving_at cell seat.old.me.0, (cell, Some value) ∷ []) }
{
    pick(board, seat, number, cell);
    let empty = board.exchange(seat, cell, Some(value));
    let None = empty else { unreachable!() };
}

/// Wakes one that sleeps for the turn, if one says so.
fn wake<X, V, K, P: Protocol<X, V, K>>(board: &Board<X, V, K, P>, sleepers: &Sleepers, cell: usize)
    requires { (cell < board.now.table_id.slots) × HasWords board.now.table_id }
{
    if sleepers.are_there(cell) {
        board.wake_one(word_of(cell));
    }
}

/// Gives a turn back with a value, and wakes one that sleeps for it.
pub fn give<X, V, K, P: Protocol<X, V, K>, M: Outcome<X, V>>(
    board: &Board<X, V, K, P>,
    sleepers: &Sleepers,
    seat: &mut Token<X, V>,
    number: u32,
    cell: usize,
    value: X,
)
    requires board { (seat.old.table_id ≡ board.now.table_id) × (cell < board.now.table_id.slots) × HasWords board.now.table_id }
    requires resting { IsResting number seat.old.me }
    requires rule { GivesFrom (P.holds board.now.key) board.now.table_id.slots number seat.old.me.0 cell value M.then }
    ensures board { (seat.new.table_id ≡ seat.old.table_id) × (seat.new.id ≡ seat.old.id) }
    ensures given { IsGiven M.then cell seat.old.me value seat.new.me }
{
    fill(board, seat, number, cell, value);
    board.store::<Give<M>>(seat, word_of(cell), 0);
    wake(board, sleepers, cell);
}

/// Sets the user's word, which stands behind the turns of so many cells.
pub fn mark<X, V, K, P: Protocol<X, V, K>, M: Marking<V>>(
    board: &Board<X, V, K, P>,
    seat: &mut Token<X, V>,
    number: u32,
    cells: usize,
    value: u64,
)
    requires board { (seat.old.table_id ≡ board.now.table_id) × (cells ≡ board.now.table_id.slots) × HasWords board.now.table_id }
    requires resting { IsResting number seat.old.me }
    requires rule { Marks (P.holds board.now.key) board.now.table_id.slots number seat.old.me.0.taken seat.old.me.0.client value M.then }
    ensures board { (seat.new.table_id ≡ seat.old.table_id) × (seat.new.id ≡ seat.old.id) }
    ensures marked { marks_seat M.then (step board.now.table_id.slots cells value 0 none) seat.old.me value seat.new.me }
{
    board.store::<Mark<M>>(seat, word_of(cells), value);
}
