//! Passes.

ghost use lib.ListN.{get_elem?};
ghost use mathlib.Core.Option.{some};
ghost use Rattle.block_shard.specs.ruled_cells.specs.Seats.{NoTurns, seat_view};
ghost use Rattle.std.specs.Prelude.{◌≡◌, None, length};

use crate::cells::{ControlCell, ShardCell};
use block_shard::ruled_cells::Seat;
use dcd_base::{Actor, Stamp};

/// One activity of an actor at a shared device. Between two calls it has no turn.
#[derive(Drop)]
pub struct Pass {
    pub(crate) seat: Seat<ControlCell, ShardCell>,
    pub(crate) actor: Actor,
    pub(crate) seen: Stamp,
    pub(crate) calls: u64,
    ghost resting: { NoTurns seat },
    ghost idle: { (seat_view seat).entry ≡ None },
    ghost seen_is: { (seat_view seat).seen ≡ seen },
    ghost counted: { length (seat_view seat).calls ≡ calls },
    ghost acts: { get_elem? (seat_view seat).about.actors seat.number ≡ some actor },
}

impl Pass {
    /// Its number among the passes of its device, from 0.
    pub fn number(&self) -> u32
        ensures { result ≡ self.now.seat.number }
    {
        self.seat.number()
    }

    /// Who acts by it.
    pub fn actor(&self) -> Actor
        ensures { result ≡ self.now.actor }
    {
        self.actor
    }

    /// The stamp of its last call, (0, 0) at first.
    pub fn seen(&self) -> Stamp
        ensures { result ≡ self.now.seen }
    {
        self.seen
    }

    /// How many calls it has made.
    pub fn calls(&self) -> u64
        ensures { result ≡ length (seat_view self.now.seat).calls }
    {
        self.calls
    }
}
