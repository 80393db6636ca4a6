//! Making the device.

ghost use lib.ListN.{get_elem?};
ghost use mathlib.Core.Option.{some};
ghost use Rattle.block_shard.specs.ruled_cells.specs.Calls.{AreNew, IsNew, opened_with, seats_of};
ghost use Rattle.shared_device.specs.Commanding.{actors_of as all_actors};
ghost use Rattle.shared_device.specs.declared.pass.Pass.{Pass};
ghost use Rattle.shared_device.specs.Passing.{IsNewPass};
ghost use Rattle.std.specs.Prelude.{◌≡◌, ◌+◌, ◌*◌, ◌∷◌, ◌<◌, ◌≤◌, IfOk, length, vec_capacity, vec_len};

use crate::actors::actors_of;
use crate::cells::{ControlCell, ShardCell};
use crate::making::fresh_cells;
use crate::pass::Pass;
use crate::shared::Shared;
use block_shard::ruled_cells::Seat;
use dcd_base::{Actor, NoMemory, Stamp};
use region_config::Config;
use std::alloc::Global;

impl Shared {
    /// A fresh device of this configuration, and its passes: host by host and lane by lane, then that of the Fabric Manager,
    /// then that of the sanitizer. Each host has 1 to 4 lanes.
    pub fn start(alloc: Global, config: Config, lanes: u8) -> Result<(Shared, Vec<Pass>), NoMemory>
        requires lanes { (0 < lanes) × (lanes ≤ 4) }
        ensures config { IfOk result (λ made. made.0.config ≡ config) }
        ensures count { IfOk result (λ made. length made.1.items ≡ config.hosts * lanes + 2) }
        ensures seats { IfOk result (λ made. seats_of made.0.cells ≡ length made.1.items) }
        ensures each { IfOk result (λ made. (k : _) (p : Pass) → get_elem? made.1.items k ≡ some p → IsNewPass made.0 (all_actors config lanes) k p) }
    {
        let actors = actors_of(alloc, &config, lanes)?;
        let (cells, seats) = fresh_cells(alloc, &config, &actors)?;
        let shared = Shared {
            alloc,
            cells,
            config,
        };
        let passes = shared.passes(seats, actors.as_slice())?;
        Ok((shared, passes))
    }

    /// The passes by these seats.
    fn passes(
        &self,
        mut seats: Vec<Seat<ControlCell, ShardCell>>,
        actors: &[Actor],
    ) -> Result<Vec<Pass>, NoMemory>
        requires count { length seats.items ≡ length actors.now }
        requires new { AreNew self.now.cells (record { config = self.now.config; actors = actors.now }) seats.items }
        requires opened { (opened_with self.now.cells).actors ≡ actors.now }
        ensures count { IfOk result (λ passes. length passes.items ≡ length actors.now) }
        ensures each { IfOk result (λ passes. (k : _) (p : Pass) → get_elem? passes.items k ≡ some p → IsNewPass self.now actors.now k p) }
    {
        let mut passes = Vec::with_capacity(self.alloc, seats.len())?;
        while let Some(seat) = seats.pop() {
            append_first(&mut passes, self.pass(seat, actors, seats.len()));
        }
        Ok(passes)
    }

    /// The pass by a seat, which has this number.
    fn pass(&self, seat: Seat<ControlCell, ShardCell>, actors: &[Actor], number: usize) -> Pass
        requires number { number < length actors.now }
        requires new { IsNew self.now.cells (record { config = self.now.config; actors = actors.now }) number seat }
        requires opened { (opened_with self.now.cells).actors ≡ actors.now }
        ensures { IsNewPass self.now actors.now number result }
    {
        Pass {
            seat,
            actor: actors[number],
            seen: Stamp {
                number: 0,
                count: 0,
            },
            calls: 0,
        }
    }
}

/// Puts an item before the others, where there is room.
fn append_first<T: Drop>(items: &mut Vec<T>, item: T)
    requires { vec_len items.old < vec_capacity items.old }
    ensures items { items.new.items ≡ item ∷ items.old.items }
    ensures room { vec_capacity items.new ≡ vec_capacity items.old }
{
    let _ = items.insert(0, item);
}
