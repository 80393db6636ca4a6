//! Taking the device apart.

ghost use Rattle.block_shard.specs.journal_core.specs.Merging.{AllRise};
ghost use Rattle.block_shard.specs.ruled_cells.specs.Calls.{seats_of};
ghost use Rattle.shared_device.specs.Closing.{AreAllPasses, IsClosed};
ghost use Rattle.std.specs.Prelude.{◌≡◌, ◌≤◌, [], IfErr, IfOk, length, map, vec_capacity};

use crate::cells::{Commands, ControlCell, ShardCell};
use crate::pass::Pass;
use crate::shared::Shared;
use block_shard::journal_core::Accesses;
use block_shard::ruled_cells::Seat;
use control_core::Control;
use dcd_base::NoMemory;
use std::alloc::Global;

/// How many shards a device has.
const SHARDS: usize = 16;

/// Memory for what is taken apart: the seats of the passes, the cells of the row, and their loads and stores.
struct Spare {
    seats: Vec<Seat<ControlCell, ShardCell>>,
    row: Vec<ShardCell>,
    accesses: Vec<Accesses>,
}

impl Spare {
    /// Memory for so many passes.
    fn new(alloc: Global, passes: usize) -> Result<Spare, NoMemory>
        ensures seats { IfOk result (λ spare. (spare.seats.items ≡ []) × (passes ≤ vec_capacity spare.seats)) }
        ensures row { IfOk result (λ spare. (spare.row.items ≡ []) × (16 ≤ vec_capacity spare.row)) }
        ensures accesses { IfOk result (λ spare. (spare.accesses.items ≡ []) × (16 ≤ vec_capacity spare.accesses)) }
    {
        Ok(Spare {
            seats: Vec::with_capacity(alloc, passes)?,
            row: Vec::with_capacity(alloc, SHARDS)?,
            accesses: Vec::with_capacity(alloc, SHARDS)?,
        })
    }
}

/// The seats of the passes, in their order.
fn seats_in(
    passes: Vec<Pass>,
    mut seats: Vec<Seat<ControlCell, ShardCell>>,
) -> Vec<Seat<ControlCell, ShardCell>>
    requires room { (seats.items ≡ []) × (length passes.items ≤ vec_capacity seats) }
    ensures { result.items ≡ map (λ p. p.seat) passes.items }
{
    for pass in passes {
        let Pass {
            seat,
            actor: _,
            seen: _,
            calls: _,
        } = pass;
        seats.push_reserved(seat);
    }
    seats
}

/// The loads and stores of the shards, in their order.
fn accesses_in(row: Vec<ShardCell>, mut accesses: Vec<Accesses>) -> Vec<Accesses>
    requires room { (accesses.items ≡ []) × (length row.items ≤ vec_capacity accesses) }
    ensures { result.items ≡ map (λ s. s.entries) row.items }
{
    for cell in row {
        let ShardCell { shard } = cell;
        accesses.push_reserved(Box::into_inner(shard).into_entries());
    }
    accesses
}

/// The control out of its cell.
fn control_in(cell: ControlCell) -> Control
    ensures { (result.config ≡ cell.config) × (result.entries ≡ cell.entries) }
{
    let ControlCell { commands } = cell;
    let Commands { control, actors: _ } = Box::into_inner(commands);
    control
}

/// Takes the device apart into the memory for it.
fn take_apart(shared: Shared, passes: Vec<Pass>, spare: Spare) -> (Control, Vec<Accesses>)
    requires all { AreAllPasses shared passes.items }
    requires seats { (spare.seats.items ≡ []) × (length passes.items ≤ vec_capacity spare.seats) }
    requires row { (spare.row.items ≡ []) × (16 ≤ vec_capacity spare.row) }
    requires accesses { (spare.accesses.items ≡ []) × (16 ≤ vec_capacity spare.accesses) }
    ensures config { result.0.config ≡ shared.config }
    ensures shards { length result.1.items ≡ 16 }
    ensures rise { AllRise result.1.items }
    ensures journal { IsClosed shared.config (seats_of shared.cells) passes.items result.0.entries result.1.items }
{
    // The configuration is sound.
    let _hosts = shared.config.hosts();
    let Shared {
        alloc: _,
        cells,
        config: _,
    } = shared;
    let Spare {
        seats,
        row,
        accesses,
    } = spare;
    let (first, row) = cells.close_into(row, seats_in(passes, seats));
    (control_in(first), accesses_in(row, accesses))
}

impl Shared {
    /// Takes the device apart, once all its passes came back: the control, and the loads and stores of each of the 16 shards
    /// by rising stamps. `NoMemory` comes before anything is taken apart, and hands all back. No entry is copied.
    pub fn close(
        self,
        passes: Vec<Pass>,
    ) -> Result<(Control, Vec<Accesses>), (NoMemory, Shared, Vec<Pass>)>
        requires all { AreAllPasses self passes.items }
        ensures config { IfOk result (λ left. left.0.config ≡ self.config) }
        ensures shards { IfOk result (λ left. length left.1.items ≡ 16) }
        ensures rise { IfOk result (λ left. AllRise left.1.items) }
        ensures journal { IfOk result (λ left. IsClosed self.config (seats_of self.cells) passes.items left.0.entries left.1.items) }
        ensures kept { IfErr result (λ back. (back.1 ≡ self) × (back.2.items ≡ passes.items)) }
    {
        let Ok(spare) = Spare::new(self.alloc, passes.len()) else {
            return Err((NoMemory, self, passes));
        };
        Ok(take_apart(self, passes, spare))
    }
}
