//! The cells of a fresh device, and their seats.

ghost use lib.ListN.{get_elem?};
ghost use mathlib.Core.Option.{some};
ghost use Rattle.block_shard.specs.ruled_cells.specs.Calls.{AreNew, opened_with, row_of, seats_of};
ghost use Rattle.block_shard.specs.shard_laws.specs.Changing.{IsFreshStripe};
ghost use Rattle.block_shard.specs.shard_laws.specs.Right.{IsRight};
ghost use Rattle.block_shard.specs.shard_laws.specs.Stripes.{Stripe};
ghost use Rattle.std.specs.Prelude.{◌≡◌, ◌^◌, ◌<◌, [], IfOk, length};

use crate::cells::{Commands, ControlCell, ShardCell};
use block_shard::Shard;
use block_shard::ruled_cells::{Cells, Seat};
use control_core::Control;
use dcd_base::{Actor, NoMemory, Seq};
use region_config::Config;
use std::alloc::Global;

/// How many shards a device has.
const SHARDS: u32 = 16;

/// Fresh cells of this configuration, with a seat for each actor.
pub(crate) fn fresh_cells(
    alloc: Global,
    config: &Config,
    actors: &Seq<Actor>,
) -> Result<
    (
        Cells<ControlCell, ShardCell>,
        Vec<Seat<ControlCell, ShardCell>>,
    ),
    NoMemory,
>
    requires count { (0 < length actors.now) × (length actors.now < 2 ^ 32) }
    ensures config { IfOk result (λ made. (opened_with made.0).config ≡ config.now) }
    ensures actors { IfOk result (λ made. (opened_with made.0).actors ≡ actors.now) }
    ensures row { IfOk result (λ made. row_of made.0 ≡ 16) }
    ensures seats { IfOk result (λ made. seats_of made.0 ≡ length actors.now) }
    ensures count { IfOk result (λ made. length made.1.items ≡ length actors.now) }
    ensures new { IfOk result (λ made. AreNew made.0 (record { config = config.now; actors = actors.now }) made.1.items) }
{
    let seats = actors.len() as u32;
    let row = fresh_shards(alloc, config)?;
    let commands = fresh_commands(alloc, config, actors)?;
    match Cells::make(alloc, commands, row, seats) {
        Ok(made) => Ok(made),
        Err(_) => Err(NoMemory),
    }
}

/// A fresh control, and these actors.
fn fresh_commands(
    alloc: Global,
    config: &Config,
    actors: &Seq<Actor>,
) -> Result<ControlCell, NoMemory>
    ensures config { IfOk result (λ cell. cell.config ≡ config.now) }
    ensures entries { IfOk result (λ cell. cell.entries ≡ []) }
    ensures actors { IfOk result (λ cell. cell.actors ≡ actors.now) }
{
    let actors = actors.copy()?;
    let control = Control::new(alloc, config.copy()?)?;
    Ok(ControlCell {
        commands: Box::new(alloc, Commands { control, actors })?,
    })
}

/// The fresh shards, in the order of their indices.
fn fresh_shards(alloc: Global, config: &Config) -> Result<Vec<ShardCell>, NoMemory>
    ensures count { IfOk result (λ row. length row.items ≡ 16) }
    ensures each { IfOk result (λ row. (k : _) (x : Stripe) → get_elem? row.items k ≡ some x → IsFreshStripe config.now k x × IsRight k x []) }
{
    let mut row = Vec::new(alloc);
    for index in 0..SHARDS {
        row.push(fresh_shard(alloc, index, config)?)?;
    }
    Ok(row)
}

fn fresh_shard(alloc: Global, index: u32, config: &Config) -> Result<ShardCell, NoMemory>
    requires { index < 16 }
    ensures { IfOk result (λ cell. IsFreshStripe config.now index cell × IsRight index cell []) }
{
    let shard = Shard::new(alloc, index, config)?;
    Ok(ShardCell {
        shard: Box::new(alloc, shard)?,
    })
}
