//! What the cells of the device hold. Both are boxes: a turn moves the value out of its slot and into it, and that is a word.

ghost use Rattle.dcd_base.specs.declared.steps.Actor.TheVariants.{Host};
ghost use Rattle.block_shard.specs.journal_core.specs.Accesses.{access_entry};
ghost use Rattle.block_shard.specs.journal_core.specs.Entries.{is_control};
ghost use Rattle.media_map.specs.Places.{locate};
ghost use Rattle.block_shard.specs.shard_laws.specs.Accessing.{AddsAccess, IsAccess};
ghost use Rattle.block_shard.specs.shard_laws.specs.Belonging.{asked_at, shard_at};
ghost use Rattle.block_shard.specs.shard_laws.specs.Clocks.{IsNextStamp};
ghost use Rattle.std.specs.Prelude.{◌≡◌, ◌+◌, ◌<◌, ◌^◌, IfOk, OnErr, OnOk, false};

use block_shard::Shard;
use block_shard::journal_core::{Act, Reply};
use block_shard::ruled_cells::{Chief, Member};
use control_core::Control;
use dcd_base::{AccessFault, Actor, HostId, NoMemory, Place, Seq, Stamp};
use std::marker::Model;

/// The control, and the actor of each pass.
#[derive(Drop)]
pub(crate) struct Commands {
    pub(crate) control: Control,
    pub(crate) actors: Seq<Actor>,
}

/// The first cell.
#[derive(Drop)]
pub struct ControlCell {
    pub(crate) commands: Box<Commands>,
}

impl Model for ControlCell {
    ghost use Rattle.shared_device.specs.Commanding.{Commanding};

    ghost Value = { Commanding };

    ghost view = { λ c. record {
      config = c.commands.value.control.config;
      entries = c.commands.value.control.entries;
      spare = c.commands.value.control.spare;
      actors = c.commands.value.actors;
    } };
}

impl Chief for ControlCell {
    ghost use Rattle.shared_device.specs.Commanding.{commanding_reads};

    ghost reads = { commanding_reads };

    fn count(&self) -> u64 {
        self.commands.as_ref().control.entries().len() as u64
    }
}

/// A cell of the row: a shard.
#[derive(Drop)]
pub struct ShardCell {
    pub(crate) shard: Box<Shard>,
}

impl Model for ShardCell {
    ghost use Rattle.block_shard.specs.shard_laws.specs.Stripes.{Stripe};

    ghost Value = { Stripe };

    ghost view = { λ s. s.shard.value };
}

impl ShardCell {
    /// A load or a store at the shard, as `Shard::access`.
    pub(crate) fn access(
        &mut self,
        seen: Stamp,
        pass: u32,
        line: u32,
        host: HostId,
        act: &Act,
        at: Result<Place, AccessFault>,
    ) -> Result<(Reply, Stamp), NoMemory>
        requires act { is_control act.now ≡ false }
        requires host { host < self.old.config.hosts }
        requires at { at ≡ locate self.old.config host (asked_at act.now) }
        requires seen { seen.count + 1 < 2 ^ 64 }
        requires clock { self.old.clock.count + 1 < 2 ^ 64 }
        ensures next { OnOk result (IsNextStamp seen self.old.clock self.new.clock) }
        ensures entered { IfOk result
            (λ done. AddsAccess self.old self.new (access_entry pass line host act.now done.0 done.1)) }
        ensures cells { IfOk result (λ done. IsAccess (shard_at at) pass (Host host) self.old self.new) }
        ensures kept { OnErr result (self.new ≡ self.old) }
    {
        self.shard.as_mut().access(seen, pass, line, host, act, at)
    }
}

impl Member for ShardCell {
    ghost use Rattle.block_shard.specs.shard_laws.specs.Right.{stripe_reads};
    ghost use Rattle.block_shard.specs.shard_laws.proofs.AccessSteps.{stripe_keeps};
    ghost use Rattle.block_shard.specs.shard_laws.proofs.CommandSteps.{stripe_makes, stripe_stays};
    ghost use Rattle.block_shard.specs.shard_laws.proofs.Members.{stripe_changes, stripe_enters};

    ghost reads = { stripe_reads };

    ghost enters = { stripe_enters };

    ghost changes = { stripe_changes };

    ghost stays = { stripe_stays };

    ghost keeps = { stripe_keeps };

    ghost makes = { stripe_makes };
}
