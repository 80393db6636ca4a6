//! One shard of the device.

ghost use Rattle.dcd_base.specs.declared.steps.Actor.TheVariants.{Host};
ghost use Rattle.shard_laws.specs.device_rules.specs.ChangedRuns.{LiesIn};
ghost use Rattle.journal_core.specs.Accesses.{access_entry};
ghost use Rattle.journal_core.specs.Entries.{is_control};
ghost use Rattle.media_map.specs.Places.{locate};
ghost use Rattle.region_config.specs.Granules.{granule_total};
ghost use Rattle.shard_laws.specs.Accessing.{AddsAccess, IsAccess, stripe_reply};
ghost use Rattle.shard_laws.specs.Belonging.{asked_at, shard_at};
ghost use Rattle.shard_laws.specs.Changing.{IsFreshStripe, MakesChanges};
ghost use Rattle.shard_laws.specs.Clocks.{IsNextStamp, next_stamp as next_of};
ghost use Rattle.shard_laws.specs.Right.{IsRight};
ghost use Rattle.std.specs.Prelude.{◌≡◌, ◌+◌, ◌<◌, ◌^◌, [], All, IfOk, OnErr, OnOk, false};

use crate::accesses::{enter, held_place, next_stamp};
use crate::changing::make_all;
use dcd_base::{AccessFault, Changes, HostId, NoMemory, Place, Stamp};
use granule_mem::Memory;
use journal_core::{Access, Accesses, Act, Reply};
use region_config::Config;
use shard_laws::ruled_cells::Member;
use std::alloc::Global;
use std::marker::Model;

/// Every sixteenth granule of a device: who holds it, its words, and the loads and stores there.
///
/// Contracts see its index, the configuration that it was made with, the media of its granules, its entries and its
/// clock. It has room for a sixteenth of the device's granules, and one more.
#[derive(Drop)]
pub struct Shard {
    alloc: Global,
    index: u32,
    config: Config,
    memory: Memory,
    accesses: Vec<Access>,
    clock: Stamp,
}

impl Model for Shard {
    ghost use Rattle.region_config.specs.Granules.{granule_total};
    ghost use Rattle.shard_laws.specs.Stripes.{Stripe};
    ghost use Rattle.std.specs.Prelude.{◌≡◌, ◌+◌, ◌/◌, ◌<◌, length};

    ghost Value = { Stripe };

    ghost view = { λ s. record { index = s.index; config = s.config; media = s.memory; entries = s.accesses.items; clock = s.clock } };

    ghost invariant = { λ s. (s.index < 16) × (length s.memory.holders ≡ granule_total s.config / 16 + 1) };
}

impl Shard {
    /// The shard of an index, of a device on which nothing was done: nobody holds a granule, and all words are 0.
    pub fn new(alloc: Global, index: u32, config: &Config) -> Result<Shard, NoMemory>
        requires { index < 16 }
        ensures fresh { IfOk result (IsFreshStripe config.now index) }
        ensures right { IfOk result (λ shard. IsRight index shard []) }
    {
        Ok(Shard {
            alloc,
            index,
            config: config.copy()?,
            memory: Memory::new(alloc, config.granules() / 16 + 1)?,
            accesses: Vec::new(alloc),
            clock: Stamp {
                number: 0,
                count: 0,
            },
        })
    }

    /// The stamp of its last load, store or change.
    pub fn clock(&self) -> Stamp
        ensures { result ≡ self.now.clock }
    {
        self.clock
    }

    /// Its loads and stores, in order.
    pub fn entries(&self) -> &[Access]
        ensures { result.now ≡ self.now.entries }
    {
        self.accesses.as_slice()
    }

    /// Its loads and stores, in order.
    pub fn into_entries(self) -> Accesses
        ensures { result ≡ self.entries }
    {
        let Shard {
            alloc,
            index: _,
            config: _,
            memory: _,
            accesses,
            clock: _,
        } = self;
        Accesses::from_vec(alloc, accesses)
    }

    /// Enters a load or a store of a host, and answers its reply and its stamp. Without memory nothing changes.
    ///
    /// `at` is the place of its address, or why there is none. That the place is of this shard is no condition: who holds
    /// shards picks the one of the place, and shard 0 where there is none. The stamp is above the clock and above the one
    /// that the caller has seen, and it is the clock from then on.
    #[tactic(auto, using(crate::proofs::Places::place_inside))]
    pub fn access(
        &mut self,
        seen: Stamp,
        pass: u32,
        line: u32,
        host: HostId,
        act: &Act,
        at: Result<Place, AccessFault>,
    ) -> Result<(Reply, Stamp), NoMemory>
        requires act { is_control act.now ≡ false }
        requires host { host < self.old.config.hosts }
        requires at { at ≡ locate self.old.config host (asked_at act.now) }
        requires seen { seen.count + 1 < 2 ^ 64 }
        requires clock { self.old.clock.count + 1 < 2 ^ 64 }
        ensures reply { IfOk result (λ done. done.0 ≡ stripe_reply self.old host act.now at) }
        ensures stamp { IfOk result (λ done. done.1 ≡ next_of seen self.old.clock) }
        ensures next { OnOk result (IsNextStamp seen self.old.clock self.new.clock) }
        ensures entered { IfOk result
            (λ done. AddsAccess self.old self.new (access_entry pass line host act.now done.0 done.1)) }
        ensures cells { IfOk result (λ done. IsAccess (shard_at at) pass (Host host) self.old self.new) }
        ensures kept { OnErr result (self.new ≡ self.old) }
    {
        // There are 16 hosts at most, and the configuration is sound.
        let _hosts = self.config.hosts();
        self.accesses.reserve(1)?;
        let place = held_place(&self.memory, host, at);
        let stamp = next_stamp(seen, self.clock);
        let access = enter(&mut self.memory, pass, line, host, act, &place, stamp)?;
        let reply = access.reply();
        self.accesses.push_reserved(access);
        self.clock = stamp;
        Ok((reply, stamp))
    }

    /// Makes the changes of the command or scrub of this number, as far as they are of this shard. It takes no memory.
    pub fn change(&mut self, number: u64, changes: &Changes)
        requires { All (LiesIn (granule_total self.old.config)) changes.now }
        ensures { MakesChanges self.old self.new number changes.now }
    {
        let granules = self.config.granules();
        make_all(&mut self.memory, self.index, granules, changes.as_slice());
        self.clock = Stamp { number, count: 0 };
    }
}

impl Member for Shard {
    ghost use Rattle.shard_laws.specs.Right.{stripe_reads};
    ghost use Rattle.shard_laws.proofs.AccessSteps.{stripe_keeps};
    ghost use Rattle.shard_laws.proofs.CommandSteps.{stripe_makes, stripe_stays};
    ghost use Rattle.shard_laws.proofs.Members.{stripe_changes, stripe_enters};

    ghost reads = { stripe_reads };

    ghost enters = { stripe_enters };

    ghost changes = { stripe_changes };

    ghost stays = { stripe_stays };

    ghost keeps = { stripe_keeps };

    ghost makes = { stripe_makes };
}
