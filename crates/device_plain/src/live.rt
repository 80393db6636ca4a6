//! The device without a journal.

ghost use Rattle.control_core.specs.Deciding.{IsShort};
ghost use Rattle.control_core.specs.Pasts.{IsPast};
ghost use Rattle.control_core.specs.Steps.{MayStep};
ghost use Rattle.dcd_base.specs.declared.steps.Actor.{Actor};
ghost use Rattle.journal_core.specs.Entries.{fits};
ghost use Rattle.journal_core.specs.declared.acts.Act.{Act};
ghost use Rattle.device_plain.specs.Lives.{ByEveryLife, CanTake, Changes, IsAlive, IsLife, IsReplyTo, IsRightReply, IsTooLong, LivesOn, TakesEffects, payload_length};
ghost use Rattle.std.specs.Prelude.{◌≡◌, ◌<◌, ◌≤◌, [], IfErr, IfOk, IsTrue, OnErr, OnOk};

use crate::faults::StepFault;
use crate::live_accesses::{granted, loaded, refused_by, store_at, stored, word_at};
use crate::zeroing::zero_all;
use control_core::device_state::host_lists::HostLists;
use control_core::{Decided, LiveControl};
use dcd_base::{Actor, HostId, NoMemory};
use granule_mem::GranuleWords;
use journal_core::{Act, Effects, Reply};
use region_config::Config;
use std::alloc::Global;
use std::marker::Model;

/// The most bytes that the payload of a response has.
const LONGEST: usize = 2048;

/// A Dynamic Capacity Device that takes one step after another and keeps nothing of the past.
///
/// Contracts see the configuration that it was made with, what it keeps, and its words and their holders. What they say
/// of a reply they say by every legal journal that leads to the device, of which there is one at all times.
#[derive(Drop)]
pub struct LiveDevice {
    control: LiveControl,
    words: GranuleWords,
    /// The memory for the lists of a host as a step leaves them.
    after: HostLists,
}

impl Model for LiveDevice {
    ghost use Rattle.device_plain.specs.Lives.{IsWhole, Living, living, without_spare};

    ghost Value = { Living };

    ghost view = { λ d. living d.control.config (without_spare d.control.state) d.words };

    ghost invariant = { λ d. IsWhole (living d.control.config d.control.state d.words) };
}

impl LiveDevice {
    /// A fresh device of this configuration: nobody holds a granule, and all words are 0.
    pub fn new(alloc: Global, config: Config) -> Result<LiveDevice, NoMemory>
        ensures config { IfOk result (λ device. device.config ≡ config) }
        ensures fresh { IfOk result (IsLife []) }
    {
        // A configuration is sound.
        let _hosts = config.hosts();
        let words = GranuleWords::new(alloc, config.granules())?;
        let control = LiveControl::new(alloc, config)?;
        let after = HostLists::new(alloc)?;
        Ok(LiveDevice {
            control,
            words,
            after,
        })
    }

    /// The configuration. Some legal journal leads to the device.
    pub fn first_config(&self) -> &Config
        ensures config { result.now ≡ self.now.config }
        ensures alive { IsAlive self.now }
    {
        self.control.first_config()
    }

    /// What it keeps, beside the words: who holds what, what is offered, and the records of the logs.
    pub fn control(&self) -> &LiveControl
        ensures config { result.now.config ≡ self.now.config }
        ensures pasts { ByEveryLife self.now (λ life. IsPast self.now.config life result.now.state) }
    {
        &self.control
    }

    /// Takes a step and answers its reply. Without memory nothing has changed.
    ///
    /// The act fits its actor.
    pub fn step(&mut self, actor: Actor, act: &Act) -> Result<Reply, NoMemory>
        requires { IsTrue (fits self.old.config.hosts actor act.now) }
        ensures config { self.new.config ≡ self.old.config }
        ensures reply { IfOk result (IsRightReply self.old actor act.now) }
        ensures kind { IfOk result (IsReplyTo act.now) }
        ensures short { IfOk result IsShort }
        ensures led { OnOk result (LivesOn self.old self.new actor act.now) }
        ensures kept { OnErr result (self.new ≡ self.old) }
    {
        match self.step_within(actor, act, LONGEST) {
            Ok(reply) => Ok(reply),
            Err(StepFault::NoMemory) => Err(NoMemory),
            Err(StepFault::TooLong(_)) => unreachable!(),
        }
    }

    /// Takes a step as `step` does, unless its reply is a response with a payload of more than `most` bytes: then nothing
    /// has changed.
    ///
    /// The act fits its actor.
    pub fn step_within(&mut self, actor: Actor, act: &Act, most: usize) -> Result<Reply, StepFault>
        requires { IsTrue (fits self.old.config.hosts actor act.now) }
        ensures config { self.new.config ≡ self.old.config }
        ensures reply { IfOk result (IsRightReply self.old actor act.now) }
        ensures kind { IfOk result (IsReplyTo act.now) }
        ensures short { IfOk result IsShort }
        ensures within { IfOk result (λ reply. payload_length reply ≤ most) }
        ensures led { OnOk result (LivesOn self.old self.new actor act.now) }
        ensures too_long { IfErr result (IsTooLong self.old actor act.now most) }
        ensures kept { OnErr result (self.new ≡ self.old) }
    {
        let mut changed = Effects::new(self.control.allocator());
        self.step_telling(actor, act, most, &mut changed)
    }

    /// Takes a step as `step_within` does, and leaves in the list what it changed: nothing where no step was taken.
    ///
    /// The act fits its actor.
    pub fn step_telling(
        &mut self,
        actor: Actor,
        act: &Act,
        most: usize,
        changed: &mut Effects,
    ) -> Result<Reply, StepFault>
        requires { IsTrue (fits self.old.config.hosts actor act.now) }
        ensures config { self.new.config ≡ self.old.config }
        ensures reply { IfOk result (IsRightReply self.old actor act.now) }
        ensures kind { IfOk result (IsReplyTo act.now) }
        ensures short { IfOk result IsShort }
        ensures within { IfOk result (λ reply. payload_length reply ≤ most) }
        ensures led { OnOk result (LivesOn self.old self.new actor act.now) }
        ensures changed { OnOk result (Changes self.old actor act.now changed.new) }
        ensures nothing { OnErr result (changed.new ≡ []) }
        ensures too_long { IfErr result (IsTooLong self.old actor act.now most) }
        ensures kept { OnErr result (self.new ≡ self.old) }
    {
        changed.clear();
        match act {
            Act::Command(_) => self.answered(actor, act, most, changed),
            Act::Scrub(_) => self.answered(actor, act, most, changed),
            Act::Load(dpa) => match actor {
                Actor::Host(host) => Ok(self.load(host, *dpa)),
                _ => unreachable!(),
            },
            Act::Store(dpa, value) => match actor {
                Actor::Host(host) => Ok(self.store(host, *dpa, *value)?),
                _ => unreachable!(),
            },
        }
    }

    /// Takes a command or a scrub, unless its reply is too long, and leaves in the list, which is empty, what it changed.
    fn answered(
        &mut self,
        actor: Actor,
        act: &Act,
        most: usize,
        changed: &mut Effects,
    ) -> Result<Reply, StepFault>
        requires may { MayStep self.old.config actor act.now }
        requires empty { changed.old ≡ [] }
        ensures config { self.new.config ≡ self.old.config }
        ensures reply { IfOk result (IsRightReply self.old actor act.now) }
        ensures kind { IfOk result (IsReplyTo act.now) }
        ensures short { IfOk result IsShort }
        ensures within { IfOk result (λ reply. payload_length reply ≤ most) }
        ensures led { OnOk result (LivesOn self.old self.new actor act.now) }
        ensures changed { OnOk result (Changes self.old actor act.now changed.new) }
        ensures nothing { OnErr result (changed.new ≡ []) }
        ensures too_long { IfErr result (IsTooLong self.old actor act.now most) }
        ensures kept { OnErr result (self.new ≡ self.old) }
    {
        let decided = self.control.decide(&actor, act, &mut self.after)?;
        let Decided { reply, effects } = decided;
        let length = length_of(&reply);
        if length > most {
            return Err(StepFault::TooLong(length));
        }
        self.take(&effects)?;
        *changed = effects;
        Ok(reply)
    }

    /// Enters the effects of a step.
    fn take(&mut self, new: &Effects) -> Result<(), NoMemory>
        requires { CanTake self.old new.now }
        ensures config { self.new.config ≡ self.old.config }
        ensures taken { OnOk result (TakesEffects self.old self.new new.now) }
        ensures kept { OnErr result (self.new ≡ self.old) }
    {
        self.control.make_room()?;
        zero_all(&mut self.words, new.as_slice());
        self.control.enter(new.as_slice());
        Ok(())
    }

    /// What a host reads. It changes nothing.
    fn load(&self, host: HostId, dpa: u64) -> Reply
        requires { host < self.now.config.hosts }
        ensures reply { IsRightReply self.now (Actor.Host host) (Act.Load dpa) result }
        ensures kind { IsReplyTo (Act.Load dpa) result }
        ensures short { IsShort result }
        ensures within { payload_length result ≡ 0 }
        ensures led { LivesOn self.now self.now (Actor.Host host) (Act.Load dpa) }
    {
        let place = granted(&self.control, host, dpa);
        loaded(&word_at(&self.words, &place))
    }

    /// Takes a store of a host.
    fn store(&mut self, host: HostId, dpa: u64, value: u64) -> Result<Reply, NoMemory>
        requires { host < self.old.config.hosts }
        ensures config { self.new.config ≡ self.old.config }
        ensures reply { IfOk result (IsRightReply self.old (Actor.Host host) (Act.Store dpa value)) }
        ensures kind { IfOk result (IsReplyTo (Act.Store dpa value)) }
        ensures short { IfOk result IsShort }
        ensures within { IfOk result (λ reply. payload_length reply ≡ 0) }
        ensures led { OnOk result (LivesOn self.old self.new (Actor.Host host) (Act.Store dpa value)) }
        ensures kept { OnErr result (self.new ≡ self.old) }
    {
        let place = granted(&self.control, host, dpa);
        store_at(&mut self.words, &place, value)?;
        Ok(stored(refused_by(&place)))
    }
}

/// How many bytes the payload of a response has; other replies have none.
fn length_of(reply: &Reply) -> usize
    ensures { result ≡ payload_length reply.now }
{
    match reply {
        Reply::Answer(response) => response.payload.as_slice().len(),
        _ => 0,
    }
}
