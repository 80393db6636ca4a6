//! The device of one thread.

ghost use Rattle.control_core.specs.Deciding.{AreShort};
ghost use Rattle.control_core.specs.Steps.{MayStep};
ghost use Rattle.dcd_base.specs.declared.steps.Actor.{Actor};
ghost use Rattle.device_plain.specs.Devices.{Appends, Enters};
ghost use Rattle.device_plain.specs.Numbering.{IsCounted, accesses_of, commands_of};
ghost use Rattle.control_core.specs.device_rules.specs.Legal.{Exclusive, Legal};
ghost use Rattle.journal_core.specs.declared.acts.Act.{Act};
ghost use Rattle.journal_core.specs.Entries.{Each, effects, fits};
ghost use Rattle.journal_core.specs.Merging.{Numbered};
ghost use Rattle.std.specs.Prelude.{◌≡◌, ◌<◌, ◌^◌, [], IfOk, IfSome, IsNone, IsTrue, OnErr, OnOk, length};

use crate::accesses::{reserve, stamp_of};
use crate::{granted, refused_by, store_at, word_at, zero_all};
use control_core::Control;
use control_core::device_rules::law_exclusive;
use control_core::kept_journal::{LentEntries, Whole, whole};
use dcd_base::{Actor, HostId, NoMemory};
use granule_mem::GranuleWords;
use journal_core::{Access, Act, Reply};
use region_config::Config;
use std::alloc::Global;
use std::marker::Model;

/// A Dynamic Capacity Device that takes one step after another.
///
/// Contracts see the configuration that it was made with and its journal, which is legal at all times.
#[derive(Drop)]
pub struct Device {
    control: Control,
    words: GranuleWords,
    /// The loads and stores, in order.
    accesses: Vec<Access>,
    /// How many of them came since the last command or scrub.
    since: u64,
}

impl Model for Device {
    ghost use Rattle.device_plain.specs.Devices.{Plain};
    ghost use Rattle.device_plain.specs.Keeping.{KeepsBoth};
    ghost use Rattle.journal_core.specs.Merging.{merged};
    ghost use Rattle.std.specs.Prelude.{◌∷◌, []};

    ghost Value = { Plain };

    ghost view = { λ d. record { config = d.control.config; journal = merged d.control.entries (d.accesses.items ∷ []) } };

    ghost invariant = { λ d. KeepsBoth d.control.config d.control.entries d.accesses.items d.words d.since };
}

impl Device {
    /// A fresh device of this configuration, with an empty journal: nobody holds a granule, and all words are 0.
    pub fn new(alloc: Global, config: Config) -> Result<Device, NoMemory>
        ensures config { IfOk result (λ device. device.config ≡ config) }
        ensures fresh { IfOk result (λ device. device.journal ≡ []) }
    {
        // A configuration is sound.
        let _hosts = config.hosts();
        let words = GranuleWords::new(alloc, config.granules())?;
        Ok(Device {
            control: Control::new(alloc, config)?,
            words,
            accesses: Vec::new(alloc),
            since: 0,
        })
    }

    /// The commands and scrubs of the device, in order, and what they leave.
    pub fn control(&self) -> &Control
        ensures config { result.now.config ≡ self.now.config }
        ensures entries { result.now.entries ≡ commands_of self.now.journal }
        ensures effects { effects result.now.entries ≡ effects self.now.journal }
    {
        &self.control
    }

    /// How many steps it has taken.
    #[tactic(auto, using(crate::proofs::Merged::length_of_whole))]
    pub fn len(&self) -> u64
        ensures { result ≡ length self.now.journal }
    {
        self.control.entries().len() as u64 + self.accesses.as_slice().len() as u64
    }

    /// All steps in order where none of them is a load or a store: the control's entries alone, lent.
    pub fn commands(&self) -> Option<LentEntries<'_>>
        ensures all { IfSome result (λ commands. commands ≡ self.now.journal) }
        ensures none { IsNone result → 0 < length (accesses_of self.now.journal) }
    {
        if self.accesses.as_slice().is_empty() {
            Some(self.control.entries().lend())
        } else {
            None
        }
    }

    /// All steps in order, each with what it replied: the control's entries and the loads and stores, lent.
    ///
    /// It is legal: each reply is the one that the entries before it give. No granule of a region that is not shareable
    /// ever has two hosts in it. Commands and scrubs are numbered from 1; an access has the number of the last of them,
    /// or 0, and its count is one more than that of the accesses since.
    pub fn journal(&self) -> Whole<'_>
        ensures value { result ≡ self.now.journal }
        ensures legal { Legal self.now.config self.now.journal }
        ensures exclusive { Exclusive self.now.config self.now.journal }
        ensures numbered { Numbered self.now.journal }
        ensures counted { Each IsCounted self.now.journal }
        ensures short { AreShort self.now.journal }
        ensures few { length self.now.journal < 2 ^ 64 }
    {
        law_exclusive();
        let _steps = self.len();
        whole(self.control.entries(), self.accesses.as_slice())
    }

    /// Takes a step: enters it at the end of the journal and answers its reply. Without memory nothing has changed.
    ///
    /// The act fits its actor. The pass and the line are the caller's own numbers. The journal has a copy of the act.
    pub fn step(&mut self, pass: u32, line: u32, actor: Actor, act: &Act) -> Result<Reply, NoMemory>
        requires { IsTrue (fits self.old.config.hosts actor act.now) }
        ensures entered { IfOk result (Enters self.old self.new pass line actor act.now) }
        ensures kept { OnErr result (self.new ≡ self.old) }
    {
        match act {
            Act::Command(_) => self.answered(pass, line, actor, act),
            Act::Scrub(_) => self.answered(pass, line, actor, act),
            Act::Load(dpa) => match actor {
                Actor::Host(host) => self.load(pass, line, host, *dpa),
                _ => unreachable!(),
            },
            Act::Store(dpa, value) => match actor {
                Actor::Host(host) => self.store(pass, line, host, *dpa, *value),
                _ => unreachable!(),
            },
        }
    }

    /// Takes a step as `step` does, of an act that is handed over. Its reply stands in the journal.
    ///
    /// The act goes into the journal; without memory it is gone.
    pub fn enter(&mut self, pass: u32, line: u32, actor: Actor, act: Act) -> Result<(), NoMemory>
        requires { IsTrue (fits self.old.config.hosts actor act) }
        ensures entered { OnOk result (Appends self.old self.new pass line actor act) }
        ensures kept { OnErr result (self.new ≡ self.old) }
    {
        self.enter_lent(pass, line, actor, &act)
    }

    /// Takes a step as `enter` does, of an act that is lent: the journal has what the act says.
    pub fn enter_lent(
        &mut self,
        pass: u32,
        line: u32,
        actor: Actor,
        act: &Act,
    ) -> Result<(), NoMemory>
        requires { IsTrue (fits self.old.config.hosts actor act.now) }
        ensures entered { OnOk result (Appends self.old self.new pass line actor act.now) }
        ensures kept { OnErr result (self.new ≡ self.old) }
    {
        match act {
            Act::Command(_) => self.enter_command(pass, line, actor, act),
            Act::Scrub(_) => self.enter_command(pass, line, actor, act),
            Act::Load(dpa) => self.enter_load(pass, line, actor, *dpa),
            Act::Store(dpa, value) => self.enter_store(pass, line, actor, *dpa, *value),
        }
    }

    /// Takes a load of a host, whose reply stands in the journal.
    #[inline(never)]
    fn enter_load(&mut self, pass: u32, line: u32, actor: Actor, dpa: u64) -> Result<(), NoMemory>
        requires { IsTrue (fits self.old.config.hosts actor (Act.Load dpa)) }
        ensures entered { OnOk result (Appends self.old self.new pass line actor (Act.Load dpa)) }
        ensures kept { OnErr result (self.new ≡ self.old) }
    {
        match actor {
            Actor::Host(host) => {
                let _reply = self.load(pass, line, host, dpa)?;
                Ok(())
            }
            _ => unreachable!(),
        }
    }

    /// Takes a store of a host, whose reply stands in the journal.
    #[inline(never)]
    fn enter_store(
        &mut self,
        pass: u32,
        line: u32,
        actor: Actor,
        dpa: u64,
        value: u64,
    ) -> Result<(), NoMemory>
        requires { IsTrue (fits self.old.config.hosts actor (Act.Store dpa value)) }
        ensures entered { OnOk result (Appends self.old self.new pass line actor (Act.Store dpa value)) }
        ensures kept { OnErr result (self.new ≡ self.old) }
    {
        match actor {
            Actor::Host(host) => {
                let _reply = self.store(pass, line, host, dpa, value)?;
                Ok(())
            }
            _ => unreachable!(),
        }
    }

    /// Takes a command or a scrub and tells its reply, in a copy that is made before anything changes.
    fn answered(&mut self, pass: u32, line: u32, actor: Actor, act: &Act) -> Result<Reply, NoMemory>
        requires { MayStep self.old.config actor act.now }
        ensures entered { IfOk result (Enters self.old self.new pass line actor act.now) }
        ensures kept { OnErr result (self.new ≡ self.old) }
    {
        let act = act.copy()?;
        let plan = self.control.prepare(pass, line, actor, act)?;
        let reply = plan.entry().reply.copy()?;
        zero_all(&mut self.words, plan.effects().as_slice());
        self.control.apply(plan);
        self.since = 0;
        Ok(reply)
    }

    /// Takes a command or a scrub that is lent.
    fn enter_command(
        &mut self,
        pass: u32,
        line: u32,
        actor: Actor,
        act: &Act,
    ) -> Result<(), NoMemory>
        requires { MayStep self.old.config actor act.now }
        ensures entered { OnOk result (Appends self.old self.new pass line actor act.now) }
        ensures kept { OnErr result (self.new ≡ self.old) }
    {
        let effects = self.control.step(pass, line, actor, act)?;
        zero_all(&mut self.words, effects.as_slice());
        self.since = 0;
        Ok(())
    }

    /// Takes a load of a host.
    fn load(&mut self, pass: u32, line: u32, host: HostId, dpa: u64) -> Result<Reply, NoMemory>
        requires { host < self.old.config.hosts }
        ensures entered { IfOk result (Enters self.old self.new pass line (Actor.Host host) (Act.Load dpa)) }
        ensures kept { OnErr result (self.new ≡ self.old) }
    {
        reserve(&mut self.accesses)?;
        let place = granted(self.control.live(), host, dpa);
        let found = word_at(&self.words, &place);
        let stamp = stamp_of(&self.control, self.since);
        let access = Access::load(pass, line, host, dpa, &found, stamp);
        let reply = access.reply();
        self.since += 1;
        self.accesses.push_reserved(access);
        Ok(reply)
    }

    /// Takes a store of a host.
    fn store(
        &mut self,
        pass: u32,
        line: u32,
        host: HostId,
        dpa: u64,
        value: u64,
    ) -> Result<Reply, NoMemory>
        requires { host < self.old.config.hosts }
        ensures entered { IfOk result (Enters self.old self.new pass line (Actor.Host host) (Act.Store dpa value)) }
        ensures kept { OnErr result (self.new ≡ self.old) }
    {
        reserve(&mut self.accesses)?;
        let place = granted(self.control.live(), host, dpa);
        store_at(&mut self.words, &place, value)?;
        let stamp = stamp_of(&self.control, self.since);
        let access = Access::store(pass, line, host, dpa, value, refused_by(&place), stamp);
        let reply = access.reply();
        self.since += 1;
        self.accesses.push_reserved(access);
        Ok(reply)
    }
}
