//! The control: a configuration and the commands and scrubs so far.

ghost use Rattle.control_core.specs.Steps.{IsNextEntry, MayStep, journal_entry};
ghost use Rattle.device_commands.specs.device_rules.specs.ChangedRuns.{AreChanges, LiesIn};
ghost use Rattle.control_core.specs.Deciding.{AreShort, IsDecidedBy, IsShort};
ghost use Rattle.control_core.specs.Decisions.{only_replied};
ghost use Rattle.device_commands.specs.device_rules.specs.Answers.{answer as answer_to};
ghost use Rattle.device_commands.specs.device_rules.specs.Legal.{Legal};
ghost use Rattle.journal_core.specs.Entries.{effects};
ghost use Rattle.journal_core.specs.Merging.{Rising};
ghost use Rattle.extent_list.specs.media_map.specs.region_config.specs.Granules.{granule_total};
ghost use Rattle.std.specs.Prelude.{◌≡◌, ◌+◌, ◌++◌, ◌∷◌, ◌<◌, ◌≤◌, [], All, IfOk, OnErr, OnOk};

use crate::decided::Decided;
use crate::live::LiveControl;
use crate::plan::Plan;
use cci_codec::dcd_base::{Actor, Boxed, Changes, NoMemory, Stamp};
use device_commands::host_lists::HostLists;
use extent_list::media_map::region_config::Config;
use journal_core::{Act, Effects, Entry, Reply};
use kept_journal::KeptEntries;
use std::alloc::Global;
use std::marker::Model;

/// The commands and scrubs of a device, in order, each with what it replied.
///
/// Contracts see the configuration that it was made with, its entries, and how many more entries it has room for.
#[derive(Drop)]
pub struct Control {
    pub(crate) live: LiveControl,
    entries: KeptEntries,
    /// The memory for the lists of a host as a step leaves them.
    after: HostLists,
}

impl Model for Control {
    ghost use Rattle.control_core.specs.Deciding.{Holds};
    ghost use Rattle.control_core.specs.Steps.{Controlled};
    ghost use Rattle.std.specs.Prelude.{min};

    ghost Value = { Controlled };

    ghost view = { λ c. record {
      config = c.live.config;
      entries = c.entries.entries;
      spare = min c.live.state.tags.spare c.entries.spare;
    } };

    ghost invariant = { λ c. Holds c.live.config c.entries.entries c.live.state };
}

impl Control {
    /// A fresh device of this configuration: nothing is offered, accepted or logged.
    pub fn new(alloc: Global, config: Config) -> Result<Control, NoMemory>
        ensures config { IfOk result (λ control. control.config ≡ config) }
        ensures fresh { IfOk result (λ control. control.entries ≡ []) }
    {
        Ok(Control {
            live: LiveControl::new(alloc, config)?,
            entries: KeptEntries::new(alloc),
            after: HostLists::new(alloc)?,
        })
    }

    /// The configuration that it was made with, whose blocks are the first ones.
    pub fn first_config(&self) -> &Config
        ensures { result.now ≡ self.now.config }
    {
        self.live.first_config()
    }

    /// Its commands and scrubs, in order, with rising stamps. The payload of each response has at most 2,048 bytes.
    pub fn entries(&self) -> &KeptEntries
        ensures value { result.now.entries ≡ self.now.entries }
        ensures legal { Legal self.now.config self.now.entries }
        ensures rising { Rising self.now.entries }
        ensures short { AreShort self.now.entries }
    {
        &self.entries
    }

    /// Takes all the memory that a step needs and decides it. The control is seen as before, but that it has room for
    /// an entry.
    ///
    /// The act is a command or a scrub that fits its actor. It goes into the plan's entry; without memory it is gone. The
    /// plan is for the next `apply` alone.
    pub fn prepare(
        &mut self,
        pass: u32,
        line: u32,
        actor: Actor,
        act: Act,
    ) -> Result<Plan, NoMemory>
        requires { MayStep self.old.config actor act }
        ensures config { self.new.config ≡ self.old.config }
        ensures entries { self.new.entries ≡ self.old.entries }
        ensures room { OnOk result (0 < self.new.spare) }
        ensures spare { self.old.spare ≤ self.new.spare }
        ensures entry { IfOk result (λ plan. plan.entry ≡ journal_entry self.old.config self.old.entries pass line actor act) }
        ensures short { IfOk result (λ plan. IsShort plan.entry.reply) }
        ensures changes { IfOk result (λ plan. AreChanges self.old.config (effects self.old.entries) plan.entry.effects plan.changes) }
        ensures inside { IfOk result (λ plan. All (LiesIn (granule_total self.old.config)) plan.changes) }
    {
        let plan = self.planned(pass, line, actor, act)?;
        self.make_room_for(plan.entry())?;
        Ok(plan)
    }

    /// Enters the step of a plan. Its reply stands in the entry. It takes no memory.
    ///
    /// The plan was prepared on this control, and no other was entered since.
    pub fn apply(&mut self, plan: Plan)
        requires room { 0 < self.old.spare }
        requires next { IsNextEntry self.old plan.entry }
        requires short { IsShort plan.entry.reply }
        ensures config { self.new.config ≡ self.old.config }
        ensures entered { self.new.entries ≡ self.old.entries ++ plan.entry ∷ [] }
        ensures room_left { self.old.spare ≤ self.new.spare + 1 }
    {
        let Plan { entry, changes: _ } = plan;
        self.take(entry);
    }

    /// Takes a step at once, as `apply` does with a plan that `prepare` made, and answers its effects. Without memory the
    /// control is seen as before.
    ///
    /// The act is a command or a scrub that fits its actor. The entry has what it says.
    pub fn step(
        &mut self,
        pass: u32,
        line: u32,
        actor: Actor,
        act: &Act,
    ) -> Result<Effects, NoMemory>
        requires { MayStep self.old.config actor act.now }
        ensures config { self.new.config ≡ self.old.config }
        ensures entered { OnOk result (self.new.entries ≡ self.old.entries ++ journal_entry self.old.config self.old.entries pass line actor act.now ∷ []) }
        ensures kept { OnErr result (self.new.entries ≡ self.old.entries) }
        ensures spare { OnErr result (self.old.spare ≤ self.new.spare) }
        ensures short { OnOk result (IsShort (journal_entry self.old.config self.old.entries pass line actor act.now).reply) }
        ensures effects { IfOk result (λ effects. effects ≡ (answer_to self.old.config self.old.entries actor act.now).1) }
    {
        let decided = self.decide(&actor, act)?;
        if decided.effects.is_empty() {
            self.take_reply(pass, line, actor, act, &decided.reply)?;
            return Ok(decided.effects);
        }
        self.take_step(pass, line, actor, act, &decided)?;
        Ok(decided.effects)
    }

    /// What a step comes to.
    fn decide(&mut self, actor: &Actor, act: &Act) -> Result<Decided, NoMemory>
        requires { MayStep self.old.config actor.now act.now }
        ensures config { self.new.config ≡ self.old.config }
        ensures entries { self.new.entries ≡ self.old.entries }
        ensures spare { self.new.spare ≡ self.old.spare }
        ensures decided { IfOk result (λ d. IsDecidedBy self.new.config self.new.entries actor.now act.now d) }
    {
        self.live.decide(actor, act, &mut self.after)
    }

    /// Takes a step that only replies, which is decided.
    #[inline(always)]
    fn take_reply(
        &mut self,
        pass: u32,
        line: u32,
        actor: Actor,
        act: &Act,
        reply: &Reply,
    ) -> Result<(), NoMemory>
        requires may { MayStep self.old.config actor act.now }
        requires decided { IsDecidedBy self.old.config self.old.entries actor act.now (only_replied reply.now) }
        ensures config { self.new.config ≡ self.old.config }
        ensures entered { OnOk result (self.new.entries ≡ self.old.entries ++ journal_entry self.old.config self.old.entries pass line actor act.now ∷ []) }
        ensures kept { OnErr result (self.new.entries ≡ self.old.entries) }
        ensures spare { OnErr result (self.old.spare ≤ self.new.spare) }
    {
        self.entries.append_quiet(pass, line, actor, act, reply)?;
        Ok(())
    }

    /// Takes a step that may change something, which is decided.
    #[inline(never)]
    fn take_step(
        &mut self,
        pass: u32,
        line: u32,
        actor: Actor,
        act: &Act,
        decided: &Decided,
    ) -> Result<(), NoMemory>
        requires may { MayStep self.old.config actor act.now }
        requires decided { IsDecidedBy self.old.config self.old.entries actor act.now decided.now }
        ensures config { self.new.config ≡ self.old.config }
        ensures entered { OnOk result (self.new.entries ≡ self.old.entries ++ journal_entry self.old.config self.old.entries pass line actor act.now ∷ []) }
        ensures kept { OnErr result (self.new.entries ≡ self.old.entries) }
        ensures spare { OnErr result (self.old.spare ≤ self.new.spare) }
    {
        self.make_room()?;
        self.append(pass, line, actor, act, decided)
    }

    /// Enters a step that is decided so, with its next entry.
    #[inline(always)]
    fn append(
        &mut self,
        pass: u32,
        line: u32,
        actor: Actor,
        act: &Act,
        decided: &Decided,
    ) -> Result<(), NoMemory>
        requires room { 0 < self.old.spare }
        requires may { MayStep self.old.config actor act.now }
        requires decided { IsDecidedBy self.old.config self.old.entries actor act.now decided.now }
        ensures config { self.new.config ≡ self.old.config }
        ensures entered { OnOk result (self.new.entries ≡ self.old.entries ++ journal_entry self.old.config self.old.entries pass line actor act.now ∷ []) }
        ensures kept { OnErr result (self.new.entries ≡ self.old.entries) }
        ensures spare { OnErr result (self.old.spare ≤ self.new.spare) }
    {
        self.entries
            .append(pass, line, actor, act, &decided.reply, &decided.effects)?;
        self.live.enter(decided.effects.as_slice());
        Ok(())
    }

    /// The entry of a step behind the entries so far.
    fn next_entry(
        &self,
        pass: u32,
        line: u32,
        actor: Actor,
        act: Act,
        reply: Reply,
        effects: Effects,
    ) -> Result<Boxed<Entry>, NoMemory>
        requires reply { reply ≡ (answer_to self.now.config self.now.entries actor act).0 }
        requires effects { effects ≡ (answer_to self.now.config self.now.entries actor act).1 }
        ensures { IfOk result (λ entry. entry ≡ journal_entry self.now.config self.now.entries pass line actor act) }
    {
        let entry = Entry {
            pass,
            line,
            actor,
            act,
            reply,
            effects,
            stamp: Stamp {
                number: self.entries.len() as u64 + 1,
                count: 0,
            },
        };
        Boxed::new(self.live.alloc, entry)
    }

    /// Enters the next entry.
    #[inline(always)]
    fn take(&mut self, entry: Boxed<Entry>)
        requires room { 0 < self.old.spare }
        requires next { IsNextEntry self.old entry }
        requires short { IsShort entry.reply }
        ensures config { self.new.config ≡ self.old.config }
        ensures entered { self.new.entries ≡ self.old.entries ++ entry ∷ [] }
        ensures room_left { self.old.spare ≤ self.new.spare + 1 }
    {
        self.live.enter(entry.get().effects.as_slice());
        self.entries.push_reserved(entry);
    }

    /// Makes room for an entry, and for a tag that it opens.
    fn make_room(&mut self) -> Result<(), NoMemory>
        ensures config { self.new.config ≡ self.old.config }
        ensures entries { self.new.entries ≡ self.old.entries }
        ensures room { OnOk result (0 < self.new.spare) }
        ensures spare { self.old.spare ≤ self.new.spare }
    {
        self.entries.make_room()?;
        self.live.make_room()
    }

    /// Makes room for this entry, and for a tag that it opens.
    fn make_room_for(&mut self, entry: &Entry) -> Result<(), NoMemory>
        ensures config { self.new.config ≡ self.old.config }
        ensures entries { self.new.entries ≡ self.old.entries }
        ensures room { OnOk result (0 < self.new.spare) }
        ensures spare { self.old.spare ≤ self.new.spare }
    {
        self.entries.make_room_for(entry)?;
        self.live.make_room()
    }

    /// The step, decided.
    fn planned(&mut self, pass: u32, line: u32, actor: Actor, act: Act) -> Result<Plan, NoMemory>
        requires { MayStep self.old.config actor act }
        ensures config { self.new.config ≡ self.old.config }
        ensures entries { self.new.entries ≡ self.old.entries }
        ensures spare { self.new.spare ≡ self.old.spare }
        ensures entry { IfOk result (λ plan. plan.entry ≡ journal_entry self.old.config self.old.entries pass line actor act) }
        ensures short { IfOk result (λ plan. IsShort plan.entry.reply) }
        ensures changes { IfOk result (λ plan. AreChanges self.old.config (effects self.old.entries) plan.entry.effects plan.changes) }
        ensures inside { IfOk result (λ plan. All (LiesIn (granule_total self.old.config)) plan.changes) }
    {
        let decided = self.decide(&actor, &act)?;
        self.plan(pass, line, actor, act, decided)
    }

    /// The runs whose holders these effects change or whose words they zero, which are the effects of the step.
    #[inline(always)]
    fn changes_by(&self, actor: &Actor, act: &Act, new: &Effects) -> Result<Changes, NoMemory>
        requires may { MayStep self.now.config actor.now act.now }
        requires of_step { new.now ≡ (answer_to self.now.config self.now.entries actor.now act.now).1 }
        ensures changes { IfOk result (λ changes. AreChanges self.now.config (effects self.now.entries) new.now changes) }
        ensures inside { IfOk result (λ changes. All (LiesIn (granule_total self.now.config)) changes) }
    {
        self.live.changes_by(new)
    }

    /// The plan of a step behind the entries so far.
    fn plan(
        &self,
        pass: u32,
        line: u32,
        actor: Actor,
        act: Act,
        decided: Decided,
    ) -> Result<Plan, NoMemory>
        requires may { MayStep self.now.config actor act }
        requires decided { IsDecidedBy self.now.config self.now.entries actor act decided }
        ensures entry { IfOk result (λ plan. plan.entry ≡ journal_entry self.now.config self.now.entries pass line actor act) }
        ensures short { IfOk result (λ plan. IsShort plan.entry.reply) }
        ensures changes { IfOk result (λ plan. AreChanges self.now.config (effects self.now.entries) plan.entry.effects plan.changes) }
        ensures inside { IfOk result (λ plan. All (LiesIn (granule_total self.now.config)) plan.changes) }
    {
        let Decided { reply, effects } = decided;
        let changes = self.changes_by(&actor, &act, &effects)?;
        let entry = self.next_entry(pass, line, actor, act, reply, effects)?;
        Ok(Plan { entry, changes })
    }
}
