//! Entries that are lent one after another, from where they are kept.

ghost use Rattle.kept_journal.specs.Lending.{first_entry, first_stamp, goes_first, lent, lent_entry};
ghost use Rattle.journal_core.specs.Merging.{Rising};
ghost use Rattle.journal_core.specs.Seen.{kind_of, seen_reply};
ghost use Rattle.kept_journal.specs.Tokens.{without_extents};
ghost use Rattle.journal_core.specs.declared.entries.Entry.{Entry};
ghost use Rattle.std.specs.Prelude.{◌≡◌, ◌<◌, ◌^◌, IfOk, List, drop, length};

use crate::lent_steps::LentStep;
use crate::without_extents::WithoutExtents;
use dcd_base::{Actor, NoMemory, Stamp};
use journal_core::{Access, Act, Entry, StepSeen};
use std::alloc::Global;

/// An entry that is lent.
#[derive(Clone, Copy, Debug)]
pub enum Lent<'a> {
    /// Any entry.
    Full(&'a Entry),
    /// That of a load or a store.
    Small(&'a Access),
    /// That of a command or a scrub.
    Step(LentStep<'a>),
}

impl Lent<'_> {
    /// An entry of its own, with all of this.
    pub fn copy(&self, alloc: Global) -> Result<Entry, NoMemory>
        ensures { IfOk result (λ copy. copy ≡ lent_entry self.now) }
    {
        match self {
            Lent::Full(entry) => entry.copy(),
            Lent::Small(access) => Ok(access.entry(alloc)),
            Lent::Step(step) => step.entry(),
        }
    }

    /// What the line of a printed journal is made of.
    #[inline]
    pub fn seen(&self) -> StepSeen<'_>
        ensures line { result.line ≡ (lent_entry self.now).line }
        ensures actor { result.actor ≡ (lent_entry self.now).actor }
        ensures kind { result.kind ≡ kind_of (lent_entry self.now).act }
        ensures reply { seen_reply result.reply ≡ (lent_entry self.now).reply }
    {
        match self {
            Lent::Full(entry) => StepSeen {
                line: entry.line,
                actor: entry.actor,
                kind: entry.act.kind(),
                reply: entry.reply.seen(),
            },
            Lent::Small(access) => access.seen(),
            Lent::Step(step) => step.seen(),
        }
    }

    /// The act, as one of its own. Only a command takes memory, for its payload.
    pub fn act(&self) -> Result<Act, NoMemory>
        ensures { IfOk result (λ act. act ≡ (lent_entry self.now).act) }
    {
        match self {
            Lent::Full(entry) => entry.act.copy(),
            Lent::Small(access) => Ok(access.act()),
            Lent::Step(step) => step.act(),
        }
    }

    /// The actor.
    pub fn actor(&self) -> Actor
        ensures { result ≡ (lent_entry self.now).actor }
    {
        match self {
            Lent::Full(entry) => entry.actor,
            Lent::Small(access) => access.actor(),
            Lent::Step(step) => step.actor(),
        }
    }

    /// Those of the effects that have no extents, one after another. It takes no memory.
    pub fn effects_without_extents(&self) -> WithoutExtents<'_>
        ensures { result ≡ without_extents (lent_entry self.now).effects }
    {
        match self {
            Lent::Full(entry) => WithoutExtents::among(entry.effects.as_slice()),
            Lent::Small(access) => WithoutExtents::among(access.effects()),
            Lent::Step(step) => step.effects_without_extents(),
        }
    }
}

/// Entries that are lent one after another, by rising stamps. It takes no memory, and copies none of them.
pub trait Lender {
    /// The entries that are still to come.
    ghost rest: { Self → List Entry };

    /// The stamp of the next one, or none behind the last.
    fn stamp(&self) -> Option<Stamp>
        ensures value { result ≡ first_stamp (rest self.now) }
        ensures rising { Rising (rest self.now) };

    /// The next one, or none behind the last.
    fn peek(&self) -> Option<Lent<'_>>
        ensures { lent result ≡ first_entry (rest self.now) };

    /// Goes on behind the next one, if there is one.
    fn skip(&mut self)
        ensures { rest self.new ≡ drop 1 (rest self.old) };

    /// How many are still to come.
    fn len(&self) -> u64
        requires { length (rest self.now) < 2 ^ 64 }
        ensures { result ≡ length (rest self.now) };
}

/// Whether what has the first stamp goes before what has the second: it does where the second is not earlier, and before
/// what has none.
pub(crate) fn goes_first(first: Option<Stamp>, second: Option<Stamp>) -> bool
    ensures { result ≡ goes_first first second }
{
    match (first, second) {
        (_, None) => true,
        (None, Some(_)) => false,
        (Some(first), Some(second)) => {
            first.number < second.number
                || (first.number == second.number && first.count <= second.count)
        }
    }
}
