//! Loads and stores, kept small.

ghost use Rattle.journal_core.specs.Accesses.{access_entry, load_said, stored_unless};
ghost use Rattle.journal_core.specs.Seen.{kind_of, seen_reply};
ghost use Rattle.journal_core.specs.declared.acts.Act.{Act};
ghost use Rattle.std.specs.Prelude.{◌≡◌};

use crate::acts::{Act, Reply};
use crate::entries::{Effects, Entry};
use crate::outcome::Effect;
use crate::seen::{ActKind, ReplySeen, StepSeen};
use cci_codec::dcd_base::{AccessFault, Actor, HostId, Seq, Stamp};
use std::alloc::Global;
use std::marker::Model;

/// What was asked for.
#[derive(Clone, Copy, Debug, PartialEq, Eq)]
enum Kind {
    Load,
    Store,
}

/// A load or a store of a host, with what was replied. It has 48 bytes, and takes no memory beside them.
///
/// Contracts see the entry that it is.
#[derive(Debug, Drop)]
pub struct Access {
    pass: u32,
    line: u32,
    dpa: u64,
    /// The word that a load found, or that a store brought.
    word: u64,
    stamp: Stamp,
    host: HostId,
    kind: Kind,
    refused: Option<AccessFault>,
}

impl Model for Access {
    ghost use Rattle.journal_core.specs.Accesses.{access_entry, act_by, reply_by};
    ghost use Rattle.journal_core.specs.declared.entries.Entry.{Entry};

    ghost Value = { Entry };

    ghost view = { λ a. access_entry a.pass a.line a.host (act_by a.kind a.dpa a.word) (reply_by a.kind a.word a.refused) a.stamp };
}

/// Loads and stores in the order in which they happened. Contracts see their entries.
pub type Accesses = Seq<Access>;

impl Access {
    /// A load at a device physical address (DPA): of the word that it found, or why it was refused.
    pub fn load(
        pass: u32,
        line: u32,
        host: HostId,
        dpa: u64,
        found: &Result<u64, AccessFault>,
        stamp: Stamp,
    ) -> Access
        ensures { result ≡ access_entry pass line host (Act.Load dpa) (load_said found.now) stamp }
    {
        match found {
            Ok(word) => Access {
                pass,
                line,
                dpa,
                word: *word,
                stamp,
                host,
                kind: Kind::Load,
                refused: None,
            },
            Err(fault) => Access {
                pass,
                line,
                dpa,
                word: 0,
                stamp,
                host,
                kind: Kind::Load,
                refused: Some(*fault),
            },
        }
    }

    /// A store of a word at a DPA, which was done unless it was refused.
    pub fn store(
        pass: u32,
        line: u32,
        host: HostId,
        dpa: u64,
        word: u64,
        refused: Option<AccessFault>,
        stamp: Stamp,
    ) -> Access
        ensures { result ≡ access_entry pass line host (Act.Store dpa word) (stored_unless refused) stamp }
    {
        Access {
            pass,
            line,
            dpa,
            word,
            stamp,
            host,
            kind: Kind::Store,
            refused,
        }
    }

    /// The number of the pass that did it.
    pub fn pass(&self) -> u32
        ensures { result ≡ self.now.pass }
    {
        self.pass
    }

    /// The line of the script that asked for it, from 1.
    pub fn line(&self) -> u32
        ensures { result ≡ self.now.line }
    {
        self.line
    }

    /// The host that did it.
    pub fn actor(&self) -> Actor
        ensures { result ≡ self.now.actor }
    {
        Actor::Host(self.host)
    }

    /// What was asked.
    pub fn act(&self) -> Act
        ensures { result ≡ self.now.act }
    {
        match self.kind {
            Kind::Load => Act::Load(self.dpa),
            Kind::Store => Act::Store(self.dpa, self.word),
        }
    }

    /// What was replied.
    pub fn reply(&self) -> Reply
        ensures { result ≡ self.now.reply }
    {
        match self.refused {
            Some(fault) => Reply::Refused(fault),
            None => match self.kind {
                Kind::Load => Reply::Word(self.word),
                Kind::Store => Reply::Stored,
            },
        }
    }

    /// What it changed, which is nothing.
    pub fn effects(&self) -> &[Effect]
        ensures { result.now ≡ self.now.effects }
    {
        // An access without its fields would say nothing of its entry.
        let _kind = self.kind;
        &[]
    }

    /// When it happened.
    pub fn stamp(&self) -> Stamp
        ensures { result ≡ self.now.stamp }
    {
        self.stamp
    }

    /// An entry of its own, with all of this.
    pub fn entry(&self, alloc: Global) -> Entry
        ensures { result ≡ self.now }
    {
        Entry {
            pass: self.pass,
            line: self.line,
            actor: self.actor(),
            act: self.act(),
            reply: self.reply(),
            effects: Effects::new(alloc),
            stamp: self.stamp,
        }
    }

    /// What the line of a printed journal is made of.
    #[inline]
    pub fn seen(&self) -> StepSeen<'_>
        ensures line { result.line ≡ self.now.line }
        ensures actor { result.actor ≡ self.now.actor }
        ensures kind { result.kind ≡ kind_of self.now.act }
        ensures reply { seen_reply result.reply ≡ self.now.reply }
    {
        StepSeen {
            line: self.line,
            actor: self.actor(),
            kind: self.act_kind(),
            reply: self.reply_seen(),
        }
    }

    fn act_kind(&self) -> ActKind
        ensures { result ≡ kind_of self.now.act }
    {
        match self.kind {
            Kind::Load => ActKind::Load,
            Kind::Store => ActKind::Store,
        }
    }

    /// What was replied.
    fn reply_seen(&self) -> ReplySeen<'_>
        ensures { seen_reply result ≡ self.now.reply }
    {
        match self.refused {
            Some(fault) => ReplySeen::Refused(fault),
            None => match self.kind {
                Kind::Load => ReplySeen::Word(self.word),
                Kind::Store => ReplySeen::Stored,
            },
        }
    }
}
