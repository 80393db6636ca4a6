//! Entries lent out of one list.

ghost use Rattle.kept_journal.specs.Keeping.{entries_of, widths};
ghost use Rattle.journal_core.specs.Merging.{Rising};
ghost use Rattle.std.specs.Prelude.{◌≡◌, ◌≤◌, length};

use crate::kept_steps::Kept;
use crate::lending::{Lender, Lent};
use dcd_base::Stamp;
use journal_core::Access;
use std::alloc::Global;
use std::marker::Model;

/// Entries of a control lent out of where they are kept. Contracts see those that are still to come.
#[derive(Debug, Drop)]
pub struct LentEntries<'a> {
    alloc: Global,
    kept: &'a [Kept],
    /// Those of the kept ones, and maybe more.
    bytes: &'a [u8],
    /// How many entries are before these.
    before: u64,
}

impl<'a> Model for LentEntries<'a> {
    ghost use Rattle.kept_journal.specs.Keeping.{CanBeLent, entries_of};
    ghost use Rattle.journal_core.specs.declared.entries.Entry.{Entry};
    ghost use Rattle.std.specs.Prelude.{List};

    ghost Value = { List Entry };

    ghost view = { λ l. entries_of l.before l.kept.now l.bytes.now };

    ghost invariant = { λ l. CanBeLent l.before l.kept.now l.bytes.now };
}

impl<'a> LentEntries<'a> {
    /// All entries that are kept, with these bytes. Their stamps rise.
    pub(crate) fn new(alloc: Global, kept: &'a [Kept], bytes: &'a [u8]) -> LentEntries<'a>
        requires within { widths kept.now ≤ length bytes.now }
        requires rising { Rising (entries_of 0 kept.now bytes.now) }
        ensures { result ≡ entries_of 0 kept.now bytes.now }
    {
        LentEntries {
            alloc,
            kept,
            bytes,
            before: 0,
        }
    }
}

impl<'a> Lender for LentEntries<'a> {
    ghost rest = { λ l. l };

    #[inline]
    fn stamp(&self) -> Option<Stamp> {
        let kept = self.kept;
        match kept.split_first() {
            Some((first, _)) => Some(first.stamp(self.before + 1)),
            None => None,
        }
    }

    #[inline]
    fn peek(&self) -> Option<Lent<'_>> {
        let kept = self.kept;
        match kept.split_first() {
            Some((first, _)) => {
                let (its, _) = self.bytes.split_at(first.width());
                Some(first.lend(self.alloc, its, self.before + 1))
            }
            None => None,
        }
    }

    #[inline]
    fn skip(&mut self) {
        let kept = self.kept;
        if let Some((first, rest)) = kept.split_first() {
            let (_, others) = self.bytes.split_at(first.width());
            self.kept = rest;
            self.bytes = others;
            self.before += 1;
        }
    }

    fn len(&self) -> u64 {
        self.kept.len() as u64
    }
}

/// Loads and stores lent out of a list of them. Contracts see the entries of those that are still to come.
#[derive(Debug, Drop)]
pub struct LentAccesses<'a> {
    accesses: &'a [Access],
}

impl<'a> Model for LentAccesses<'a> {
    ghost use Rattle.journal_core.specs.Merging.{Rising};
    ghost use Rattle.journal_core.specs.declared.entries.Entry.{Entry};
    ghost use Rattle.std.specs.Prelude.{List};

    ghost Value = { List Entry };

    ghost view = { λ l. l.accesses.now };

    ghost invariant = { λ l. Rising l.accesses.now };
}

impl<'a> LentAccesses<'a> {
    /// All loads and stores of the list, whose stamps rise.
    pub fn new(accesses: &'a [Access]) -> LentAccesses<'a>
        requires { Rising accesses.now }
        ensures { result ≡ accesses.now }
    {
        LentAccesses { accesses }
    }
}

impl<'a> Lender for LentAccesses<'a> {
    ghost rest = { λ l. l };

    #[inline]
    #[tactic(auto, using(crate::proofs::Lists::no_stamp))]
    fn stamp(&self) -> Option<Stamp> {
        let accesses = self.accesses;
        match accesses.split_first() {
            Some((access, _)) => Some(access.stamp()),
            None => None,
        }
    }

    #[inline]
    #[tactic(auto, using(crate::proofs::Lists::no_entry))]
    fn peek(&self) -> Option<Lent<'_>> {
        let accesses = self.accesses;
        match accesses.split_first() {
            Some((access, _)) => Some(Lent::Small(access)),
            None => None,
        }
    }

    #[inline]
    #[tactic(auto, using(crate::proofs::Lists::none_left))]
    fn skip(&mut self) {
        let accesses = self.accesses;
        if let Some((_, rest)) = accesses.split_first() {
            self.accesses = rest;
        }
    }

    fn len(&self) -> u64 {
        self.accesses.len() as u64
    }
}
