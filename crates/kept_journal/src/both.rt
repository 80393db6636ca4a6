//! Entries that two lend, as if one did.

ghost use Rattle.kept_journal.specs.Lending.{next_side};
ghost use Rattle.journal_core.specs.Merging.{in_order};
ghost use Rattle.std.specs.Prelude.{◌≡◌, ◌++◌};

use crate::lending::{Lender, Lent, goes_first};
use dcd_base::Stamp;
use std::marker::Model;

/// Which of the two has the next entry.
#[derive(Clone, Copy, Debug, PartialEq, Eq)]
pub(crate) enum Side {
    First,
    Second,
}

/// The side that goes first, by the stamps of the next entries.
#[inline]
fn next_side(first: Option<Stamp>, second: Option<Stamp>) -> Side
    ensures { result ≡ next_side first second }
{
    if goes_first(first, second) {
        Side::First
    } else {
        Side::Second
    }
}

/// The entries of two that lend, by rising stamps; of equal stamps those of the first come first.
///
/// Contracts see those that are still to come, in this order. The next one is found by one comparison, when the one before it
/// is skipped, so one of many that are put together in pairs is found by as many as there are pairs above it.
#[derive(Drop)]
pub struct Both<A: Lender, B: Lender> {
    first: A,
    second: B,
    /// The stamps of their next entries.
    stamp_of_first: Option<Stamp>,
    stamp_of_second: Option<Stamp>,
    /// Which of them goes first.
    next: Side,
}

impl<A: Lender, B: Lender> Model for Both<A, B> {
    ghost use Rattle.kept_journal.specs.Lending.{IsNext};
    ghost use Rattle.journal_core.specs.Merging.{in_order};
    ghost use Rattle.journal_core.specs.declared.entries.Entry.{Entry};
    ghost use Rattle.std.specs.Prelude.{◌++◌, List};

    ghost Value = { List Entry };

    ghost view = { λ b. in_order (A.rest b.first ++ B.rest b.second) };

    ghost invariant = { λ b. IsNext (A.rest b.first) (B.rest b.second) b.stamp_of_first b.stamp_of_second b.next };
}

impl<A: Lender, B: Lender> Both<A, B> {
    /// All entries of both.
    pub fn new(first: A, second: B) -> Both<A, B>
        ensures { result ≡ in_order (A.rest first ++ B.rest second) }
    {
        let stamp_of_first = first.stamp();
        let stamp_of_second = second.stamp();
        Both {
            first,
            second,
            stamp_of_first,
            stamp_of_second,
            next: next_side(stamp_of_first, stamp_of_second),
        }
    }
}

impl<A: Lender, B: Lender> Lender for Both<A, B> {
    ghost rest = { λ b. b };

    #[inline]
    #[tactic(auto, using(crate::proofs::Pairs::stamp_of_first, crate::proofs::Pairs::stamp_of_second, crate::proofs::Pairs::both_rise))]
    fn stamp(&self) -> Option<Stamp> {
        match self.next {
            Side::First => self.stamp_of_first,
            Side::Second => self.stamp_of_second,
        }
    }

    #[inline]
    #[tactic(auto, using(crate::proofs::Pairs::peek_first, crate::proofs::Pairs::peek_second))]
    fn peek(&self) -> Option<Lent<'_>> {
        match self.next {
            Side::First => self.first.peek(),
            Side::Second => self.second.peek(),
        }
    }

    #[inline]
    #[tactic(auto, using(crate::proofs::Pairs::skip_first, crate::proofs::Pairs::skip_second))]
    fn skip(&mut self) {
        match self.next {
            Side::First => {
                self.first.skip();
                self.stamp_of_first = self.first.stamp();
                self.next = next_side(self.stamp_of_first, self.stamp_of_second);
            }
            Side::Second => {
                self.second.skip();
                self.stamp_of_second = self.second.stamp();
                self.next = next_side(self.stamp_of_first, self.stamp_of_second);
            }
        }
    }

    #[tactic(auto, using(crate::proofs::Pairs::length_of_both))]
    fn len(&self) -> u64 {
        self.first.len() + self.second.len()
    }
}
