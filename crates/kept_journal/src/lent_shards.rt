//! Loads and stores lent out of up to sixteen lists.

ghost use Rattle.kept_journal.specs.Lending.{some_lists};
ghost use Rattle.journal_core.specs.Merging.{AllRise, Rising, in_order, merged};
ghost use Rattle.std.specs.Prelude.{◌≡◌, ◌≤◌, length};

use crate::both::Both;
use crate::kept_entries::KeptEntries;
use crate::lent_lists::{LentAccesses, LentEntries};
use journal_core::Accesses;

type Two<'a> = Both<LentAccesses<'a>, LentAccesses<'a>>;

type Four<'a> = Both<Two<'a>, Two<'a>>;

type Eight<'a> = Both<Four<'a>, Four<'a>>;

/// Loads and stores of up to sixteen lists, in the order of their stamps.
pub type Sixteen<'a> = Both<Eight<'a>, Eight<'a>>;

/// The entries of a device whose loads and stores are up to sixteen lists, in the order of their stamps. The next one
/// is found by five comparisons.
pub type WholeOfShards<'a> = Both<LentEntries<'a>, Sixteen<'a>>;

/// The list at the place, or an empty one.
#[tactic(auto, using(crate::proofs::Parts::list_there, crate::proofs::Parts::list_past, crate::proofs::Parts::rises_there, journal_core::proofs::Rising::rising_none))]
fn one<'a>(lists: &'a [Accesses], at: usize) -> LentAccesses<'a>
    requires rise { AllRise lists.now }
    ensures { result ≡ some_lists lists.now at 1 }
{
    if at < lists.len() {
        LentAccesses::new(lists[at].as_slice())
    } else {
        LentAccesses::new(&[])
    }
}

/// Two lists from the place on.
#[tactic(auto, using(crate::proofs::Parts::pair_of_ones))]
fn two<'a>(lists: &'a [Accesses], at: usize) -> Two<'a>
    requires rise { AllRise lists.now }
    requires few { at ≤ 14 }
    ensures { result ≡ in_order (some_lists lists.now at 2) }
{
    Both::new(one(lists, at), one(lists, at + 1))
}

#[tactic(auto, using(crate::proofs::Parts::pair_of_parts))]
fn four<'a>(lists: &'a [Accesses], at: usize) -> Four<'a>
    requires rise { AllRise lists.now }
    requires few { at ≤ 12 }
    ensures { result ≡ in_order (some_lists lists.now at 4) }
{
    Both::new(two(lists, at), two(lists, at + 2))
}

#[tactic(auto, using(crate::proofs::Parts::pair_of_parts))]
fn eight<'a>(lists: &'a [Accesses], at: usize) -> Eight<'a>
    requires rise { AllRise lists.now }
    requires few { at ≤ 8 }
    ensures { result ≡ in_order (some_lists lists.now at 8) }
{
    Both::new(four(lists, at), four(lists, at + 4))
}

/// Lends the entries of a control and up to sixteen lists of loads and stores as one journal. The stamps of each rise.
#[tactic(auto, using(crate::proofs::Parts::whole_of_parts))]
pub fn whole_of_shards<'a>(control: &'a KeptEntries, shards: &'a [Accesses]) -> WholeOfShards<'a>
    requires control { Rising control.now.entries }
    requires shards { AllRise shards.now }
    requires few { length shards.now ≤ 16 }
    ensures { result ≡ merged control.now.entries shards.now }
{
    Both::new(
        control.lend(),
        Both::new(eight(shards, 0), eight(shards, 8)),
    )
}
