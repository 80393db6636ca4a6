//! The whole journal of a device, lent.

ghost use Rattle.journal_core.specs.Merging.{Rising, merged};
ghost use Rattle.std.specs.Prelude.{◌≡◌, ◌∷◌, []};

use crate::both::Both;
use crate::kept_entries::KeptEntries;
use crate::lent_lists::{LentAccesses, LentEntries};
use journal_core::Access;

/// The entries of a device whose loads and stores are one list, in the order of their stamps.
pub type Whole<'a> = Both<LentEntries<'a>, LentAccesses<'a>>;

/// Lends the entries of a control and a list of loads and stores as one journal. The stamps of both rise.
#[tactic(auto, using(journal_core::proofs::Pushing::merged_of_one))]
pub fn whole<'a>(control: &'a KeptEntries, accesses: &'a [Access]) -> Whole<'a>
    requires control { Rising control.now.entries }
    requires accesses { Rising accesses.now }
    ensures { result ≡ merged control.now.entries (accesses.now ∷ []) }
{
    Both::new(control.lend(), LentAccesses::new(accesses))
}
