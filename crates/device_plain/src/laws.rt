//! The law on lives.

ghost use Rattle.device_plain.specs.Lives.{HasLived, IsLife, Living, TakesSteps, ToldStep};
ghost use Rattle.std.specs.Prelude.{List, []};

use control_core::device_rules::law_exclusive;
use isolation_laws::{law_clean, law_isolated};

/// A fresh device that took steps one after another, each as `LiveDevice::step` says, has lived as it told: a legal journal
/// whose entries have just these actors, acts and replies leads to it. At all its moments no granule of a region that is
/// not shareable has two holders, each reply to a host is the one that it would have alone, and in a sanitized region
/// nothing of one host is left for another. It does nothing.
pub fn law_lives()
    ensures { (first last : Living) → IsLife [] first → (told : List ToldStep) → TakesSteps first told last → HasLived told last }
{
    law_exclusive();
    law_isolated();
    law_clean();
}
