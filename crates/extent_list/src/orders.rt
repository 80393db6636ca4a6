//! Lists of extents by their addresses.

ghost use Rattle.extent_list.specs.Apart.{AreFalling, AreRising};
ghost use Rattle.extent_list.specs.Orders.{AreApart};
ghost use Rattle.std.specs.Prelude.{◌≡◌, ◌+◌, ◌^◌, ◌<◌, ◌⊎◌, All, true};

use crate::standing::stand_apart;
use dcd_base::Extent;

/// Whether the extents are known to share no address with one before them, as those of a list by rising or by falling
/// address in which each ends below 2^64. Other lists may be such too.
pub fn are_apart(list: &[Extent]) -> bool
    ensures apart { result ≡ true → AreApart list.now }
    ensures known { AreRising list.now ⊎ AreFalling list.now → All (λ x. x.start + x.length < 2 ^ 64) list.now → result ≡ true }
{
    stand_apart(list)
}
