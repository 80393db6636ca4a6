//! Extents that have no address in common.

ghost use Rattle.extent_list.specs.Apart.{AreFalling, AreRising, StandApart};
ghost use Rattle.std.specs.Prelude.{◌≡◌, ◌+◌, ◌^◌, ◌<◌, ◌⊎◌, All, true};

use dcd_base::Extent;

/// Whether each extent lies above all addresses of those before it, or below them. So do those of a list by rising or
/// by falling address.
///
/// Lists in another order may stand apart too, and one in which an extent ends behind the last address of 64 bits is
/// not known to.
pub(crate) fn stand_apart(list: &[Extent]) -> bool
    ensures apart { result ≡ true → StandApart list.now }
    ensures known { AreRising list.now ⊎ AreFalling list.now → All (λ x. x.start + x.length < 2 ^ 64) list.now → result ≡ true }
{
    let mut low = u64::MAX;
    let mut high = 0;
    for extent in list {
        let end = match extent.start.checked_add(extent.length) {
            Some(end) => end,
            None => return false,
        };
        if high <= extent.start {
            high = end;
            low = low.min(extent.start);
        } else if end <= low {
            low = extent.start;
        } else {
            return false;
        }
    }
    true
}
