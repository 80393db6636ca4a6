//! An extent beside those among which it has to lie, and beside those before it.

ghost use Rattle.extent_list.specs.ExtentLists.{lies_in, overlaps};
ghost use Rattle.extent_list.specs.Listing.{is_shareable_at, overlapping};
ghost use Rattle.std.specs.Prelude.{◌≡◌, ◌^◌, ◌<◌, IfSome, None, false, length, position, true};

use crate::pieces::{has_range_in, shares_range_with};
use crate::placing::region_at;
use dcd_base::{Extent, HostId};
use dcd_codes::Rule;
use media_map::region_config::Config;

/// Whether one extent lies in another.
pub(crate) fn lies_in(extent: &Extent, owner: &Extent) -> bool
    ensures { result ≡ lies_in extent.now owner.now }
{
    has_range_in(owner, extent.start, extent.length)
}

/// Whether two extents share an address.
fn overlaps(extent: &Extent, other: &Extent) -> bool
    ensures { result ≡ overlaps extent.now other.now }
{
    shares_range_with(other, extent.start, extent.length)
}

/// The index of the first owner in which the extent lies.
pub(crate) fn first_owner(owners: &[Extent], extent: &Extent) -> Option<usize>
    ensures value { result ≡ position (lies_in extent.now) owners.now }
    ensures known { IfSome result (λ index. index < length owners.now) }
{
    owners.iter().position(|owner| lies_in(extent, owner))
}

/// The rule that an extent breaks which shares an address with one before it: its index, which is their number,
/// and the index of the first of them with which it does.
pub(crate) fn shares_address(before: &[Extent], extent: &Extent) -> Option<Rule>
    requires { length before.now < 2 ^ 32 }
    ensures { result ≡ overlapping before.now extent.now }
{
    match first_sharing(before, extent) {
        Some(with) => Some(Rule::Overlap {
            index: before.len() as u32,
            with: with as u32,
        }),
        None => None,
    }
}

/// The index of the first of these with which the extent shares an address.
fn first_sharing(before: &[Extent], extent: &Extent) -> Option<usize>
    ensures { result ≡ position (overlaps extent.now) before.now }
{
    before.iter().position(|other| overlaps(extent, other))
}

/// Whether the extent shares an address with one of these.
pub(crate) fn shares_some(before: &[Extent], extent: &Extent) -> bool
    ensures some { result ≡ true → overlapping before.now extent.now ≡ None → ⊥ }
    ensures none { result ≡ false → overlapping before.now extent.now ≡ None }
{
    first_sharing(before, extent).is_some()
}

/// Whether the extent begins in a shareable region.
pub(crate) fn is_shareable_at(config: &Config, host: HostId, extent: &Extent) -> bool
    requires { host < config.now.hosts }
    ensures { result ≡ is_shareable_at config.now host extent.now }
{
    config
        .region(region_at(config, host, extent.start))
        .shareable
}
