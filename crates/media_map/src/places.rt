//! An address as a place, and back.

ghost use Rattle.media_map.specs.Places.{EveryHostHas, IsPlace, IsWord, NoOtherWordAt, address_of, has_address, locate, place_in, region_at};
ghost use Rattle.region_config.specs.Granules.{base_of, regions_of};
ghost use Rattle.region_config.specs.Soundness.{IsSound};
ghost use Rattle.std.specs.List.{find};
ghost use Rattle.std.specs.Prelude.{◌≡◌, ◌+◌, ◌-◌, ◌^◌, ◌<◌, IfOk, IfSome, IsTrue, length, true};

use crate::bounds::bounds_of;
use region_config::Config;
use region_config::dcd_base::{AccessFault, Granule, HostId, Place, RegionId};

/// The place of the host's address.
///
/// `Misaligned` where the address is no multiple of 8, and else `OutsideRegions` where no region of the host
/// has it within its length. It is never `NotGranted`: who holds the granule is not asked.
pub fn locate(config: &Config, host: HostId, dpa: u64) -> Result<Place, AccessFault>
    requires { host < config.now.hosts }
    ensures value { result ≡ locate config.now host dpa }
    ensures placed { IfOk result (λ p. IsPlace config.now host dpa p) }
    ensures only { (p : Place) → IsPlace config.now host dpa p → result ≡ Ok p }
    ensures word { IfOk result (λ p. IsWord config.now p) }
    ensures back { IfOk result (λ p. address_of config.now host p ≡ dpa) }
{
    if dpa % 8 != 0 {
        return Err(AccessFault::Misaligned);
    }
    match region_at(config, host, dpa) {
        Some(region) => Ok(place_in(config, host, dpa, region)),
        None => Err(AccessFault::OutsideRegions),
    }
}

/// The host's address of the word, a multiple of 8 below 2^52.
///
/// No other word of the device has this address for the host, and the same offset in another host's region is
/// the same word.
pub fn dpa_of(config: &Config, host: HostId, place: &Place) -> u64
    requires host { host < config.now.hosts }
    requires word { IsWord config.now place.now }
    ensures value { result ≡ address_of config.now host place.now }
    ensures below { result < 2 ^ 52 }
    ensures placed { IsPlace config.now host result place.now }
    ensures back { locate config.now host result ≡ Ok place.now }
    ensures apart { NoOtherWordAt config.now host result place.now }
    ensures same { EveryHostHas config.now place.now (result - base_of config.now host place.now.region) }
{
    address_of(config, host, place)
}

/// The address by its definition.
fn address_of(config: &Config, host: HostId, place: &Place) -> u64
    requires host { host < config.now.hosts }
    requires word { IsWord config.now place.now }
    ensures value { result ≡ address_of config.now host place.now }
    ensures sound { IsSound config.now }
{
    let region = place.region;
    let behind = place.granule.0 - config.granules_of(region).first.0;
    config.base(host, region) + u64::from(behind) * config.granule_size(region) + 8 * place.word
}

/// The region that has the host's address within its length; None exactly where none has it.
pub fn region_at(config: &Config, host: HostId, dpa: u64) -> Option<RegionId>
    requires { host < config.now.hosts }
    ensures value { result ≡ find (has_address config.now host dpa) (regions_of config.now) }
    ensures known { IfSome result (λ r. r < length config.now.regions) }
    ensures within { IfSome result (λ r. IsTrue (has_address config.now host dpa r)) }
    ensures sound { IsSound config.now }
{
    for number in 0..config.regions() {
        let region = RegionId(number);
        if has_address(config, host, dpa, region) {
            return Some(region);
        }
    }
    None
}

/// Whether the region has the host's address within its length. It is the only one then.
pub fn has_address(config: &Config, host: HostId, dpa: u64, region: RegionId) -> bool
    requires host { host < config.now.hosts }
    requires region { region < length config.now.regions }
    ensures value { result ≡ has_address config.now host dpa region }
    ensures only { result ≡ true → region_at config.now host dpa ≡ region }
{
    // That regions lie apart, which a configuration says of itself where it is read.
    let _regions = config.regions();
    bounds_of(config, host, region).has_address(dpa)
}

/// The place of an address that the region has.
fn place_in(config: &Config, host: HostId, dpa: u64, region: RegionId) -> Place
    requires host { host < config.now.hosts }
    requires region { region < length config.now.regions }
    requires within { IsTrue (has_address config.now host dpa region) }
    ensures { result ≡ place_in config.now host dpa region }
{
    let offset = dpa - config.base(host, region);
    let size = config.granule_size(region);
    let first = config.granules_of(region).first;
    Place {
        region,
        granule: Granule(first.0 + (offset / size) as u32),
        word: offset % size / 8,
    }
}
