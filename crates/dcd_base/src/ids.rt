//! Numbers of hosts, regions and granules, each a type of its own.

use std::marker::Model;

/// The number of a host, from 0; a device has at most 16.
#[derive(Clone, Copy, Debug, PartialEq, Eq, PartialOrd, Ord, Hash)]
pub struct HostId(pub u8);

impl Model for HostId {
    ghost use Rattle.std.specs.Prelude.{ℕ};

    ghost Value = { ℕ };

    ghost view = { λ host. host.0 };

    ghost inverse = { λ number. record { 0 = number } };
}

/// The number of a region of dynamic capacity, from 0; a device has at most 8.
#[derive(Clone, Copy, Debug, PartialEq, Eq, PartialOrd, Ord, Hash)]
pub struct RegionId(pub u8);

impl Model for RegionId {
    ghost use Rattle.std.specs.Prelude.{ℕ};

    ghost Value = { ℕ };

    ghost view = { λ region. region.0 };

    ghost inverse = { λ number. record { 0 = number } };
}

/// The number of a granule through the whole device: those of region 0 first, each region by rising address.
#[derive(Clone, Copy, Debug, PartialEq, Eq, PartialOrd, Ord, Hash)]
pub struct Granule(pub u32);

impl Model for Granule {
    ghost use Rattle.std.specs.Prelude.{ℕ};

    ghost Value = { ℕ };

    ghost view = { λ granule. granule.0 };

    ghost inverse = { λ number. record { 0 = number } };
}
