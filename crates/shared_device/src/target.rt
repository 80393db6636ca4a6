//! Which shard a load or a store is of.

ghost use Rattle.dcd_base.specs.declared.steps.Actor.TheVariants.{Host};
ghost use Rattle.block_shard.specs.journal_core.specs.Entries.{fits, is_control};
ghost use Rattle.block_shard.specs.shard_laws.specs.Belonging.{asked_at, shard_at as shard_of_place};
ghost use Rattle.shared_device.specs.Visiting.{IsTarget};
ghost use Rattle.std.specs.Prelude.{◌≡◌, ◌<◌, IsTrue, false};

use block_shard::journal_core::Act;
use dcd_base::{AccessFault, Actor, HostId, Place, shard_of};
use media_map::locate;
use region_config::Config;

/// A load or a store of a host that has looked up its place.
#[derive(Clone, Copy, Debug)]
pub(crate) struct Target {
    pub(crate) host: HostId,
    /// The place of its address, or why there is none.
    pub(crate) at: Result<Place, AccessFault>,
    /// The shard of the place, or shard 0 where there is none.
    pub(crate) index: u32,
}

/// Looks up the place of an actor's load or store.
pub(crate) fn target_of(config: &Config, actor: Actor, act: &Act) -> Target
    requires fits { IsTrue (fits config.now.hosts actor act.now) }
    requires access { is_control act.now ≡ false }
    ensures host { actor ≡ Host result.host }
    ensures target { IsTarget config.now act.now result }
{
    let host = host_of(config.hosts(), actor, act);
    let at = locate(config, host, address_of(act));
    Target {
        host,
        at,
        index: index_of(&at),
    }
}

/// The host that loads or stores.
fn host_of(hosts: u8, actor: Actor, act: &Act) -> HostId
    requires fits { IsTrue (fits hosts actor act.now) }
    requires access { is_control act.now ≡ false }
    ensures host { actor ≡ Host result }
    ensures known { result < hosts }
{
    match actor {
        Actor::Host(host) => match act {
            Act::Load(_) => host,
            Act::Store(_, _) => host,
            _ => unreachable!(),
        },
        _ => unreachable!(),
    }
}

/// The address that is asked for.
fn address_of(act: &Act) -> u64
    requires { is_control act.now ≡ false }
    ensures { result ≡ asked_at act.now }
{
    match act {
        Act::Load(dpa) => *dpa,
        Act::Store(dpa, _) => *dpa,
        _ => unreachable!(),
    }
}

/// The shard of a place.
fn index_of(at: &Result<Place, AccessFault>) -> u32
    ensures value { result ≡ shard_of_place at.now }
    ensures below { result < 16 }
{
    match at {
        Ok(place) => shard_of(place.granule),
        Err(_) => 0,
    }
}
