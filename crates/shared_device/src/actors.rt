//! Who acts by which pass.

ghost use Rattle.dcd_base.specs.declared.steps.Actor.TheVariants.{Host};
ghost use Rattle.shared_device.specs.Commanding.{actors_of as all_actors};
ghost use Rattle.std.specs.Prelude.{◌≡◌, ◌+◌, ◌*◌, ◌++◌, IfOk, OnOk, length, replicate};

use dcd_base::{Actor, HostId, NoMemory, Seq};
use region_config::Config;
use std::alloc::Global;

/// The actor of each pass: host by host and lane by lane, then the Fabric Manager, then the sanitizer.
pub(crate) fn actors_of(alloc: Global, config: &Config, lanes: u8) -> Result<Seq<Actor>, NoMemory>
    ensures value { IfOk result (λ actors. actors ≡ all_actors config.now lanes) }
    ensures count { IfOk result (λ actors. length actors ≡ config.now.hosts * lanes + 2) }
{
    let mut actors = Vec::new(alloc);
    for host in 0..config.hosts() {
        push_lanes(&mut actors, HostId(host), lanes)?;
    }
    actors.push(Actor::Manager)?;
    actors.push(Actor::Sanitizer)?;
    Ok(Seq::from_vec(alloc, actors))
}

/// The host, once for each of its lanes.
fn push_lanes(actors: &mut Vec<Actor>, host: HostId, lanes: u8) -> Result<(), NoMemory>
    ensures { OnOk result (actors.new.items ≡ actors.old.items ++ replicate lanes (Host host)) }
{
    for _ in 0..lanes {
        actors.push(Actor::Host(host))?;
    }
    Ok(())
}
