//! What a control tells of a host's extents in a region.

ghost use Rattle.device_plain.specs.device_rules.specs.Hosts.{block_of};
ghost use Rattle.journal_core.specs.Entries.{effects};
ghost use Rattle.pool_planner.specs.Naming.{IsPlaced};
ghost use Rattle.plan_rules.specs.Holding.{blocks_held as held_by, extents_in_region as extents_held};
ghost use Rattle.std.specs.Prelude.{◌≡◌, ◌+◌, ◌*◌, ◌^◌, ◌<◌, ◌≤◌, All, IfOk, length};

use crate::{blocks_in, extents_in_region};
use dcd_base::{Extents, HostId, NoMemory, RegionId};
use device_plain::control_core::Control;
use plan_rules::Demand;
use std::alloc::Global;

/// The host's accepted extents in the region, in the order of its list.
pub(crate) fn held_extents(
    alloc: Global,
    control: &Control,
    host: HostId,
    region: RegionId,
) -> Result<Extents, NoMemory>
    requires { host < control.now.config.hosts }
    ensures those { IfOk result (λ xs. xs ≡ extents_held control.now.config host region (effects control.now.entries)) }
    ensures few { IfOk result (λ xs. length xs ≤ 64) }
    ensures ends { IfOk result (λ xs. All (λ x. x.start + x.length < 2 ^ 64) xs) }
{
    // What every legal journal keeps bounds the extents.
    let _entries = control.entries();
    let config = control.first_config();
    let _hosts = config.hosts();
    let extents = extents_in_region(alloc, config, host, region, control.accepted(host))?;
    Ok(extents)
}

/// The present block size of the region, in bytes.
pub(crate) fn block_size(control: &Control, region: RegionId) -> u64
    requires { region < length control.now.config.regions }
    ensures value { result ≡ block_of control.now.config region (effects control.now.entries) }
    ensures some { 0 < result }
{
    control.config().region(region).block
}

/// How many blocks the demanded host holds in the demanded region.
pub(crate) fn blocks_held(
    alloc: Global,
    control: &Control,
    demand: &Demand,
) -> Result<u128, NoMemory>
    requires { IsPlaced control.now.config demand.now }
    ensures value { IfOk result (λ blocks. blocks ≡ held_by control.now.config demand.now.host demand.now.region (effects control.now.entries)) }
    ensures fits { IfOk result (λ blocks. blocks * block_of control.now.config demand.now.region (effects control.now.entries) < 2 ^ 128) }
{
    // There are 16 hosts and 8 regions at most.
    let _hosts = control.first_config().hosts();
    let region = RegionId(demand.region as u8);
    let extents = held_extents(alloc, control, HostId(demand.host as u8), region)?;
    Ok(blocks_in(extents.as_slice(), block_size(control, region)))
}
