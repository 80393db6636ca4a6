//! The extents that a host has sent of a list in several messages.

ghost use Rattle.device_commands.specs.device_rules.specs.ResponseOutcomes.{hold, unhold};
ghost use Rattle.std.specs.Prelude.{◌≡◌, ◌++◌, [], IfOk, OnOk};
ghost use Rattle.host_commands.specs.HeldLists.{unheld_by};

use cci_codec::dcd_base::{Extent, Extents, HostId, NoMemory};
use device_commands::Draft;
use device_commands::host_lists::HostLists;
use journal_core::{Effect, Effects, HeldKind};
use std::alloc::Global;

/// The opcodes whose refusal ends a held list: Add Dynamic Capacity Response and Release Dynamic Capacity.
const ADD_RESPONSE: u16 = 0x4802;

const GIVE_BACK: u16 = 0x4803;

/// The extents of a message that is not the last of its list are held, where there are any.
pub(crate) fn held(
    alloc: Global,
    host: HostId,
    kind: HeldKind,
    list: &Extents,
) -> Result<Draft, NoMemory>
    ensures { IfOk result (λ draft. draft ≡ record { payload = []; changes = hold host kind list.now; tags = []; log_records = [] }) }
{
    let mut changes = Effects::new(alloc);
    append_hold(host, kind, list, &mut changes)?;
    Ok(Draft::changing(alloc, changes))
}

/// Puts behind the effects that these extents are held, where there are any.
fn append_hold(
    host: HostId,
    kind: HeldKind,
    list: &Extents,
    effects: &mut Effects,
) -> Result<(), NoMemory>
    ensures { OnOk result (effects.new ≡ effects.old ++ hold host kind list.now) }
{
    if !list.is_empty() {
        effects.push(Effect::Hold(host, kind, list.copy()?))?;
    }
    Ok(())
}

/// What was held is held no longer, where anything was.
pub(crate) fn unheld(
    alloc: Global,
    host: HostId,
    kind: HeldKind,
    held: &[Extent],
) -> Result<Draft, NoMemory>
    ensures { IfOk result (λ draft. draft ≡ record { payload = []; changes = unhold host kind held.now; tags = []; log_records = [] }) }
{
    let mut changes = Effects::new(alloc);
    append_unhold(host, kind, held, &mut changes)?;
    Ok(Draft::changing(alloc, changes))
}

/// Puts behind the effects that what was held is held no longer, where anything was.
pub(crate) fn append_unhold(
    host: HostId,
    kind: HeldKind,
    held: &[Extent],
    effects: &mut Effects,
) -> Result<(), NoMemory>
    ensures { OnOk result (effects.new ≡ effects.old ++ unhold host kind held.now) }
{
    if !held.is_empty() {
        effects.push(Effect::Unhold(host, kind))?;
    }
    Ok(())
}

/// The held list of the command ends, where there is one (of Add Dynamic Capacity Response and Release Dynamic Capacity).
pub fn dropped(
    alloc: Global,
    host: HostId,
    lists: &HostLists,
    opcode: u16,
) -> Result<Effects, NoMemory>
    ensures { IfOk result (λ effects. effects ≡ unheld_by host lists.now opcode) }
{
    let mut effects = Effects::new(alloc);
    if opcode == ADD_RESPONSE {
        append_unhold(host, HeldKind::Responses, lists.responses(), &mut effects)?;
    } else if opcode == GIVE_BACK {
        append_unhold(host, HeldKind::Releases, lists.releases(), &mut effects)?;
    }
    Ok(effects)
}
