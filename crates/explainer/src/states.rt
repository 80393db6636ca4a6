//! The state in words.

ghost use Rattle.dcd_base.specs.declared.steps.LogId.{LogId};
ghost use Rattle.journal_check.specs.device_rules.specs.Counts.{dirty_count, extent_count, free_count, granules_held, missed_of, records_of};
ghost use Rattle.explainer.specs.Explanations.{granules_state, host_state, hosts_state, manager_state, state_explained, state_title};
ghost use Rattle.journal_core.specs.Entries.{effects};
ghost use Rattle.journal_check.specs.report.specs.Texts.{host_name};
ghost use Rattle.explainer.specs.PartWords.{labelled};
ghost use Rattle.std.specs.Prelude.{◌≡◌, ◌<◌, ◌++◌, OnOk, codes, length};

use crate::logs::write_host;
use crate::write_labelled;
use dcd_base::{Bytes, HostId, LogId, NoMemory};
use journal_check::control_core::Control;

/// Appends the name of a host at the start of its line.
fn begin_host(host: HostId, out: &mut Bytes) -> Result<(), NoMemory>
    ensures { OnOk result (out.new ≡ out.old ++ (codes "    " ++ host_name host)) }
{
    out.extend_from_slice(b"    ")?;
    write_host(host, out)
}

/// Appends how many extents the host has.
fn write_extents(control: &Control, host: HostId, out: &mut Bytes) -> Result<(), NoMemory>
    requires { host < control.now.config.hosts }
    ensures { OnOk result (out.new ≡ out.old ++ labelled (codes ": extents ") (extent_count control.now.config host (effects control.now.entries))) }
{
    write_labelled(b": extents ", u64::from(control.extents(host)), out)
}

/// Appends how many granules the host holds.
fn write_granules(control: &Control, host: HostId, out: &mut Bytes) -> Result<(), NoMemory>
    requires { host < control.now.config.hosts }
    ensures { OnOk result (out.new ≡ out.old ++ labelled (codes ", granules ") (granules_held control.now.config host (effects control.now.entries))) }
{
    write_labelled(b", granules ", u64::from(control.granules_held(host)), out)
}

/// Appends how many records are in the host's log.
fn write_records(control: &Control, host: HostId, out: &mut Bytes) -> Result<(), NoMemory>
    requires { host < control.now.config.hosts }
    ensures { OnOk result (out.new ≡ out.old ++ labelled (codes ", records in its log ") (length (records_of (LogId.Host host) (effects control.now.entries)))) }
{
    let count = control.records(LogId::Host(host));
    write_labelled(b", records in its log ", u64::from(count), out)
}

/// Appends the line of a host: its extents, their granules, and the records in its log.
#[tactic(auto, unfolding(crate::specs::Explanations::host_state))]
fn write_host_state(control: &Control, host: HostId, out: &mut Bytes) -> Result<(), NoMemory>
    requires { host < control.now.config.hosts }
    ensures { OnOk result (out.new ≡ out.old ++ host_state control.now.config (effects control.now.entries) host) }
{
    begin_host(host, out)?;
    write_extents(control, host, out)?;
    write_granules(control, host, out)?;
    write_records(control, host, out)?;
    out.push(b'\n')
}

/// Appends a line for each host.
#[tactic(auto, unfolding(crate::specs::Explanations::hosts_state))]
fn write_hosts_state(control: &Control, out: &mut Bytes) -> Result<(), NoMemory>
    ensures { OnOk result (out.new ≡ out.old ++ hosts_state control.now.config (effects control.now.entries)) }
{
    for host in 0..control.first_config().hosts() {
        write_host_state(control, HostId(host), out)?;
    }
    Ok(())
}

/// Appends how many records are in the Fabric Manager's log.
fn write_manager_records(control: &Control, out: &mut Bytes) -> Result<(), NoMemory>
    ensures { OnOk result (out.new ≡ out.old ++ labelled (codes "    fm: records in its log ") (length (records_of LogId.Manager (effects control.now.entries)))) }
{
    let count = control.records(LogId::Manager);
    write_labelled(b"    fm: records in its log ", u64::from(count), out)
}

/// Appends how many records found the Fabric Manager's log full.
fn write_missed(control: &Control, out: &mut Bytes) -> Result<(), NoMemory>
    ensures { OnOk result (out.new ≡ out.old ++ labelled (codes ", missed ") (missed_of LogId.Manager (effects control.now.entries))) }
{
    let count = control.missed(LogId::Manager);
    write_labelled(b", missed ", u64::from(count), out)
}

/// Appends the line of the Fabric Manager's log.
#[tactic(auto, unfolding(crate::specs::Explanations::manager_state))]
fn write_manager_state(control: &Control, out: &mut Bytes) -> Result<(), NoMemory>
    ensures { OnOk result (out.new ≡ out.old ++ manager_state (effects control.now.entries)) }
{
    write_manager_records(control, out)?;
    write_missed(control, out)?;
    out.push(b'\n')
}

/// Appends how many granules are free.
fn write_free(control: &Control, out: &mut Bytes) -> Result<(), NoMemory>
    ensures { OnOk result (out.new ≡ out.old ++ labelled (codes "    granules: free ") (free_count control.now.config (effects control.now.entries))) }
{
    write_labelled(b"    granules: free ", u64::from(control.free()), out)
}

/// Appends how many granules are dirty.
fn write_dirty(control: &Control, out: &mut Bytes) -> Result<(), NoMemory>
    ensures { OnOk result (out.new ≡ out.old ++ labelled (codes ", dirty ") (dirty_count control.now.config (effects control.now.entries))) }
{
    write_labelled(b", dirty ", u64::from(control.dirty()), out)
}

/// Appends the line of the free and the dirty granules.
#[tactic(auto, unfolding(crate::specs::Explanations::granules_state))]
fn write_granules_state(control: &Control, out: &mut Bytes) -> Result<(), NoMemory>
    ensures { OnOk result (out.new ≡ out.old ++ granules_state control.now.config (effects control.now.entries)) }
{
    write_free(control, out)?;
    write_dirty(control, out)?;
    out.push(b'\n')
}

/// Appends the title of the state.
#[tactic(auto, unfolding(crate::specs::Explanations::state_title))]
fn write_title(out: &mut Bytes) -> Result<(), NoMemory>
    ensures { OnOk result (out.new ≡ out.old ++ state_title) }
{
    out.extend_from_slice(b"At the end:\n")
}

/// Appends the state that the control is in.
#[tactic(auto, unfolding(crate::specs::Explanations::state_explained))]
pub(crate) fn write_state(control: &Control, out: &mut Bytes) -> Result<(), NoMemory>
    ensures { OnOk result (out.new ≡ out.old ++ state_explained control.now.config (effects control.now.entries)) }
{
    write_title(out)?;
    write_hosts_state(control, out)?;
    write_manager_state(control, out)?;
    write_granules_state(control, out)
}
