//! What is left in the logs, in words.

ghost use Rattle.dcd_base.specs.declared.steps.LogId.{LogId};
ghost use Rattle.journal_check.specs.device_state.specs.Updates.{IsOfLog};
ghost use Rattle.explainer.specs.Explanations.{left_for_hosts, left_in_log, left_record, logs_explained, logs_title};
ghost use Rattle.journal_core.specs.Entries.{effects};
ghost use Rattle.journal_check.specs.report.specs.Texts.{host_name, log_name};
ghost use Rattle.std.specs.Prelude.{◌≡◌, ◌++◌, OnOk};

use crate::{write_labelled, write_record};
use dcd_base::{Bytes, HostId, LogId, NoMemory};
use event_records::{Event, encode};
use journal_check::control_core::Control;

/// Appends the name of a host.
#[tactic(auto, unfolding(crate::specs::PartWords::labelled))]
pub(crate) fn write_host(host: HostId, out: &mut Bytes) -> Result<(), NoMemory>
    ensures { OnOk result (out.new ≡ out.old ++ host_name host) }
{
    write_labelled(b"h", u64::from(host.0), out)
}

/// Appends the name of a log.
fn write_log(log: &LogId, out: &mut Bytes) -> Result<(), NoMemory>
    ensures { OnOk result (out.new ≡ out.old ++ log_name log.now) }
{
    match log {
        LogId::Host(host) => write_host(*host, out),
        LogId::Manager => out.extend_from_slice(b"fm"),
    }
}

/// Appends the line of a record.
#[tactic(auto, unfolding(crate::specs::Explanations::left_record))]
fn write_left(log: &LogId, event: &Event, out: &mut Bytes) -> Result<(), NoMemory>
    ensures { OnOk result (out.new ≡ out.old ++ left_record log.now event.now) }
{
    let bytes = encode(event);
    out.extend_from_slice(b"    ")?;
    write_log(log, out)?;
    out.extend_from_slice(b": ")?;
    write_record(bytes.as_slice(), out)?;
    out.push(b'\n')
}

/// Appends a line for each record in the log, the oldest first.
#[tactic(auto, unfolding(crate::specs::Explanations::left_in_log))]
fn write_left_in(control: &Control, log: &LogId, out: &mut Bytes) -> Result<(), NoMemory>
    requires { IsOfLog control.now.config.hosts log.now }
    ensures { OnOk result (out.new ≡ out.old ++ left_in_log (effects control.now.entries) log.now) }
{
    for index in 0..control.records(*log) {
        let event = control.record(*log, index);
        write_left(log, &event, out)?;
    }
    Ok(())
}

/// Appends the records of the hosts' logs.
#[tactic(auto, unfolding(crate::specs::Explanations::left_for_hosts))]
fn write_left_for_hosts(control: &Control, out: &mut Bytes) -> Result<(), NoMemory>
    ensures { OnOk result (out.new ≡ out.old ++ left_for_hosts control.now.config (effects control.now.entries)) }
{
    for host in 0..control.first_config().hosts() {
        write_left_in(control, &LogId::Host(HostId(host)), out)?;
    }
    Ok(())
}

/// Appends the title of the logs.
#[tactic(auto, unfolding(crate::specs::Explanations::logs_title))]
fn write_title(out: &mut Bytes) -> Result<(), NoMemory>
    ensures { OnOk result (out.new ≡ out.old ++ logs_title) }
{
    out.extend_from_slice(b"In the logs:\n")
}

/// Appends all records that are left: those of the hosts' logs, then those of the Fabric Manager's.
#[tactic(auto, unfolding(crate::specs::Explanations::logs_explained))]
pub(crate) fn write_logs(control: &Control, out: &mut Bytes) -> Result<(), NoMemory>
    ensures { OnOk result (out.new ≡ out.old ++ logs_explained control.now.config (effects control.now.entries)) }
{
    write_title(out)?;
    write_left_for_hosts(control, out)?;
    write_left_in(control, &LogId::Manager, out)
}
