//! The lines of the records in the logs, and those of the state.

ghost use Rattle.dcd_base.specs.declared.steps.LogId.{LogId};
ghost use Rattle.control_core.specs.device_state.specs.Updates.{IsOfLog};
ghost use Rattle.journal_core.specs.Entries.{effects};
ghost use Rattle.report.specs.Printing.{Puts};
ghost use Rattle.report.specs.Texts.{all_records, end_line, granules_line, host_line, host_lines, shown_host_records, manager_line, record_line, record_lines, state_lines};
ghost use Rattle.std.specs.Prelude.{◌<◌};

use crate::printing::Printer;
use control_core::Control;
use dcd_base::{HostId, LogId, Sink};
use event_records::{Event, encode};

/// Puts the line of a record: its log and its 256 digits.
#[tactic(auto, using(crate::proofs::Parts::prints_then), unfolding(crate::specs::Texts::record_line))]
fn write_record<K: Sink>(printer: &mut Printer, sink: &mut K, log: &LogId, event: &Event)
    ensures { Puts K.taken K.faults sink.old printer.old sink.new printer.new (record_line log.now event.now) }
{
    printer.put(sink, b"rec");
    printer.write_log(sink, log);
    printer.put(sink, b" ");
    printer.write_hex(sink, encode(event).as_slice());
    printer.end_line(sink);
}

/// Puts a line for each record in the log, the oldest first.
#[tactic(auto, using(crate::proofs::Parts::prints_nothing, crate::proofs::Parts::prints_each), unfolding(crate::specs::Texts::record_lines))]
fn write_log_records<K: Sink>(printer: &mut Printer, sink: &mut K, control: &Control, log: &LogId)
    requires { IsOfLog control.now.config.hosts log.now }
    ensures { Puts K.taken K.faults sink.old printer.old sink.new printer.new (record_lines (effects control.now.entries) log.now) }
{
    for index in 0..control.records(*log) {
        let event = control.record(*log, index);
        write_record(printer, sink, log, &event);
    }
}

/// Puts the records of the hosts' logs.
#[tactic(auto, using(crate::proofs::Parts::prints_nothing, crate::proofs::Parts::prints_each), unfolding(crate::specs::Texts::shown_host_records))]
fn write_host_records<K: Sink>(printer: &mut Printer, sink: &mut K, control: &Control)
    ensures { Puts K.taken K.faults sink.old printer.old sink.new printer.new (shown_host_records control.now.config (effects control.now.entries)) }
{
    for host in 0..control.first_config().hosts() {
        write_log_records(printer, sink, control, &LogId::Host(HostId(host)));
    }
}

/// Puts all records that are left: those of the hosts' logs, then those of the Fabric Manager's.
#[tactic(auto, using(crate::proofs::Parts::prints_then), unfolding(crate::specs::Texts::all_records))]
pub fn write_records<K: Sink>(printer: &mut Printer, sink: &mut K, control: &Control)
    ensures { Puts K.taken K.faults sink.old printer.old sink.new printer.new (all_records control.now.config (effects control.now.entries)) }
{
    write_host_records(printer, sink, control);
    write_log_records(printer, sink, control, &LogId::Manager);
}

/// Puts the line of a host: its extents, their granules, and the records in its log.
#[tactic(auto, using(crate::proofs::Parts::prints_then), unfolding(crate::specs::Texts::host_line))]
fn write_host_line<K: Sink>(printer: &mut Printer, sink: &mut K, control: &Control, host: HostId)
    requires { host < control.now.config.hosts }
    ensures { Puts K.taken K.faults sink.old printer.old sink.new printer.new (host_line control.now.config (effects control.now.entries) host) }
{
    printer.put(sink, b"host");
    printer.write_host(sink, host);
    printer.write_counted(sink, b"extents", u64::from(control.extents(host)));
    printer.write_counted(sink, b"granules", u64::from(control.granules_held(host)));
    printer.write_counted(sink, b"log", u64::from(control.records(LogId::Host(host))));
    printer.end_line(sink);
}

/// Puts a line for each host.
#[tactic(auto, using(crate::proofs::Parts::prints_nothing, crate::proofs::Parts::prints_each), unfolding(crate::specs::Texts::host_lines))]
fn write_host_lines<K: Sink>(printer: &mut Printer, sink: &mut K, control: &Control)
    ensures { Puts K.taken K.faults sink.old printer.old sink.new printer.new (host_lines control.now.config (effects control.now.entries)) }
{
    for host in 0..control.first_config().hosts() {
        write_host_line(printer, sink, control, HostId(host));
    }
}

/// Puts the line of the Fabric Manager's log.
#[tactic(auto, using(crate::proofs::Parts::prints_then), unfolding(crate::specs::Texts::manager_line))]
fn write_manager_line<K: Sink>(printer: &mut Printer, sink: &mut K, control: &Control)
    ensures { Puts K.taken K.faults sink.old printer.old sink.new printer.new (manager_line (effects control.now.entries)) }
{
    printer.put(sink, b"fm");
    printer.write_counted(sink, b"log", u64::from(control.records(LogId::Manager)));
    printer.write_counted(sink, b"missed", u64::from(control.missed(LogId::Manager)));
    printer.end_line(sink);
}

/// Puts the line of the free and the dirty granules.
#[tactic(auto, using(crate::proofs::Parts::prints_then), unfolding(crate::specs::Texts::granules_line))]
fn write_granules_line<K: Sink>(printer: &mut Printer, sink: &mut K, control: &Control)
    ensures { Puts K.taken K.faults sink.old printer.old sink.new printer.new (granules_line control.now.config (effects control.now.entries)) }
{
    printer.put(sink, b"granules");
    printer.write_counted(sink, b"free", u64::from(control.free()));
    printer.write_counted(sink, b"dirty", u64::from(control.dirty()));
    printer.end_line(sink);
}

/// Puts the last line, with the number of entries.
#[tactic(auto, using(crate::proofs::Parts::prints_then), unfolding(crate::specs::Texts::end_line))]
fn write_end_line<K: Sink>(printer: &mut Printer, sink: &mut K, count: u64)
    ensures { Puts K.taken K.faults sink.old printer.old sink.new printer.new (end_line count) }
{
    printer.put(sink, b"end");
    printer.write_count(sink, count);
    printer.end_line(sink);
}

/// Puts the lines of the state that the control is in, behind so many entries.
#[tactic(auto, using(crate::proofs::Parts::prints_then), unfolding(crate::specs::Texts::state_lines))]
pub fn write_state<K: Sink>(printer: &mut Printer, sink: &mut K, control: &Control, count: u64)
    ensures { Puts K.taken K.faults sink.old printer.old sink.new printer.new (state_lines control.now.config (effects control.now.entries) count) }
{
    write_host_lines(printer, sink, control);
    write_manager_line(printer, sink, control);
    write_granules_line(printer, sink, control);
    write_end_line(printer, sink, count);
}
