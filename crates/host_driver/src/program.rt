//! The top call.

ghost use Rattle.host_driver.specs.Planning.{EndsOn, IsDrivenText, IsPrintable, bytes_of, driver_program, drive_usage_line};
ghost use Rattle.edge_io.specs.Meanings.{Decides};
ghost use Rattle.edge_io.specs.Runs.{Ran};
ghost use Rattle.report.specs.script_codec.specs.Scripts.{is_sound_line};
ghost use Rattle.std.specs.List.{list_all};
ghost use Rattle.std.specs.Prelude.{◌<◌, ◌≤◌, IfOk, IsTrue, length};

use crate::driving::drive;
use crate::printed::Printed;
use crate::printing::{extent_lines, print_with};
use crate::status::DriveStatus;
use crate::words::{DriveChoice, chosen};
use dcd_base::{Bytes, Failed, HostId, NoMemory, Sink, Source};
use edge_io::{Program, Stop, run};
use report::refusal;
use report::script_codec::{MOST_BYTES, Script, ScriptFault, read};
use std::alloc::Global;

/// The program.
#[derive(Clone, Copy, Debug, PartialEq, Eq)]
struct HostDriver;

impl Program for HostDriver {
    ghost use Rattle.host_driver.specs.Planning.{IsPrintable, bytes_of, driver_program};

    type Task = DriveChoice;

    type Status = DriveStatus;

    type Text = Printed;

    ghost means = { λ _. driver_program };

    ghost bytes = { bytes_of };

    ghost ready = { IsPrintable };

    #[tactic(auto, using(crate::proofs::Choices::one_choice))]
    fn asked(&self, words: &[String]) -> Option<DriveChoice> {
        chosen(words)
    }

    #[tactic(auto, unfolding(crate::specs::Planning::drive_usage_line))]
    fn usage(&self) -> &[u8] {
        b"usage: host_driver\n".as_slice()
    }

    fn most(&self, _task: &DriveChoice) -> Option<usize> {
        Some(MOST_BYTES)
    }

    #[tactic(auto, using(crate::proofs::Endings::all_decide, crate::proofs::Endings::all_short))]
    fn decide(
        &self,
        alloc: Global,
        task: DriveChoice,
        input: Bytes,
    ) -> Result<(DriveStatus, Printed), NoMemory> {
        drive_input(alloc, task, input.as_slice())
    }

    fn decide_long(
        &self,
        _alloc: Global,
        _task: DriveChoice,
    ) -> Result<(DriveStatus, Printed), NoMemory> {
        let fault = ScriptFault::TooLong;
        Ok((DriveStatus::ScriptRefused(fault), Printed::Fault(fault)))
    }

    fn print<K: Sink>(&self, text: &Printed, sink: &mut K) -> Result<(), Failed> {
        match text {
            Printed::Driven { device, lines } => print_with(device, lines.as_slice(), sink),
            Printed::Fault(fault) => refusal(fault, sink),
            Printed::Nothing => Ok(()),
        }
    }

    fn stopped(&self, stop: Stop) -> DriveStatus {
        match stop {
            Stop::Usage => DriveStatus::Usage,
            Stop::NoMemory => DriveStatus::NoMemory,
            Stop::ReadFault => DriveStatus::ReadFault,
            Stop::WriteFault => DriveStatus::WriteFault,
        }
    }
}

/// Drives one host over the script that is left in the source, and writes the text of the journal and a line `ext S L` for
/// each extent of the driver's table, its start and its length in bytes.
///
/// The words are the host's number, of 1 or 2 decimal digits, and the most bytes that the driver takes, of 1 to 18. The
/// lines of that host and the marks of the script are passed over. The words are tried first, then the source is read,
/// then the script is read, then the host is looked for, then all runs, then all is written.
pub fn run_driver<S: Source, K: Sink>(
    alloc: Global,
    words: &[String],
    source: &mut S,
    sink: &mut K,
) -> DriveStatus
    ensures { Ran driver_program words.now S.left S.faults K.taken K.faults source.old source.new sink.old sink.new result }
{
    run(&HostDriver, alloc, words, source, sink)
}

/// Drives the host over the script that the input is, or answers its first fault.
#[tactic(auto, using(crate::proofs::Endings::on_script))]
fn drive_input(
    alloc: Global,
    choice: DriveChoice,
    input: &[u8],
) -> Result<(DriveStatus, Printed), NoMemory>
    requires { length input.now ≤ 16777216 }
    ensures decides { IfOk result (λ end. Decides driver_program choice input.now end.0 (bytes_of end.1)) }
    ensures printable { IfOk result (λ end. IsPrintable end.1) }
{
    match read(alloc, input) {
        Ok(script) => drive_script(alloc, choice, script),
        Err(ScriptFault::NoMemory) => Err(NoMemory),
        Err(fault) => Ok((DriveStatus::ScriptRefused(fault), Printed::Fault(fault))),
    }
}

/// Drives the host over a script, if the script has it.
#[tactic(auto, using(crate::proofs::Endings::known_so))]
fn drive_script(
    alloc: Global,
    choice: DriveChoice,
    script: Script,
) -> Result<(DriveStatus, Printed), NoMemory>
    requires sound { IsTrue (list_all (is_sound_line script.config.hosts script.lanes) script.lines) }
    requires few { length script.lines ≤ 65536 }
    ensures ends { IfOk result (λ end. EndsOn script choice end.0 (bytes_of end.1)) }
    ensures printable { IfOk result (λ end. IsPrintable end.1) }
{
    if choice.host < u64::from(script.config.hosts()) {
        let driven = drive_host(alloc, HostId(choice.host as u8), choice.most, script)?;
        Ok((DriveStatus::Done, driven))
    } else {
        Ok((DriveStatus::NoSuchHost, Printed::Nothing))
    }
}

/// Drives a host of the script over it.
#[tactic(auto, using(crate::proofs::Endings::driven_text))]
fn drive_host(alloc: Global, host: HostId, most: u64, script: Script) -> Result<Printed, NoMemory>
    requires known { host < script.config.hosts }
    requires sound { IsTrue (list_all (is_sound_line script.config.hosts script.lanes) script.lines) }
    requires few { length script.lines ≤ 65536 }
    ensures driven { IfOk result (λ printed. IsDrivenText script host most (bytes_of printed)) }
    ensures printable { IfOk result IsPrintable }
{
    let Script {
        version: _,
        lanes: _,
        config,
        lines,
    } = script;
    let (device, driver) = drive(alloc, config, &lines, host, most)?;
    let table = extent_lines(alloc, driver.table())?;
    Ok(Printed::Driven {
        device,
        lines: table,
    })
}
