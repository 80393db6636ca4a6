//! The lines of a script, one after another on the device of one thread.

ghost use Rattle.script_gen.specs.script_codec.specs.Scripts.{is_sound_line};
ghost use Rattle.script_runner.specs.Fronts.{RunsLine, RunsLines};
ghost use Rattle.script_runner.specs.Running.{IsLawful};
ghost use Rattle.std.specs.List.{list_all};
ghost use Rattle.std.specs.Prelude.{◌≡◌, ◌+◌, ◌≤◌, IfOk, IsTrue, OnOk, length};

use dcd_base::NoMemory;
use device_plain::Device;
use device_plain::isolation_laws::law_isolated;
use script_gen::script_codec::{Line, Lines, pass_of};

/// Does a line: a step of its actor, or nothing for a mark, since there is one thread. The journal has what its act says.
pub(crate) fn run_line(
    device: &mut Device,
    lanes: u8,
    number: u32,
    line: &Line,
) -> Result<(), NoMemory>
    requires { IsTrue (is_sound_line device.old.config.hosts lanes line.now) }
    ensures config { device.new.config ≡ device.old.config }
    ensures ran { OnOk result (RunsLine device.old.config.hosts lanes number line.now device.old.journal device.new.journal) }
{
    match line {
        Line::Do { actor, lane, act } => {
            let hosts = device.control().first_config().hosts();
            let pass = pass_of(hosts, lanes, actor, *lane);
            device.enter_lent(pass, number, *actor, act)
        }
        Line::Mark => Ok(()),
    }
}

/// Does lines in their order, the first of which has the number behind this one, and answers the number of the last.
pub(crate) fn run_lines(
    device: &mut Device,
    lanes: u8,
    behind: u32,
    lines: Lines,
) -> Result<u32, NoMemory>
    requires sound { IsTrue (list_all (is_sound_line device.old.config.hosts lanes) lines) }
    requires few { behind + length lines ≤ 65536 }
    ensures config { device.new.config ≡ device.old.config }
    ensures number { IfOk result (λ number. number ≡ behind + length lines) }
    ensures ran { OnOk result (RunsLines device.old.config.hosts lanes behind lines device.old.journal device.new.journal) }
{
    let mut number = behind;
    for line in lines.as_slice() {
        number += 1;
        run_line(device, lanes, number, line)?;
    }
    Ok(number)
}

/// The journal of a device is legal and numbered, no granule of a region that is not shareable ever has two hosts, and
/// each reply to a host is what a device with that host alone replies to its own steps and deliveries. It does nothing.
pub(crate) fn is_lawful(device: &Device)
    ensures { IsLawful device.now.config device.now.journal }
{
    law_isolated();
    // A configuration is sound, and the journal legal.
    let _hosts = device.control().first_config().hosts();
    let _journal = device.journal();
}
