//! The journal of the order that a text claims.

ghost use Rattle.device_plain.specs.device_rules.specs.Legal.{Legal};
ghost use Rattle.journal_check.specs.Claims.{behind_line};
ghost use Rattle.journal_check.specs.Following.{IsFollowed, IsNumbered, StepsLine};
ghost use Rattle.journal_check.specs.Fronts.{AreFronts, undone_of};
ghost use Rattle.journal_core.specs.Merging.{Numbered};
ghost use Rattle.report.specs.script_codec.specs.Scripts.{is_sound_line};
ghost use Rattle.std.specs.List.{list_all};
ghost use Rattle.std.specs.Prelude.{◌≡◌, ◌≤◌, [], IfOk, IsTrue, OnOk, length};

use crate::claims::{behind, claim};
use crate::fronts::{first_fronts, pass_due, pass_on};
use dcd_base::NoMemory;
use device_plain::Device;
use report::script_codec::{Line, Script, entries_of};
use std::alloc::Global;

/// Takes the step of the line of this number, which its pass has to do next.
fn step(device: &mut Device, script: &Script, number: u32, pass: u32) -> Result<(), NoMemory>
    requires config { device.old.config ≡ script.now.config }
    requires sound { IsTrue (list_all (is_sound_line script.now.config.hosts script.now.lanes) script.now.lines) }
    requires line { IsNumbered script.now number pass }
    ensures { OnOk result (StepsLine script.now device.old device.new number pass) }
{
    match &script.lines.as_slice()[number as usize - 1] {
        Line::Do { actor, act, .. } => device.enter(pass, number, *actor, act.copy()?),
        Line::Mark => unreachable!(),
    }
}

/// Takes the steps of the lines that those of the text claim, while each is the next of its pass, and answers whether all
/// lines of the script were claimed. The first line of the text stands before this.
fn follow_lines(
    device: &mut Device,
    script: &Script,
    fronts: &mut Vec<usize>,
    text: &[u8],
) -> Result<bool, NoMemory>
    requires fresh { device.old.journal ≡ [] }
    requires config { device.old.config ≡ script.now.config }
    requires sound { IsTrue (list_all (is_sound_line script.now.config.hosts script.now.lanes) script.now.lines) }
    requires few { length script.now.lines ≤ 65536 }
    requires fronts { AreFronts script.now fronts.old.items }
    requires undone { undone_of script.now fronts.old.items ≡ script.now }
    ensures config { OnOk result (device.new.config ≡ device.old.config) }
    ensures followed { IfOk result (λ all. IsFollowed script.now text.now device.new.journal all) }
{
    let mut rest = text;
    for _ in 0..entries_of(script.lines.as_slice()) {
        let number = claim(rest);
        match pass_due(script, fronts.as_slice(), number) {
            Some(pass) => {
                step(device, script, number, pass)?;
                pass_on(script, fronts.as_mut_slice(), number, pass);
                rest = behind(b'\n', rest);
            }
            None => return Ok(false),
        }
    }
    Ok(true)
}

/// The journal of a device is legal and numbered. It does nothing.
fn is_legal(device: &Device)
    ensures legal { Legal device.now.config device.now.journal }
    ensures numbered { Numbered device.now.journal }
{
    let _journal = device.journal();
}

/// A device that took the steps of the lines that those of a text claim, while each was the next of its pass, and whether
/// all lines of the script were claimed.
pub(crate) fn follow(
    alloc: Global,
    script: &Script,
    text: &[u8],
) -> Result<(Device, bool), NoMemory>
    requires sound { IsTrue (list_all (is_sound_line script.now.config.hosts script.now.lanes) script.now.lines) }
    requires few { length script.now.lines ≤ 65536 }
    ensures config { IfOk result (λ run. run.0.config ≡ script.now.config) }
    ensures legal { IfOk result (λ run. Legal run.0.config run.0.journal) }
    ensures numbered { IfOk result (λ run. Numbered run.0.journal) }
    ensures followed { IfOk result (λ run. IsFollowed script.now (behind_line text.now) run.0.journal run.1) }
{
    let mut device = Device::new(alloc, script.config.copy()?)?;
    let mut fronts = first_fronts(alloc, script)?;
    let all = follow_lines(&mut device, script, &mut fronts, behind(b'\n', text))?;
    is_legal(&device);
    Ok((device, all))
}
