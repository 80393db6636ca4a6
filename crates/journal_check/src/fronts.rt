//! Which line each pass of a script has to do next.

ghost use Rattle.journal_check.specs.Following.{IsNextInPass, has_pass, without_line};
ghost use Rattle.journal_check.specs.Fronts.{AreFronts, IsDue, IsNextFront, undone_of};
ghost use Rattle.journal_core.specs.declared.entries.Entry.{Entry};
ghost use Rattle.report.specs.script_codec.specs.Scripts.{is_sound_line};
ghost use Rattle.std.specs.List.{list_all};
ghost use Rattle.std.specs.Option.{IfNone, IfSome};
ghost use Rattle.std.specs.Prelude.{◌≡◌, ◌≢◌, ◌-◌, ◌≤◌, IfOk, IsTrue, length};

use dcd_base::NoMemory;
use report::script_codec::{Line, Script, pass_of};
use std::alloc::Global;

/// Whether the line is an act of the pass.
fn is_of_pass(hosts: u8, lanes: u8, pass: u32, line: &Line) -> bool
    ensures { result ≡ has_pass hosts lanes pass line.now }
{
    match line {
        Line::Do { actor, lane, .. } => pass_of(hosts, lanes, actor, *lane) == pass,
        Line::Mark => false,
    }
}

/// The index of the first line of the pass from this one on, or the number of lines where there is none.
fn front_from(script: &Script, pass: u32, start: usize) -> usize
    requires { start ≤ length script.now.lines }
    ensures { IsNextFront script.now pass start result }
{
    let hosts = script.config.hosts();
    let lines = script.lines.as_slice();
    let mut index = start;
    while index < lines.len() && !is_of_pass(hosts, script.lanes, pass, &lines[index]) {
        index += 1;
    }
    index
}

/// The first line of each pass.
pub(crate) fn first_fronts(alloc: Global, script: &Script) -> Result<Vec<usize>, NoMemory>
    ensures fronts { IfOk result (λ fronts. AreFronts script.now fronts.items) }
    ensures fresh { IfOk result (λ fronts. undone_of script.now fronts.items ≡ script.now) }
{
    let passes = u32::from(script.config.hosts()) * u32::from(script.lanes) + 2;
    let mut fronts = Vec::new(alloc);
    for pass in 0..passes {
        fronts.push(front_from(script, pass, 0))?;
    }
    Ok(fronts)
}

/// The pass that has to do the line of this number next, if one has.
pub(crate) fn pass_due(script: &Script, fronts: &[usize], number: u32) -> Option<u32>
    requires fronts { AreFronts script.now fronts.now }
    requires sound { IsTrue (list_all (is_sound_line script.now.config.hosts script.now.lanes) script.now.lines) }
    ensures due { IfSome result (λ pass. IsDue script.now fronts.now number pass) }
    ensures none { IfNone result ((e : Entry) → IsNextInPass (undone_of script.now fronts.now) e → e.line ≢ number) }
{
    let lines = script.lines.as_slice();
    if number == 0 || number as usize > lines.len() {
        return None;
    }
    let index = number as usize - 1;
    match &lines[index] {
        Line::Do { actor, lane, .. } => {
            let pass = pass_of(script.config.hosts(), script.lanes, actor, *lane);
            if fronts[pass as usize] == index {
                Some(pass)
            } else {
                None
            }
        }
        Line::Mark => None,
    }
}

/// The line of this number is done.
pub(crate) fn pass_on(script: &Script, fronts: &mut [usize], number: u32, pass: u32)
    requires fronts { AreFronts script.now fronts.old }
    requires due { IsDue script.now fronts.old number pass }
    ensures fronts { AreFronts script.now fronts.new }
    ensures done { (undone_of script.now fronts.new).lines ≡ without_line (undone_of script.now fronts.old).lines (number - 1) }
{
    fronts[pass as usize] = front_from(script, pass, number as usize);
}
