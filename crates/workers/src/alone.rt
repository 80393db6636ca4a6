//! The lines of a phase that one pass has alone.

ghost use Rattle.std.specs.List.{list_all};
ghost use Rattle.std.specs.Prelude.{◌≡◌, ◌<◌, ◌+◌, ◌*◌, IfSome, IsTrue};
ghost use Rattle.script_codec.specs.Scripts.{is_sound_line};
ghost use Rattle.workers.specs.Phases.{is_no_others};

use script_codec::{Line, pass_of};

/// The pass that has all lines, if one has: that of the first line. Marks are nobody's, and lines that begin with one are
/// taken as pass 0's.
pub(crate) fn lone_pass(hosts: u8, lanes: u8, lines: &[Line]) -> Option<u32>
    requires sound { IsTrue (list_all (is_sound_line hosts lanes) lines.now) }
    ensures pass { IfSome result (λ k. k < hosts * lanes + 2) }
    ensures alone { IfSome result (λ k. IsTrue (list_all (is_no_others hosts lanes k) lines.now)) }
{
    let pass = first_pass(hosts, lanes, lines);
    if are_no_others(hosts, lanes, pass, lines) {
        Some(pass)
    } else {
        None
    }
}

/// The pass of the first line, or 0 where that is a mark.
fn first_pass(hosts: u8, lanes: u8, lines: &[Line]) -> u32
    requires sound { IsTrue (list_all (is_sound_line hosts lanes) lines.now) }
    ensures { result < hosts * lanes + 2 }
{
    match lines.first() {
        Some(Line::Do { actor, lane, .. }) => pass_of(hosts, lanes, actor, *lane),
        _ => 0,
    }
}

/// Whether no line is another pass's. It stops at the first that is.
fn are_no_others(hosts: u8, lanes: u8, pass: u32, lines: &[Line]) -> bool
    ensures { result ≡ list_all (is_no_others hosts lanes pass) lines.now }
{
    lines
        .iter()
        .all(|line| is_no_others(hosts, lanes, pass, line))
}

/// Whether a line is no other pass's.
fn is_no_others(hosts: u8, lanes: u8, pass: u32, line: &Line) -> bool
    ensures { result ≡ is_no_others hosts lanes pass line.now }
{
    match line {
        Line::Do { actor, lane, .. } => pass_of(hosts, lanes, actor, *lane) == pass,
        Line::Mark => true,
    }
}
