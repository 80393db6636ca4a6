//! The script that a text says.

ghost use Rattle.text_lines.specs.script_codec.specs.Writing.{IsWritable};
ghost use Rattle.text_lines.specs.script_codec.specs.declared.scripts.Script.{Script};
ghost use Rattle.script_text.specs.Layouts.{Says};
ghost use Rattle.script_text.specs.Texts.{IsParsed, IsParsedAs, frame_of_head, lines_at, script_of_lines, short_script};
ghost use Rattle.std.specs.Prelude.{◌≡◌, ◌*◌, [], IfOk, length};
ghost use Rattle.text_lines.specs.Fields.{GivesLast};

use crate::configs::head;
use crate::sizes::is_short;
use std::alloc::Global;
use text_lines::script_codec::{Head, Lines, Script};
use text_lines::{Cause, Frame, TextFault, TextLines, opening, rest};

/// The most lines of a script.
const MOST_LINES: u32 = 65_536;

/// What the lines of a script depend on.
fn frame_of(head: &Head) -> Frame
    ensures { result ≡ frame_of_head head.now }
{
    Frame {
        version: head.version,
        hosts: head.config.hosts(),
        lanes: head.lanes,
    }
}

/// Puts the lines of a script into the empty list, at most so many.
fn fill_lines(
    alloc: Global,
    most: u32,
    frame: Frame,
    lines: &mut TextLines<'_>,
    out: &mut Lines,
) -> Result<(), TextFault>
    requires { out.old ≡ [] }
    ensures value { GivesLast (λ _. out.new) result (lines_at most frame lines.old.lines) }
    ensures end { lines.new.end ≡ lines.old.end }
{
    let mut left = most;
    while let Some(mut words) = lines.next() {
        let line = words.line();
        let opening = opening(&mut words, frame)?;
        if left == 0 {
            return Err(TextFault::Refused {
                line,
                word: 1,
                cause: Cause::TooManyLines,
            });
        }
        out.push(rest(alloc, frame, opening, &mut words)?)?;
        left -= 1;
    }
    Ok(())
}

/// The script, where its bytes are few enough.
fn short(end: u64, script: Script) -> Result<Script, TextFault>
    requires { length script.config.bases ≡ script.config.hosts * length script.config.regions }
    ensures { GivesLast (λ script. script) result (short_script end script) }
{
    if !is_short(&script) {
        return Err(TextFault::Refused {
            line: end,
            word: 1,
            cause: Cause::TooLong,
        });
    }
    Ok(script)
}

#[tactic(auto, unfolding(crate::specs::Texts::script_of_lines))]
fn script_of(alloc: Global, lines: &mut TextLines<'_>) -> Result<Script, TextFault>
    ensures { GivesLast (λ script. script) result (script_of_lines lines.old.end lines.old.lines) }
{
    let head = head(alloc, lines)?;
    let frame = frame_of(&head);
    let mut body = Lines::new(alloc);
    fill_lines(alloc, MOST_LINES, frame, lines, &mut body)?;
    let script = Script {
        version: head.version,
        lanes: head.lanes,
        config: head.config,
        lines: body,
    };
    short(lines.end(), script)
}

/// The script that a text says, or its first fault.
///
/// Faults come in the order of lines, and in a line from its first word on: a word that is missing or another than the
/// grammar has there, a number out of form, a number above what its field has room for, a host or a lane that the script
/// does not have. Behind the last line of a host the configuration's first fault comes, where the first word of the next line
/// has none. At the end of the text a script of more than 16,777,216 bytes is refused. `NoMemory` may come in place of any
/// answer.
pub fn parse(alloc: Global, text: &[u8]) -> Result<Script, TextFault>
    ensures parsed { IsParsed text.now result }
    ensures says { IfOk result (λ script. Says text.now script) }
    ensures only { (script : Script) → Says text.now script → IsParsedAs script result }
    ensures writable { IfOk result (λ script. IsWritable script) }
{
    let mut lines = TextLines::of(text);
    script_of(alloc, &mut lines)
}
