//! The lines that a check writes.

ghost use Rattle.journal_check.specs.CheckPlanning.{no_line, yes_line};
ghost use Rattle.std.specs.Prelude.{◌≡◌, IfOk};

use dcd_base::{Bytes, NoMemory};
use itoa::Buffer;
use report::script_codec::ScriptFault;
use std::alloc::Global;

#[derive(Drop)]
pub(crate) enum Printed {
    /// A line, or nothing.
    Line(Bytes),
    /// The line on the first fault of a script.
    Fault(ScriptFault),
}

/// The line that says that a text is right.
#[tactic(auto, unfolding(crate::specs::CheckPlanning::yes_line))]
pub(crate) fn yes(alloc: Global) -> Result<Bytes, NoMemory>
    ensures { IfOk result (λ line. line ≡ yes_line) }
{
    Bytes::from_slice(alloc, b"yes\n")
}

/// The line that names the first wrong line.
#[tactic(auto, unfolding(crate::specs::CheckPlanning::no_line))]
pub(crate) fn no_at(alloc: Global, line: u32) -> Result<Bytes, NoMemory>
    ensures { IfOk result (λ text. text ≡ no_line line) }
{
    let mut buffer = Buffer::new();
    let mut text = Bytes::from_slice(alloc, b"no at ")?;
    text.extend_from_slice(buffer.format(line).as_bytes())?;
    text.push(b'\n')?;
    Ok(text)
}
