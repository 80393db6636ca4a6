//! Texts into scripts, scripts into texts, and what a run printed into words.

ghost use Rattle.script_text.specs.script_codec.specs.Frames.{needed};
ghost use Rattle.std.specs.Prelude.{◌≡◌, ◌≤◌, length};
ghost use Rattle.explainer.specs.Converting.{Converts};
ghost use Rattle.explainer.specs.declared.converting.Task.{Task};

use crate::columns::{Place, place_in};
use crate::explaining::explain;
use dcd_base::{Bytes, NoMemory};
use script_text::script_codec::frames::{need_of, parts_of};
use script_text::script_codec::{ScriptFault, read, write};
use script_text::{Cause, TextFault, parse, print};
use std::alloc::Global;

/// What is to be turned into what.
#[derive(Clone, Copy, Debug, PartialEq, Eq)]
pub enum Task {
    /// A text into the bytes of the script that it says.
    ToScript,
    /// The bytes of a script into its one text.
    ToText,
    /// A frame into an explanation: the number of bytes of a script in four bytes, the lowest first, the script, and the text
    /// that a run of it printed.
    Explain,
}

/// Why there is no output.
#[derive(Clone, Copy, Debug, PartialEq, Eq)]
pub enum Refusal {
    /// The text says no script: where its first fault is, and what is wrong there.
    Text { place: Place, cause: Cause },
    /// The bytes are no script.
    Script(ScriptFault),
    /// The frame needs so many bytes for its script and has fewer.
    Cut { need: u64, have: u64 },
    /// The text of the frame is that of no run of its script: this line of it, from 1, is the first wrong one.
    Stopped(u32),
    /// Memory was wanted and not to be had.
    NoMemory,
}

impl From<NoMemory> for Refusal {
    ghost use Rattle.explainer.specs.declared.converting.Refusal.TheVariants.{NoMemory as OutOfMemory};
    ghost use Rattle.std.specs.Prelude.{◌≡◌};

    ghost from_gives = { λ _ fault. fault ≡ OutOfMemory };

    fn from(_: NoMemory) -> Refusal {
        Refusal::NoMemory
    }
}

/// The bytes of the script that a text says.
fn script_of(alloc: Global, text: &[u8]) -> Result<Bytes, Refusal>
    ensures { Converts Task.ToScript text.now result }
{
    match parse(alloc, text) {
        Ok(script) => {
            let mut bytes = Bytes::new(alloc);
            write(&script, &mut bytes)?;
            Ok(bytes)
        }
        Err(TextFault::Refused { line, word, cause }) => Err(Refusal::Text {
            place: place_in(line, word, text),
            cause,
        }),
        Err(TextFault::NoMemory) => Err(Refusal::NoMemory),
    }
}

/// The one text of the script that bytes are.
fn text_of(alloc: Global, bytes: &[u8]) -> Result<Bytes, Refusal>
    ensures { Converts Task.ToText bytes.now result }
{
    match read(alloc, bytes) {
        Ok(script) => {
            let mut text = Bytes::new(alloc);
            print(alloc, &script, &mut text)?;
            Ok(text)
        }
        Err(ScriptFault::NoMemory) => Err(Refusal::NoMemory),
        Err(fault) => Err(Refusal::Script(fault)),
    }
}

/// The explanation of a frame that has all bytes of its script.
fn explanation_in(alloc: Global, input: &[u8]) -> Result<Bytes, Refusal>
    requires { needed input.now ≤ length input.now }
    ensures { Converts Task.Explain input.now result }
{
    let (bytes, text) = parts_of(input);
    match read(alloc, bytes) {
        Ok(script) => match explain(alloc, &script, text)? {
            Ok(explanation) => Ok(explanation),
            Err(line) => Err(Refusal::Stopped(line)),
        },
        Err(ScriptFault::NoMemory) => Err(Refusal::NoMemory),
        Err(fault) => Err(Refusal::Script(fault)),
    }
}

/// The explanation of a frame.
fn explanation_of(alloc: Global, input: &[u8]) -> Result<Bytes, Refusal>
    ensures { Converts Task.Explain input.now result }
{
    let need = need_of(input);
    let have = input.len() as u64;
    if have < need {
        return Err(Refusal::Cut { need, have });
    }
    explanation_in(alloc, input)
}

/// What an input is turned into, or its first fault. `NoMemory` may come in place of any answer.
pub fn convert(alloc: Global, task: Task, input: &[u8]) -> Result<Bytes, Refusal>
    ensures { Converts task input.now result }
{
    match task {
        Task::ToScript => script_of(alloc, input),
        Task::ToText => text_of(alloc, input),
        Task::Explain => explanation_of(alloc, input),
    }
}
