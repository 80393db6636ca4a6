//! The readable form of a conversation's script.

use crate::conversation::Conversation;
use dcd_base::{Bytes, NoMemory};
use explainer::{Refusal, Task, convert};
use std::alloc::Global;

/// What a text or a script is turned into, or `None` where it is refused.
fn turned(alloc: Global, task: Task, input: &[u8]) -> Result<Option<Bytes>, NoMemory> {
    match convert(alloc, task, input) {
        Ok(output) => Ok(Some(output)),
        Err(Refusal::NoMemory) => Err(NoMemory),
        Err(_) => Ok(None),
    }
}

/// Whether the text says the script of these bytes.
fn says(alloc: Global, text: &[u8], script: &[u8]) -> Result<bool, NoMemory> {
    match turned(alloc, Task::ToScript, text)? {
        Some(bytes) => Ok(bytes.as_slice() == script),
        None => Ok(false),
    }
}

/// Whether the text that is printed for the script says it.
fn comes_back(alloc: Global, script: &[u8]) -> Result<bool, NoMemory> {
    match turned(alloc, Task::ToText, script)? {
        Some(text) => says(alloc, text.as_slice(), script),
        None => Ok(false),
    }
}

/// What is otherwise than it should be between a script and its readable form, where it has one.
pub(crate) fn first_other(
    alloc: Global,
    conversation: &Conversation,
) -> Result<Option<&'static str>, NoMemory> {
    let script = conversation.script.as_slice();
    match &conversation.readable {
        None => Ok(None),
        Some(text) if !says(alloc, text.as_slice(), script)? => {
            Ok(Some("its readable form says another script"))
        }
        Some(_) if !comes_back(alloc, script)? => {
            Ok(Some("the text that is printed for it says another script"))
        }
        Some(_) => Ok(None),
    }
}
