//! What the words of the command line ask for.

ghost use Rattle.edge_io.specs.Words.{words_of};
ghost use Rattle.std.specs.Prelude.{◌≡◌};
ghost use Rattle.explainer.specs.Asking.{lone_task, name_asked as named, named_task, no_name as without_name, task_asked as asked, told_name};

use crate::converting::Task;

/// What one word alone asks for.
fn lone(word: &[u8]) -> Option<Task>
    ensures { result ≡ lone_task word.now }
{
    if word == b"to-script".as_slice() {
        Some(Task::ToScript)
    } else if word == b"to-text".as_slice() {
        Some(Task::ToText)
    } else if word == b"explain".as_slice() {
        Some(Task::Explain)
    } else {
        None
    }
}

/// What a word before a name asks for.
fn before_name(word: &[u8]) -> Option<Task>
    ensures { result ≡ named_task word.now }
{
    if word == b"to-script".as_slice() {
        Some(Task::ToScript)
    } else {
        None
    }
}

/// What the words ask for, if they are taken.
pub(crate) fn task_of(words: &[String]) -> Option<Task>
    ensures { result ≡ asked (words_of words.now) }
{
    match words.len() {
        1 => lone(words[0].as_bytes()),
        2 => before_name(words[0].as_bytes()),
        _ => None,
    }
}

/// The name of a text that has none.
#[tactic(auto, unfolding(crate::specs::Asking::no_name))]
fn no_name<'a>() -> &'a [u8]
    ensures { result.now ≡ without_name }
{
    b"text".as_slice()
}

/// The name that a word tells.
fn told(name: &[u8]) -> &[u8]
    ensures { result.now ≡ told_name name.now }
{
    if name == b"-".as_slice() {
        no_name()
    } else {
        name
    }
}

/// What faults of the text call it.
pub(crate) fn name_of(words: &[String]) -> &[u8]
    ensures { result.now ≡ named (words_of words.now) }
{
    match words.len() {
        2 => told(words[1].as_bytes()),
        _ => no_name(),
    }
}
