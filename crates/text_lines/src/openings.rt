//! What a line begins with.

use crate::actors::Speaker;
use crate::commands::HostCommand;

/// What the first word of a line begins.
#[derive(Clone, Copy, Debug)]
pub enum Opening {
    Mark,
    Scrub,
    /// A message byte by byte.
    Command,
    /// An act of the actor.
    By(Speaker),
}

/// What a host does.
#[derive(Clone, Copy, Debug)]
pub enum HostWord {
    Load,
    Store,
    Ask(HostCommand),
}
