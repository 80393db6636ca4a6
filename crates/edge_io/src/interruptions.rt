//! Calls of the system that a signal interrupts. They are tried again, as Rust's own streams do.

ghost use Rattle.std.specs.IoError.{error_kind};
ghost use Rattle.std.specs.Prelude.{◌↔◌, ◌≡◌, IsTrue};

use std::io::{Error, ErrorKind};

/// Whether a signal interrupted the call.
pub(crate) fn is_interrupted(error: &Error) -> bool
    ensures { IsTrue result ↔ (error_kind error.now ≡ ErrorKind.Interrupted) }
{
    error.kind() == ErrorKind::Interrupted
}

/// The error of a call that was interrupted 2^64 - 1 times in a row.
pub(crate) fn tried_in_vain() -> Error
    ensures { error_kind result ≡ ErrorKind.TimedOut }
{
    Error::new(ErrorKind::TimedOut, "interrupted again and again")
}
