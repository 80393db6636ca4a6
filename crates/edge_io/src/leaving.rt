//! The end of a program, to the outside.

use crate::ends::End;
use std::process::ExitCode;

/// What is said of an input whose fault was printed by its number.
pub const FAULT_PRINTED: &str =
    "the input is refused for the fault that was printed (docs/formats.md has the numbers)";

/// Says in one line on standard error why the program of this name ended, unless it is done, and answers its exit status. That
/// it cannot be said changes nothing. Of what the program decided, `decided` tells.
pub fn leave(rt: &HostRuntime, name: &str, end: End, decided: &str) -> ExitCode {
    if let Some(why) = end.why(decided) {
        let _ = eprintln!(rt; "{name}: {why}");
    }
    ExitCode::from(end.number())
}
