//! `journal_check`: reads a script and a printed text from standard input, and says whether the text is that of a legal
//! journal of the script, or which line is the first wrong one.
#![tactic(auto)]

use edge_io::{StdSink, StdSource, leave, words};
use journal_check::{CheckStatus, run_check};
use std::process::ExitCode;

/// Hands `run_check` the words of the command line, standard input and standard output, and exits with its status.
fn main(rt: HostRuntime) -> ExitCode {
    let status = match words(&rt) {
        Ok(words) => {
            let mut source = StdSource::new(rt.stdin());
            let mut sink = StdSink::new(rt.stdout());
            run_check(rt.alloc(), words.as_slice(), &mut source, &mut sink)
        }
        Err(_) => CheckStatus::NoMemory,
    };
    leave(&rt, "journal_check", status.end(), status.why())
}
