//! `dcdtext`: turns a text that people write into a script, a script into its text, and what a run printed into words, from
//! standard input to standard output.
#![tactic(auto)]

use edge_io::{StdSink, StdSource, words};
use explainer::{Status, run};
use std::process::ExitCode;

/// Hands `run` the words of the command line, standard input and standard output, and exits with its status.
fn main(rt: HostRuntime) -> ExitCode {
    let status = match words(&rt) {
        Ok(words) => {
            let mut source = StdSource::new(rt.stdin());
            let mut sink = StdSink::new(rt.stdout());
            run(rt.alloc(), words.as_slice(), &mut source, &mut sink)
        }
        Err(_) => Status::NoMemory,
    };
    ExitCode::from(status.number())
}
