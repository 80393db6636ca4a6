//! `host_driver`: reads a script from standard input, drives one host over it on the device, and prints the journal and the
//! driver's table.
#![tactic(auto)]

use edge_io::{StdSink, StdSource, leave, words};
use host_driver::{DriveStatus, run_driver};
use std::process::ExitCode;

/// Hands `run_driver` the words of the command line, standard input and standard output, and exits with its status.
fn main(rt: HostRuntime) -> ExitCode {
    let status = match words(&rt) {
        Ok(words) => {
            let mut source = StdSource::new(rt.stdin());
            let mut sink = StdSink::new(rt.stdout());
            run_driver(rt.alloc(), words.as_slice(), &mut source, &mut sink)
        }
        Err(_) => DriveStatus::NoMemory,
    };
    leave(&rt, "host_driver", status.end(), status.why())
}
