//! `tunnel_fabric`: reads a fabric from standard input, runs its lines on the devices behind the tunnel, and prints the replies to
//! the messages to the tunnel and the text of each device. Where it ends otherwise, it says on standard error why.
#![tactic(auto)]

use edge_io::{FAULT_PRINTED, StdSink, StdSource, leave, words};
use std::process::ExitCode;
use tunnel_fabric::{FabricStatus, run_fabric};

/// Hands `run_fabric` the words of the command line, standard input and standard output, and exits with its status.
fn main(rt: HostRuntime) -> ExitCode {
    let status = match words(&rt) {
        Ok(words) => {
            let mut source = StdSource::new(rt.stdin());
            let mut sink = StdSink::new(rt.stdout());
            run_fabric(rt.alloc(), words.as_slice(), &mut source, &mut sink)
        }
        Err(_) => FabricStatus::NoMemory,
    };
    leave(&rt, "tunnel_fabric", status.end(), FAULT_PRINTED)
}
