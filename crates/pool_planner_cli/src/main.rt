//! `pool_planner`: reads a script and demands from standard input, and writes the commands that lead from what hosts hold behind
//! the script to what is demanded, and the state behind them, or one line that says why there are none. Where it
//! ends otherwise, it says on standard error why.
#![tactic(auto)]

use edge_io::{StdSink, StdSource, leave, words};
use pool_planner::{PlanStatus, run_plan};
use std::process::ExitCode;

/// Hands `run_plan` the words of the command line, standard input and standard output, and exits with its status.
fn main(rt: HostRuntime) -> ExitCode {
    let status = match words(&rt) {
        Ok(words) => {
            let mut source = StdSource::new(rt.stdin());
            let mut sink = StdSink::new(rt.stdout());
            run_plan(rt.alloc(), words.as_slice(), &mut source, &mut sink)
        }
        Err(_) => PlanStatus::NoMemory,
    };
    leave(&rt, "pool_planner", status.end(), status.why())
}
