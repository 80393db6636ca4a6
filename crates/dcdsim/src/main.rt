//! `dcdsim`: reads a script from standard input, runs it on the device, in threads or serially, and prints its replies, logs
//! and holdings. Where it ends otherwise, it says on standard error why.
#![tactic(auto)]

mod fault_words;
mod line_starts;
mod watched;

use crate::fault_words::{FaultWords, place_in_lines};
use crate::watched::Watched;
use dcd_base::NoGate;
use edge_io::{StdSink, StdSource, words};
use script_runner::script_codec::ScriptFault;
use script_runner::{Status, chosen, run};
use std::alloc::AllocGlobal;
use std::fmt::Display;
use std::io::{IsTerminal, Stdin, Stdout};
use std::process::ExitCode;
use std::sync::Wait;
use std::thread::Threads;

/// Runs what the words of the command line ask for, and exits with its status.
fn main(rt: HostRuntime) -> ExitCode {
    let status = match words(&rt) {
        Ok(words) => run_words(&rt, &rt, words.as_slice()),
        Err(_) => {
            say(&rt, NO_MEMORY);
            Status::NoMemory
        }
    };
    ExitCode::from(status.number())
}

/// Hands `run` the words, standard input and standard output, and answers its status. The runtime comes twice,
/// since only `main` knows that it may start threads.
fn run_words<R: Threads + Wait + Sync + AllocGlobal>(
    threads: &R,
    rt: &HostRuntime,
    words: &[String],
) -> Status {
    if asks_for_source(words) && rt.stdin().is_terminal() {
        say(rt, "it waits for a script on standard input");
    }
    let mut source = Watched::new(rt.alloc(), StdSource::new(rt.stdin()));
    let mut sink = StdSink::new(rt.stdout());
    let status = run(threads, rt.alloc(), words, &mut source, &mut sink, &NoGate);
    say_why(rt, status, &source, &sink);
    status
}

/// Whether the words ask for the script on standard input.
fn asks_for_source(words: &[String]) -> bool {
    match chosen(words) {
        Some(choice) => choice.seed.is_none(),
        None => false,
    }
}

/// What is said where memory was wanted.
const NO_MEMORY: &str = "memory was wanted and not to be had; nothing is written";

/// What is said where the words are refused.
const USAGE: &str =
    "it takes --mode serial or --mode threads, and a script on standard input or --gen N with 1 to 18 digits";

/// Says why a run ended that is not done.
fn say_why(
    rt: &HostRuntime,
    status: Status,
    source: &Watched<StdSource<Stdin>>,
    sink: &StdSink<Stdout>,
) {
    match status {
        Status::Done => {}
        Status::Usage => say(rt, USAGE),
        Status::ScriptRefused(fault) => say_fault(rt, fault, source),
        Status::NoMemory => say(rt, NO_MEMORY),
        Status::ReadFault => match source.source().error() {
            Some(error) => say(rt, format_args!("standard input cannot be read: {error}")),
            None => say(rt, "standard input cannot be read"),
        },
        Status::WriteFault => match sink.error() {
            Some(error) => say(
                rt,
                format_args!("standard output cannot be written: {error}"),
            ),
            None => say(rt, "standard output cannot be written"),
        },
    }
}

/// Says why a script is refused, with the line of the script where there is one.
fn say_fault(rt: &HostRuntime, fault: ScriptFault, source: &Watched<StdSource<Stdin>>) {
    let line = match place_in_lines(fault) {
        Some(place) => source.line_at(place),
        None => None,
    };
    match line {
        Some(line) => say(
            rt,
            format_args!(
                "the script is refused in line {line}: {}",
                FaultWords(fault)
            ),
        ),
        None => say(
            rt,
            format_args!("the script is refused: {}", FaultWords(fault)),
        ),
    }
}

/// Says something in one line on standard error. That it cannot be said changes nothing.
fn say<D: Display + Drop>(rt: &HostRuntime, words: D) {
    let _ = eprintln!(rt; "dcdsim: {words}");
}
