//! The run of a script, from the bytes of a source to the bytes of a sink.
//!
//! `run` does what the words of the command line ask for. It reads the whole script. In serial mode it does the lines in
//! order on the serial device, in threads mode those of each lane by a worker of its own on the shared device. It writes the
//! text of the journal, or one line that says why not. With a seed among the words it runs the generated script, reads
//! nothing, and writes the summary.
#![tactic(auto)]

mod gated;
mod generated;
mod in_threads;
mod inside;
mod lines;
mod outcome;
mod printing;
mod running;
mod script;
mod status;
mod summaries;
mod texts;
mod thread_lines;
mod top;
mod words;

pub use device_plain;
pub use device_plain::{isolation_laws, kept_journal};
pub use report;
pub use running::run_in_threads;
pub use script_gen;
pub use script_gen::script_codec;
pub use shared_device;
pub use status::Status;
pub use top::run;
pub use words::{Choice, Mode, chosen};
pub use workers;
