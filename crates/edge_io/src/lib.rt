//! The edge of a program: standard input and output as a source and a sink, a source read to its end, the words of the
//! command line with the numbers that they write; and the frame in which a program runs.
//!
//! A program says what its words ask for and what is to be written over an input. The frame reads, writes, and says how that
//! ended.
#![tactic(auto)]

mod command_line;
mod deciding;
mod ends;
mod interruptions;
mod leaving;
mod numbers;
mod program;
mod reading;
mod running;
mod std_sink;
mod std_source;
mod wordless;

pub use command_line::words;
pub use ends::{End, Stop};
pub use leaving::{FAULT_PRINTED, leave};
pub use numbers::number;
pub use program::Program;
pub use reading::{ReadEnd, read_all};
pub use running::run;
pub use std_sink::StdSink;
pub use std_source::StdSource;
pub use wordless::no_words;
