//! A printed text in words: for each entry the line of the script that asked for it and what was answered, then what is left
//! in the logs, and the state.
//!
//! `write_answer` writes what a device answered to a command, `write_record` an event record, and `write_extent_words` an extent
//! with its tag. They take any bytes: what does not read as its layout says is shown byte by byte.
//!
//! `convert` turns a text that people write into a script, a script into a text, and what a run printed into words, or answers
//! the first fault. `run` does so from a source to a sink, by the words of the command line: `to-script`, which the name of the
//! text may follow, `to-text` or `explain`.
#![tactic(auto)]

mod asking;
mod codes;
mod columns;
mod converting;
mod entries;
mod explaining;
mod extents;
mod faults;
mod fields;
mod headings;
mod items;
mod kinds;
mod logs;
mod parts;
mod records;
mod refusals;
mod regions;
mod replies;
mod running;
mod states;
mod status;
mod tags;

pub use columns::Place;
pub use converting::{Refusal, Task, convert};
pub use explaining::explain;
pub use extents::write_extent_words;
pub use journal_check;
pub use journal_check::report;
pub use kinds::ReplyKind;
pub use parts::{write_labelled, write_labelled_size};
pub use records::write_record;
pub use replies::write_answer;
pub use running::run;
pub use script_text;
pub use script_text::text_lines;
pub use status::Status;
