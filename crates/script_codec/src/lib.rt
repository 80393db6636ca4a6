//! The script: what a user hands in, as bytes and as lines.
//!
//! A script has a configuration and lines, each an act of an actor or a mark. `read` reads its bytes or answers
//! the first fault with its place, and `write` gives the one spelling. A `Reader` reads line by line, and so does an
//! `OwnReader`, which lets the bytes go as it reads on. `frames` parts a script from a text behind it.
#![tactic(auto)]

mod faults;
pub mod fields;
pub mod frames;
pub mod heads;
mod laws;
pub mod line_bytes;
mod own_reader;
mod passes;
mod reader;
mod reading;
mod script_line;
mod scripts;
mod writing;

pub use faults::ScriptFault;
pub use heads::Head;
pub use laws::law_runs_cover;
pub use own_reader::OwnReader;
pub use passes::{entries_of, pass_of};
pub use reader::{MOST_BYTES, Reader};
pub use reading::read;
pub use script_line::{Line, Lines};
pub use scripts::Script;
pub use writing::write;
