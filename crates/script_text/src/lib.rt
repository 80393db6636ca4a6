//! Scripts as texts that people write and read.
//!
//! `parse` answers the script that a text says, or its first fault with its line and its word. `print` appends the one text
//! of a script, which `parse` reads as that script.
#![tactic(auto)]

mod actors;
mod configs;
mod heads;
mod host_requests;
mod laws;
mod lines;
mod lists;
mod manager_requests;
mod naming;
mod parsing;
mod policies;
mod printing;
mod sizes;
pub mod words;

pub use laws::law_says;
pub use lines::write_line;
pub use parsing::parse;
pub use printing::print;
pub use text_lines;
pub use text_lines::{Cause, Keyword, TextFault, Wanted, script_codec};
