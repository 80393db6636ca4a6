//! Lines of a script in words: what a person writes and reads.
//!
//! `opening` reads the first word of a line and `rest` what stands behind it. Where the words are no line, they answer the
//! first fault, with its line and its word. `write_cause` says why a command is refused.
#![tactic(auto)]

mod actors;
mod causes;
mod characters;
mod commands;
mod extents;
mod faults;
pub mod fields;
mod forms;
mod fronts;
mod host_reading;
mod keywords;
mod laws;
mod line_words;
mod lines;
mod lists;
mod manager_reading;
mod messages;
mod numbers;
mod openings;
mod pairs;
mod policies;
mod printing;
mod sizes;
mod word_faults;
mod words;

pub use actors::Frame;
pub use causes::{write_cause, write_code_number};
pub use commands::{HostCommand, ManagerCommand};
pub use extents::{extent_of, write_extent};
pub use faults::{Cause, TextFault, Wanted};
pub use fronts::{gaps, place_of, plain};
pub use keywords::Keyword;
pub use laws::{law_decimal, law_extent, law_hexadecimal, law_pair, law_size, law_sizes, law_tag};
pub use line_words::{TextLines, without_return};
pub use lines::{opening, rest};
pub use numbers::{decimal_of, number_of};
pub use openings::Opening;
pub use pairs::{tag_of, write_pairs, write_pairs_of, write_tag};
pub use printing::{write_decimal, write_hexadecimal, write_size};
pub use script_codec;
pub use sizes::{sizes_of, write_sizes};
pub use word_faults::NumberFault;
pub use words::Words;
