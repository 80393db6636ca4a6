//! The printed text of a journal and its summary, and the lines of scripts that are refused.
//!
//! Whatever is printed goes to a sink in pieces and takes no memory.
#![tactic(auto)]

mod entry_lines;
mod printing;
mod refusals;
mod rendering;
mod state_lines;
mod words;

pub use control_core;
pub use control_core::{device_rules, kept_journal};
pub use refusals::{refusal, usage};
pub use rendering::{render, summary};
pub use script_codec;
