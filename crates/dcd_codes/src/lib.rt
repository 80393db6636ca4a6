//! The return codes of a command, and the rules that a command may break.
#![tactic(auto)]

pub use dcd_base;

mod codes;
mod refusals;
mod rules;

pub use codes::{Code, number_of};
pub use refusals::Refusal;
pub use rules::{Rule, code_of};
