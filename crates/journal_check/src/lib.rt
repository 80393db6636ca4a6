//! Whether a text is the printed text of a journal of a script, or which line is the first wrong one.
#![tactic(auto)]

mod checking;
mod claims;
mod comparing;
mod following;
mod fronts;
mod laws;
mod parting;
mod printing;
mod program;
mod replaying;
mod status;

pub use checking::check;
pub use device_plain;
pub use device_plain::{control_core, device_rules, device_state, kept_journal};
pub use laws::{law_one_answer, law_one_journal};
pub use program::run_check;
pub use replaying::replay;
pub use report;
pub use status::CheckStatus;
