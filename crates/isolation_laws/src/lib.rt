//! Isolation: what a host is told depends on its own steps and on what is delivered to it, and on nothing else.
#![tactic(auto)]

mod deliveries;
mod items;
mod laws;

pub use deliveries::own_items;
pub use device_rules;
pub use items::{Item, Items, SoloReplies, SoloReply};
pub use laws::{law_clean, law_holdings, law_isolated, law_lawful, law_two_worlds, law_view};
