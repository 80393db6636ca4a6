//! What the device keeps at a time, and how a step changes it.
//!
//! Each part of the state is a fold of the effects so far: the present block sizes, each host's lists and log, the manager's
//! log, the states of the granules, who holds them, and the open tags. `State::enter` goes through the effects of a step, and
//! takes no memory.
#![tactic(auto)]

mod alike;
mod changing;
mod counting;
mod entering;
mod granules;
mod holders;
mod laws;
mod leaving;
mod listing;
mod own_lists;
mod parts;
mod ranges;
mod records;
mod regions;
mod state;

pub use device_rules;
pub use holders::Holders;
pub use host_lists;
pub use laws::law_kept_entered;
pub use own_lists::enter_in;
pub use parts::HostPart;
pub use records::change_log_named;
pub use state::State;
