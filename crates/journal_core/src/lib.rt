//! The words of the journal: acts, replies, effects and entries, and the order of a whole journal.
//!
//! The journal is the truth of the device. Its holders, lists, logs and words are defined as folds over the
//! entries, and all other parts are only ways to keep them at hand.
#![tactic(auto)]

mod acts;
mod entries;
mod holding;
mod loads_and_stores;
mod merging;
mod outcome;
mod seen;

pub use acts::{Act, Reply, fits};
pub use entries::{Effects, Entry, Journal};
pub use holding::holds;
pub use loads_and_stores::{Access, Accesses};
pub use merging::merge;
pub use outcome::{Effect, HeldKind};
pub use seen::{ActKind, ReplySeen, ResponseSeen, StepSeen};
