//! Turns of the sanitizer: which dirty granules are zeroed next, and that they are free from then on.
//!
//! A turn changes the states of granules. Their words are zeroed by who keeps them, run by run. Who keeps more of
//! the granules than their states takes `dirty_runs` alone, and makes the change.
#![tactic(auto)]

pub use granule_map;

mod scrubbing;
mod search;

pub use scrubbing::{dirty_runs, turn};
