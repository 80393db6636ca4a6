//! A pool planner: the list of commands that leads from what hosts hold to what they are to hold.
//!
//! The list is made from what a control tells and tried on a fresh one, or the first fault is told. Its parts work over plain
//! lists: what is named wrongly, what a host holds in a region, and each act as its message.
#![tactic(auto)]

mod bad_names;
mod deciding;
mod gain_steps;
mod gaining;
mod held;
mod holdings;
mod letting_go;
mod losing;
mod messages;
mod naming;
mod opening;
mod planning;
mod printing;
mod program;
mod refusals;
mod release_steps;
mod replaying;
mod returning;
mod running;
mod shortness;
mod status;
mod trial;

pub use bad_names::{bad_dead, bad_demand};
pub use gain_steps::{accept_step, add_step};
pub use holdings::{blocks_in, extents_in_region};
pub use messages::PlanStep;
pub use plan_rules;
pub use planning::{Planned, plan};
pub use program::run_plan;
pub use release_steps::{clear_step, refusal_step, removal_step};
pub use returning::return_step;
pub use status::PlanStatus;
