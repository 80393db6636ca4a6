//! The rules of a plan that leads from the holdings of a pool to demanded ones: the demands as a user writes them in JSON, the
//! list of acts, why there is none, and what it leaves.
//!
//! The list and the faults are definitions (`specs/`); the laws say that they depend on what has happened alone, what each
//! act makes of every host's extents, and that a whole plan leaves the holdings that were demanded and all else as it was.
#![tactic(auto)]

mod demand_faults;
mod demands;
mod faults;
mod giving_back;
mod laws;
mod letting_go;
mod meets;
mod members;
mod private_tags;
mod reading;
mod taking;

pub use demand_faults::DemandFault;
pub use demands::{Demand, Demands};
pub use faults::PlanFault;
pub use giving_back::{law_given_back, law_whole_blocks};
pub use isolation_laws::device_rules;
pub use laws::{law_plan_alike, law_same_plan, law_succeeds};
pub use letting_go::{law_log_cleared, law_offer_let_go, law_region_emptied, law_scrub_keeps};
pub use meets::{law_acts_leave, law_meets, law_of_room};
pub use private_tags::{law_host_tags, law_private_tags};
pub use reading::read_demands;
pub use taking::{law_free_offered, law_offer_taken, law_room_alone};
