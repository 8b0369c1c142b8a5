//! Edits of a cube, planned: an edit is judged and prepared over a state, and its plan is installed without memory.
#![tactic(auto)]

mod counting;
mod fault;
mod installing;
mod plan_change;
mod plan_lists;
mod planning;
mod prepared;
mod refreshed;
mod refreshing;
mod spread;
mod storing;
mod whole;

pub use fault::{PlanAllFault, PlanFault};
pub use installing::install;
pub use plan_lists::{Detail, PlanLists};
pub use planning::plan;
pub use prepared::Plan;
pub use refreshed::Refreshed;
pub use whole::plan_all;
