//! The state of a cube: its facts, with all that is kept of them so that an edit looks at few of them, and what an edit makes of its
//! groups, statistics, index and views.
#![tactic(auto)]

mod answering;
mod changed_groups;
mod edit_moves;
mod edit_reach;
mod edited;
mod group_after;
mod group_draft;
mod noting;
mod ranging;
mod region_spreads;
mod renewing;
mod room;
mod sets;
mod state;
mod tabling;
mod uncounted;
mod viewing;

pub use changed_groups::Regrouped;
pub use edit_moves::Moves;
pub use edited::edited_id;
pub use fact_indexes::{Group, TooMany};
pub use ranging::{Ends, column_of};
pub use sets::Sets;
pub use state::State;
pub use tabling::worked_tables;
pub use touched_cells::Change;
pub use uncounted::look_up;
