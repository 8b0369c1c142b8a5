//! What a plan does.
use cube_model::Edit;
use cube_state::Sets;
use fact_indexes::FactsKept;
use fact_records::FactRun;
use std::snapshot::Snapshot;

/// What a plan does to a state: an edit, or new facts all at once.
#[derive(Drop)]
pub enum PlanChange {
    /// It does an edit: what is kept beside the facts is set so, and the facts have so many rows then.
    Edit {
        edit: Edit,
        sets: Sets,
        rows: u64,
    },
    /// It puts new facts, which clauses alone see: all facts then, with all that is kept of them, take the place of those that are there.
    /// They stand in a box, so that an edit has not their size.
    All {
        new: Snapshot<FactRun>,
        all: Box<FactsKept>,
    },
}
