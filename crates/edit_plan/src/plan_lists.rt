//! What a plan lists where it is asked to.
use cube_base::Ids;
use fact_keeper::Batch;

/// How much a plan tells of what it does.
#[derive(Clone, Copy, Debug, PartialEq, Eq)]
pub enum Detail {
    /// The number of the facts that it refreshes, and no lists: these are not made.
    Number,
    /// That number, their ids, and what changes in a store.
    Lists,
}

/// What a plan does, listed.
#[derive(Drop)]
pub struct PlanLists {
    /// The ids of the facts that are new or whose allocation changed, ascending.
    pub refreshed: Ids,
    /// What changes in a store.
    pub batch: Batch,
}
