//! Views: for the regions of a product of cuts, what the facts in each add up to, kept in step with changes of facts.
#![tactic(auto)]

mod change;
mod cut;
mod cut_table;
mod cuts;
mod drafts;
mod laws;
mod view;
mod views;

pub use change::{Share, ViewChange, ViewStage};
pub use cuts::Cuts;
pub use group_sum::ViewList;
pub use laws::{
    views_answer_as_their_facts, views_follow_their_facts, views_list_in_the_order_of_their_cuts,
    worked_changes, worked_views,
};
pub use region_algebra::{Depths, ViewDef, ViewDefs};
pub use view::View;
pub use views::Views;
