//! Answers: sums grouped by denominator.
#![tactic(auto)]

mod difference;
mod heads;
mod laws;
mod merge;
mod row;
mod rows;
mod shares;
mod terms;

pub use cube_model::Term;
pub use difference::SubFault;
pub use laws::{merge_laws, worked_merges};
pub use shares::{Share, terms_of_shares};
pub use terms::{MAX_COLUMNS, Terms, ViewList};
