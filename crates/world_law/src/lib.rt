//! Possible worlds of facts that are spread over cells, and what a region's totals over all of them are.
#![tactic(auto)]

mod judge;
mod laws;
mod placed;
mod settle;
mod sum;
mod walk;

pub use judge::{MAX_MASS, MAX_WORLDS};
pub use laws::{
    answers_add_up_over_children, answers_are_expected, ids_do_not_matter, mass_is_a_product,
    refusals_are_exact, totals_are_expected, worked_worlds, worked_worlds_of_three_cells,
};
pub use placed::Placed;
pub use sum::{WorldFault, WorldSum, enumerate};
