//! Iterated allocation: imprecise facts are shared among the cells in which they may lie, round after round, as these cells stand.
#![tactic(auto)]

mod begun;
mod claims;
mod counting;
mod fault;
mod forest;
mod iteration;
mod labelling;
mod laws;
mod layout;
mod marks;
mod one_component;
mod portions;
mod rounds;
mod shares;
mod spots;
mod totals;

pub use counting::MOST_CELLS;
pub use fault::IterFault;
pub use iteration::iterate;
pub use labelling::components;
pub use laws::{labels_are_components, rounds_of_components_suffice, worked_iteration};
pub use one_component::component;
