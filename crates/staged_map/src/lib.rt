//! Maps from numbers whose room is made before they change, so that a change that was prepared cannot be refused.
#![tactic(auto)]

mod hints;
mod staged;

pub use staged::Staged;
