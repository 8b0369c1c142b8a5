//! A store stays sound: what edits, growths, imports and scripts commit leaves the facts and rows of the state that they reach. The
//! functions do nothing: each law is the contract.
#![tactic(auto)]

mod laws;

pub use laws::{
    edits_keep_stores_sound, growths_keep_stores_sound, imports_keep_stores_sound,
    new_stores_are_sound, rebuilding_makes_stores_sound, runs_leave_stores_sound,
    scripts_go_on_over_what_is_kept, scripts_keep_stores_sound,
};
