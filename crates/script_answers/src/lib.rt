//! The answers to the questions of a script.
#![tactic(auto)]

mod depending;
mod ends;
mod figures;
mod questions;
mod tables;

pub use questions::{answer, reply};
