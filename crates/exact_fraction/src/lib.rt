//! One exact fraction, or sound bounds, within 128 bits: the arithmetic of a count, a sum, an average and pooling.
#![tactic(auto)]

mod column;
mod division;
mod fraction;
mod gcd;
mod laws;
mod quotients;
mod sums;

pub use division::{quotient, remainder};
pub use group_sum::Terms;
pub use laws::{worked_examples, worked_wide_quotients, worked_wide_sums};
pub use quotients::{Quotient, ratio};
pub use sums::{Value, one};
