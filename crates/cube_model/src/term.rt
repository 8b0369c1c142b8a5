//! One term of an answer.
use cube_base::Nums;

/// What the facts of one denominator add up to inside a region: a count and sums over that denominator.
#[derive(Debug, Drop)]
pub struct Term {
    /// The denominator.
    pub den: u64,
    /// The numerator of the count.
    pub count: u128,
    /// The numerators of the columns of values, in their order.
    pub sums: Nums,
}
