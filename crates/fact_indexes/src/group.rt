//! The facts of one region.
use alloc_rows::Alloc;
use cube_base::Cols;
use std::marker::Model;

/// What is kept of the facts of one region, which have one allocation between them. Contracts see how they are spread, how many
/// they are, and the sum of each column of their values.
#[derive(Drop)]
pub struct Group {
    /// How each of them is spread.
    pub spread: Alloc,
    /// How many they are: at least 1.
    pub members: u64,
    /// The sum of each column of their values, the count left out.
    pub sums: Cols,
}

impl Model for Group {
    ghost use Rattle.fact_groups.specs.Groups.{Group};

    ghost Value = { Group };

    ghost view = { λ g. record { spread = g.spread; count = g.members; sums = g.sums } };
}
