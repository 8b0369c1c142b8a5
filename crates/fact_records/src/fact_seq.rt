//! The facts of a file in its order.
use crate::FactRun;
use cube_base::Code;

/// A record that is refused.
#[derive(Clone, Copy, Debug, PartialEq, Eq)]
pub struct BadRecord {
    /// Its place among the records of the file, of which the header has place 0.
    pub index: u64,
    /// Why it is refused.
    pub code: Code,
}

/// Facts in the order of a file, up to the first record that cannot be read.
#[derive(Debug, Drop)]
pub struct FactSeq {
    /// The facts before that record, or all.
    pub facts: FactRun,
    /// That record, if there is one.
    pub bad: Option<BadRecord>,
}
