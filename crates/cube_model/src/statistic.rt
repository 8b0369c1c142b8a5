//! What a policy knows of a cell.

/// The precise facts of a cell.
#[derive(Clone, Copy, Debug, PartialEq, Eq)]
pub struct CellStat {
    /// How many there are, at most 2^20.
    pub count: u64,
    /// The sum of what each adds by the policy, at most 10^12: the value of a column, or 0 under a policy that looks at
    /// the number alone.
    pub sum: u64,
}
