//! The limits on what a cube holds.

/// The most dimensions of a space.
pub const MAX_DIMS: usize = 6;

/// The most nodes of a dimension.
pub const MAX_NODES: usize = 65_536;

/// The greatest depth of a node.
pub const MAX_DEPTH: u8 = 8;

/// The cells of a space are fewer than this, and so are its regions.
pub const SPACE_LIMIT: u64 = 1 << 62;

/// The greatest absolute value of a number measure.
pub const MAX_VALUE: u64 = 1_000_000_000_000;

/// The least scale of a distribution.
pub const MIN_SCALE: u32 = 1;

/// The greatest scale of a distribution.
pub const MAX_SCALE: u32 = 1_000_000;

/// The least id of a fact.
pub const MIN_ID: u64 = 1;

/// The greatest id of a fact.
pub const MAX_ID: u64 = 9_223_372_036_854_775_807;

/// The most cells of a fact's region.
pub const MAX_CELLS: u64 = 1 << 20;

/// The most facts.
pub const MAX_FACTS: u64 = 1 << 20;

/// The most rows of all facts together.
pub const MAX_ROWS: u64 = 1 << 21;

/// The greatest absolute value of a sum's numerator.
pub const WIDE: u128 = 1 << 120;
