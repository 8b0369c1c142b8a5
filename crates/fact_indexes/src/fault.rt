//! Why facts are not kept.
ghost use Rattle.std.specs.Prelude.{◌≡◌};
ghost use Rattle.fact_indexes.specs.declared.fault.TooMany.TheVariants as too_many;

use cube_base::Memory;

/// Why not all that a cube keeps of facts was made.
#[derive(Clone, Copy, Debug, PartialEq, Eq)]
pub enum TooMany {
    /// The facts have more than 2^21 rows: so many.
    Rows { would: u64 },
    /// Out of memory.
    Memory,
}

impl From<Memory> for TooMany {
    ghost from_gives = { λ _ fault. fault ≡ too_many.Memory };

    fn from(_: Memory) -> Self {
        TooMany::Memory
    }
}
