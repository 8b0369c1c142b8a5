//! Why nothing is answered.
ghost use Rattle.std.specs.Prelude.{◌≡◌};
ghost use Rattle.iter_alloc.specs.declared.fault.IterFault.TheVariants as iter_fault;

use cube_base::Memory;

/// Why facts are not iterated, or their components not reported.
#[derive(Clone, Copy, Debug, PartialEq, Eq)]
pub enum IterFault {
    /// The cells of all imprecise facts, those of each fact counted, number more than [`crate::MOST_CELLS`].
    Many { cells: u64 },
    /// Out of memory.
    Memory,
}

impl From<Memory> for IterFault {
    ghost from_gives = { λ _ fault. fault ≡ iter_fault.Memory };

    fn from(_: Memory) -> Self {
        IterFault::Memory
    }
}
