//! What is found in a content that is not sound.
ghost use Rattle.std.specs.Prelude.{◌≡◌};
ghost use Rattle.store_audit.specs.Loading.{too_many_told};
ghost use Rattle.store_audit.specs.declared.finding.LoadFault.TheVariants as load_fault;

use cube_base::{Code, Memory};
use cube_state::TooMany;
use fact_keeper::KeptRows;

/// The first thing in a stored content that is not as it must be. They are looked for in the order of the variants.
#[derive(Debug, Drop)]
pub enum Finding {
    /// The text of the schema is refused: its first faulty line, counted from 1, and why.
    Schema {
        line: u64,
        code: Code,
    },
    /// The kept fact at a place, counted from 0, is refused: its id, and the first of these that holds. `Id`, the id is not from 1
    /// to 2^63 - 1, or not above the one before; `Node`, its nodes are no region of the space; `Value` or `Parts`, its values are
    /// none of the measures; `Region`, its region has more than 2^20 cells; `Facts`, there are 2^20 facts before it.
    Fact {
        place: u64,
        id: u64,
        code: Code,
    },
    /// The facts have more than 2^21 rows: so many.
    TooManyRows {
        would: u64,
    },
    /// The first place, counted from 0, at which the kept rows are others than those that the facts make, both ascending by id, with
    /// what stands there in each: None where the list has ended.
    Rows {
        place: u64,
        kept: Option<KeptRows>,
        anew: Option<KeptRows>,
    },
}

/// Why a stored content is not loaded.
#[derive(Debug, Drop)]
pub enum LoadFault {
    /// It is not sound: what was found first.
    Bad(Finding),
    /// Out of memory.
    Memory,
}

impl From<Memory> for LoadFault {
    ghost from_gives = { λ _ fault. fault ≡ load_fault.Memory };

    fn from(_: Memory) -> Self {
        LoadFault::Memory
    }
}

impl From<TooMany> for LoadFault {
    ghost from_gives = { λ many fault. fault ≡ too_many_told many };

    fn from(many: TooMany) -> Self {
        match many {
            TooMany::Rows { would } => LoadFault::Bad(Finding::TooManyRows { would }),
            TooMany::Memory => LoadFault::Memory,
        }
    }
}
