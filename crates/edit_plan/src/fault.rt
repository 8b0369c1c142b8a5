//! Why an edit is not planned, and why new facts are not.
ghost use Rattle.std.specs.Prelude.{◌≡◌};
ghost use Rattle.edit_plan.specs.declared.fault.PlanAllFault.TheVariants as plan_all_fault;
ghost use Rattle.edit_plan.specs.declared.fault.PlanFault.TheVariants as plan_fault;

use cube_base::{Code, Memory};
use fact_indexes::TooMany;

/// Why there is no plan of an edit. The state's content is as it was.
#[derive(Clone, Copy, Debug, PartialEq, Eq)]
pub enum PlanFault {
    /// The edit is refused. The code is not `Rows`.
    Code(Code),
    /// It is refused since the facts after it would have more than 2^21 rows: so many.
    Rows { would: u64 },
    /// Out of memory. The edit is refused by no code that is judged before its rows are made.
    Memory,
}

impl From<Memory> for PlanFault {
    ghost from_gives = { λ _ fault. fault ≡ plan_fault.Memory };

    fn from(_: Memory) -> Self {
        PlanFault::Memory
    }
}

/// Why there is no plan of new facts. The state is as it was.
#[derive(Clone, Copy, Debug, PartialEq, Eq)]
pub enum PlanAllFault {
    /// All facts would have more than 2^21 rows: so many.
    Rows { would: u64 },
    /// Out of memory.
    Memory,
}

impl From<Memory> for PlanAllFault {
    ghost from_gives = { λ _ fault. fault ≡ plan_all_fault.Memory };

    fn from(_: Memory) -> Self {
        PlanAllFault::Memory
    }
}

impl From<TooMany> for PlanAllFault {
    ghost use Rattle.edit_plan.specs.Whole.{fault_of_kept};

    ghost from_gives = { λ many fault. fault ≡ fault_of_kept many };

    fn from(many: TooMany) -> Self {
        match many {
            TooMany::Rows { would } => PlanAllFault::Rows { would },
            TooMany::Memory => PlanAllFault::Memory,
        }
    }
}
