//! Why an edit or an import fails.
use cube_base::{Code, Memory};
use edit_plan::{PlanAllFault, PlanFault};
use fact_keeper::KeepError;
use fact_records::BadRecord;
use region_algebra::GrowFault;
use thiserror::Error;

/// Why an edit is not done. The cube is as it was.
#[derive(Clone, Copy, Debug, Error, PartialEq, Eq)]
pub enum EditFault {
    /// It is refused. The code is not `Rows`.
    #[error("refused: {word}", word = .0.word())]
    Code(Code),
    /// It is refused since the facts after it would have more than 2^21 rows: so many.
    #[error("there would be {would} rows")]
    Rows { would: u64 },
    /// The keeper had a fault, and counts it. No rule refuses the edit.
    #[error("the store failed")]
    KeepFault,
    /// Out of memory. The edit is refused by no code that is judged before its rows are made.
    #[error("no memory")]
    Memory,
}

impl From<Memory> for EditFault {
    ghost use Rattle.std.specs.Prelude.{◌≡◌};
    ghost use Rattle.cube_core.specs.declared.fault.EditFault.TheVariants as edit_fault;

    ghost from_gives = { λ _ fault. fault ≡ edit_fault.Memory };

    fn from(_: Memory) -> Self {
        EditFault::Memory
    }
}

impl From<PlanFault> for EditFault {
    ghost use Rattle.std.specs.Prelude.{◌≡◌};
    ghost use Rattle.cube_core.specs.Cube.{fault_of_plan};

    ghost from_gives = { λ planned fault. fault ≡ fault_of_plan planned };

    fn from(fault: PlanFault) -> Self {
        match fault {
            PlanFault::Code(code) => EditFault::Code(code),
            PlanFault::Rows { would } => EditFault::Rows { would },
            PlanFault::Memory => EditFault::Memory,
        }
    }
}

impl From<PlanAllFault> for EditFault {
    ghost use Rattle.std.specs.Prelude.{◌≡◌};
    ghost use Rattle.cube_core.specs.Respread.{fault_of_plan_all};

    ghost from_gives = { λ planned fault. fault ≡ fault_of_plan_all planned };

    fn from(fault: PlanAllFault) -> Self {
        match fault {
            PlanAllFault::Rows { would } => EditFault::Rows { would },
            PlanAllFault::Memory => EditFault::Memory,
        }
    }
}

impl From<GrowFault> for EditFault {
    ghost use Rattle.std.specs.Prelude.{◌≡◌};
    ghost use Rattle.cube_core.specs.Growth.{fault_of_growth};

    ghost from_gives = { λ grown fault. fault ≡ fault_of_growth grown };

    fn from(fault: GrowFault) -> Self {
        match fault {
            GrowFault::Name => EditFault::Code(Code::Name),
            GrowFault::Depth => EditFault::Code(Code::Depth),
            GrowFault::Limit => EditFault::Code(Code::Limit),
            GrowFault::Cells => EditFault::Code(Code::Cells),
            GrowFault::Nodes => EditFault::Code(Code::Nodes),
            GrowFault::Memory => EditFault::Memory,
        }
    }
}

impl From<KeepError> for EditFault {
    ghost use Rattle.std.specs.Prelude.{◌≡◌};
    ghost use Rattle.cube_core.specs.Cube.{fault_of_keeper};

    ghost from_gives = { λ kept fault. fault ≡ fault_of_keeper kept };

    fn from(fault: KeepError) -> Self {
        match fault {
            KeepError::Failed => EditFault::KeepFault,
            KeepError::Memory => EditFault::Memory,
        }
    }
}

/// Why the facts of a file are not put. The cube is as it was.
#[derive(Clone, Copy, Debug, Error, PartialEq, Eq)]
pub enum ImportFault {
    /// The first record that is refused.
    #[error("record {index}: {word}", index = .0.index, word = .0.code.word())]
    BadRecord(BadRecord),
    /// No record is refused, but all facts then would have more than 2^21 rows: so many.
    #[error("there would be {would} rows")]
    Rows { would: u64 },
    /// The keeper had a fault, and counts it. Nothing refuses the file.
    #[error("the store failed")]
    KeepFault,
    /// Out of memory.
    #[error("no memory")]
    Memory,
}

impl From<Memory> for ImportFault {
    ghost use Rattle.std.specs.Prelude.{◌≡◌};
    ghost use Rattle.cube_core.specs.declared.fault.ImportFault.TheVariants as import_fault;

    ghost from_gives = { λ _ fault. fault ≡ import_fault.Memory };

    fn from(_: Memory) -> Self {
        ImportFault::Memory
    }
}

impl From<PlanAllFault> for ImportFault {
    ghost use Rattle.std.specs.Prelude.{◌≡◌};
    ghost use Rattle.cube_core.specs.Import.{import_fault_of_plan};

    ghost from_gives = { λ planned fault. fault ≡ import_fault_of_plan planned };

    fn from(fault: PlanAllFault) -> Self {
        match fault {
            PlanAllFault::Rows { would } => ImportFault::Rows { would },
            PlanAllFault::Memory => ImportFault::Memory,
        }
    }
}

impl From<KeepError> for ImportFault {
    ghost use Rattle.std.specs.Prelude.{◌≡◌};
    ghost use Rattle.cube_core.specs.Import.{import_fault_of_keeper};

    ghost from_gives = { λ kept fault. fault ≡ import_fault_of_keeper kept };

    fn from(fault: KeepError) -> Self {
        match fault {
            KeepError::Failed => ImportFault::KeepFault,
            KeepError::Memory => ImportFault::Memory,
        }
    }
}
