//! Why a line is refused.
ghost use Rattle.std.specs.Prelude.{◌≡◌};
ghost use Rattle.schema_text.specs.declared.fault.LineFault.TheVariants as line_fault;
ghost use Rattle.schema_text.specs.Fault.{at_line, of_numbers};

use crate::schema::SchemaFault;
use cube_base::{Code, Memory};
use cube_model::DimFault;
use std::alloc::AllocFailed;

/// Why a line of a schema is not taken.
#[derive(Clone, Copy)]
pub enum LineFault {
    /// The line is refused.
    Refused(Code),
    /// Out of memory.
    Memory,
}

impl From<Memory> for LineFault {
    ghost from_gives = { λ _ fault. fault ≡ line_fault.Memory };

    fn from(_: Memory) -> Self {
        LineFault::Memory
    }
}

impl<T: Drop> From<AllocFailed<T>> for LineFault {
    ghost from_gives = { λ _ fault. fault ≡ line_fault.Memory };

    fn from(_: AllocFailed<T>) -> Self {
        LineFault::Memory
    }
}

impl LineFault {
    /// The fault of nodes that may be refused for their numbers alone.
    pub fn of_numbers(fault: DimFault) -> Self
        ensures { result ≡ of_numbers fault }
    {
        match fault {
            DimFault::Memory => LineFault::Memory,
            _ => LineFault::Refused(Code::Number),
        }
    }

    /// The fault of the schema, where the line has this number.
    pub fn at(self, line: u64) -> SchemaFault
        ensures { result ≡ at_line line self }
    {
        match self {
            LineFault::Refused(code) => SchemaFault::Bad { line, code },
            LineFault::Memory => SchemaFault::Memory,
        }
    }
}
