//! Why a call on a store does nothing.
ghost use Rattle.std.specs.Prelude.{◌≡◌};
ghost use Rattle.sqlite_file.specs.FaultOf.{reason_of};
ghost use Rattle.sqlite_file.specs.declared.fault.Fault.TheVariants as fault_kind;

use crate::reason::Reason;
use cube_base::Memory;
use sqlite::{Error, ErrorCode};
use std::alloc::{AllocError, AllocFailed};

/// What stopped a call on a store.
#[derive(Clone, Copy, Debug, PartialEq, Eq)]
pub enum Fault {
    /// The file, the system below it, or what the file holds.
    Outside(Reason),
    /// Out of memory.
    Memory,
}

impl From<Error> for Fault {
    ghost use Rattle.sqlite_file.specs.FaultOf.{fault_of_error};

    ghost from_gives = { λ error fault. fault ≡ fault_of_error error };

    fn from(error: Error) -> Self {
        match error {
            Error::SqliteFailure(ErrorCode::OutOfMemory) => Fault::Memory,
            Error::SqliteFailure(code) => Fault::Outside(reason_of(code)),
            Error::InvalidColumnType(_, _)
            | Error::IntegralValueOutOfRange(_)
            | Error::Utf8Error(_) => Fault::Outside(Reason::Row),
            _ => Fault::Outside(Reason::Unreadable),
        }
    }
}

/// What a code of SQL's tells of the file.
fn reason_of(code: ErrorCode) -> Reason
    ensures { result ≡ reason_of code }
{
    match code {
        ErrorCode::DatabaseBusy => Reason::InUse,
        ErrorCode::CannotOpen => Reason::NoPermission,
        ErrorCode::DiskFull => Reason::DiskFull,
        ErrorCode::DatabaseCorrupt => Reason::Damaged,
        ErrorCode::SystemIoFailure | ErrorCode::Closed => Reason::Disk,
        ErrorCode::ConstraintViolation(_) | ErrorCode::TypeMismatch | ErrorCode::TooBig => {
            Reason::Refused
        }
        _ => Reason::Unreadable,
    }
}

impl From<Memory> for Fault {
    ghost from_gives = { λ _ fault. fault ≡ fault_kind.Memory };

    fn from(_: Memory) -> Self {
        Fault::Memory
    }
}

impl From<AllocError> for Fault {
    ghost from_gives = { λ _ fault. fault ≡ fault_kind.Memory };

    fn from(_: AllocError) -> Self {
        Fault::Memory
    }
}

impl<T: Drop> From<AllocFailed<T>> for Fault {
    ghost from_gives = { λ _ fault. fault ≡ fault_kind.Memory };

    fn from(_: AllocFailed<T>) -> Self {
        Fault::Memory
    }
}
