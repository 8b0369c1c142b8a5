//! Why a call failed: out of memory, or a fault of the outside.
ghost use Rattle.std.specs.Prelude.{◌≡◌};
ghost use Rattle.cube_base.specs.declared.fault.SinkError.TheVariants as sink_error;

use std::alloc::{AllocError, AllocFailed};

/// Out of memory: an allocation was refused. What was there before the call stands as it was.
#[derive(Clone, Copy, Debug, PartialEq, Eq)]
pub struct Memory;

impl From<AllocError> for Memory {
    fn from(_: AllocError) -> Self {
        Memory
    }
}

impl<T: Drop> From<AllocFailed<T>> for Memory {
    fn from(_: AllocFailed<T>) -> Self {
        Memory
    }
}

/// A fault of the outside: a source could not be read. The source counts it.
#[derive(Clone, Copy, Debug, PartialEq, Eq)]
pub struct Failed;

/// Why a sink took nothing.
#[derive(Clone, Copy, Debug, PartialEq, Eq)]
pub enum SinkError {
    /// A fault of the outside. The sink counts it.
    Failed,
    /// Out of memory.
    Memory,
}

impl From<AllocError> for SinkError {
    ghost from_gives = { λ _ e. e ≡ sink_error.Memory };

    fn from(_: AllocError) -> Self {
        SinkError::Memory
    }
}

impl From<Failed> for SinkError {
    ghost from_gives = { λ _ e. e ≡ sink_error.Failed };

    fn from(_: Failed) -> Self {
        SinkError::Failed
    }
}
