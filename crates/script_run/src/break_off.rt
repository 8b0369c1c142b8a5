//! How the run of a script breaks off.
ghost use Rattle.std.specs.Prelude.{◌≡◌};
ghost use Rattle.script_run.specs.Progress.{break_off_at};

use cube_base::SinkError;

/// Why a script was not done to its end. Its lines are counted from 1.
#[derive(Clone, Copy, Debug, PartialEq, Eq)]
pub enum BreakOff {
    /// A write failed: the reply to this line is not whole.
    Write { line: u64 },
    /// The sink was out of memory: the reply to this line is not whole.
    SinkMemory { line: u64 },
    /// It ran out of memory when so many lines were done. The replies that were gathered are written.
    Memory { done: u64 },
    /// The keeper failed at the line after so many, which are done. Their replies are written.
    Keep { done: u64 },
}

impl BreakOff {
    /// How a run breaks off whose sink took a part of the reply to a line.
    pub fn at(error: SinkError, line: u64) -> Self
        ensures { result ≡ break_off_at error line }
    {
        match error {
            SinkError::Failed => BreakOff::Write { line },
            SinkError::Memory => BreakOff::SinkMemory { line },
        }
    }
}
