//! The whole drill of a number.
ghost use Rattle.std.specs.Prelude.{◌≡◌, ◌≤◌, IfOk};
ghost use Rattle.drill_run.specs.Doing.{blank_tally, drill_of};
ghost use Rattle.drill_run.specs.Summary.{summary_of};

use crate::drill::Drill;
use crate::schema::read_drill_schema;
use crate::summary::summary;
use cube_base::{Bytes, Memory};
use std::alloc::Global;

/// The most facts of a drill.
pub const MAX_DRILL: u64 = 100_000;

/// The result of a drill.
#[derive(Debug, Drop)]
pub struct Summary {
    /// The line that tells it, with its end.
    pub line: Bytes,
    /// How many of its edits were refused.
    pub refused: u64,
}

/// Makes a cube of the drill's schema, puts `n` facts, which `n` draws, and withdraws those of which 3 divides the id. `n` is from 1
/// to 100,000. The line has the word `drill`, `n`, the number of the facts that are left, that of their rows, how many facts the
/// edits refreshed altogether, and the exact count and sum of all that is left. The only error is running out of memory.
pub fn run_drill(alloc: Global, n: u64) -> Result<Summary, Memory>
    requires { n ≤ MAX_DRILL }
    ensures line { IfOk result (λ s. s.line ≡ summary_of n) }
    ensures refused { IfOk result (λ s. s.refused ≡ (drill_of n).refused) }
{
    let mut drill = Drill::new(alloc, read_drill_schema(alloc)?)?;
    carry_out(alloc, &mut drill, n)
}

// Does the edits on a cube to which nothing was done, and reports what they resulted in.
fn carry_out(alloc: Global, drill: &mut Drill, n: u64) -> Result<Summary, Memory>
    requires most { n ≤ MAX_DRILL }
    requires blank { drill.old ≡ blank_tally }
    ensures line { IfOk result (λ s. s.line ≡ summary_of n) }
    ensures refused { IfOk result (λ s. s.refused ≡ (drill_of n).refused) }
{
    drill.put_all(n)?;
    drill.withdraw_thirds(n)?;
    Ok(Summary {
        line: summary(alloc, drill, n)?,
        refused: drill.refused_count(),
    })
}
