//! The drill of a number as a command.
ghost use Rattle.std.specs.Prelude.{◌≤◌, Some};
ghost use Rattle.drill_run.specs.Edits.{MAX_DRILL};
ghost use Rattle.cube_cli.specs.declared.command.Command.TheVariants as command;
ghost use Rattle.cube_cli.specs.End.{SaysOf};
ghost use Rattle.cube_cli.specs.Seen.{WasNotCalled, WasNotRead};
ghost use Rattle.script_run.specs.Seen.{KeeperSeen, SourceSeen, sink_seen};

use crate::End;
use crate::run_end::end_of_write;
use crate::saying::write_line;
use cube_base::Sink;
use drill_run::run_drill;
use std::alloc::Global;

/// Does the drill of a number, and writes its line. Nothing is read, and no keeper is called.
pub fn drill<K: Sink>(alloc: Global, n: u64, out: &mut K) -> End
    requires { n ≤ MAX_DRILL }
    ensures { (source : SourceSeen) (keeper : KeeperSeen) → WasNotRead source → WasNotCalled keeper →
        SaysOf (Some (command.Drill n)) (record { source = source; sink = sink_seen K.tells out.old out.new; keeper = keeper }) result }
{
    let Ok(summary) = run_drill(alloc, n) else {
        return End::Memory { done: 0 };
    };
    end_of_write(write_line(out, summary.line.as_slice()), summary.refused, 0)
}
