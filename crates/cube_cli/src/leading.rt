//! The command that does a script over a store and writes what it changes as a feed.
ghost use Rattle.std.specs.Prelude.{◌≡◌, IsTrue, Some};
ghost use Rattle.fact_keeper.specs.Keeper.{StaysOpen};
ghost use Rattle.fact_keeper.specs.declared.content.Stored.{Stored};
ghost use Rattle.text_lines.specs.Input.{EndsOnce};
ghost use Rattle.script_run.specs.Seen.{keeper_seen, seen_of};
ghost use Rattle.cube_cli.specs.declared.command.Command.TheVariants as command;
ghost use Rattle.cube_cli.specs.declared.command.StoreCommand.TheVariants as store_command;
ghost use Rattle.cube_cli.specs.declared.store.InputTask.TheVariants as task;
ghost use Rattle.cube_cli.specs.End.{SaysOf};
ghost use Rattle.cube_cli.specs.Seen.{Holds};
ghost use Rattle.cube_cli.specs.Steps.{IsCubeOf};

use crate::End;
use crate::run_end::end_of_run;
use cube_base::{Sink, Source};
use cube_core::Cube;
use fact_keeper::Keeper;
use feed_run::lead_stream;
use schema_text::PolicyWord;
use std::alloc::Global;
use text_lines::LineInput;

/// Writes what the feed of a cube begins with, whose content an open store holds. Then it does the lines of a script as its input comes, and
/// writes the batches of these.
pub fn lead_over<S: Source, K: Sink, Q: Keeper>(
    alloc: Global,
    cube: Cube<PolicyWord>,
    source: &mut S,
    out: &mut K,
    keeper: &mut Q,
) -> End
    requires { IsTrue (Q.tells keeper.old).is_open }
    ensures says { (content : Stored) → Holds (keeper_seen Q.tells keeper.old keeper.new) (λ kept. content ≡ kept) → IsCubeOf cube content → SaysOf (Some (command.Store (store_command.Input task.Lead))) (seen_of S.tells K.tells Q.tells source.old source.new out.old out.new keeper.old keeper.new) result }
    ensures stays_open { StaysOpen (Q.tells keeper.old) (Q.tells keeper.new) }
    ensures ended { EndsOnce (S.tells source.old).ends (S.tells source.new).ends }
{
    let Ok(input) = LineInput::new(alloc) else {
        drop(cube);
        return End::Memory { done: 0 };
    };
    end_of_run(lead_stream(alloc, cube, input, source, out, keeper))
}
