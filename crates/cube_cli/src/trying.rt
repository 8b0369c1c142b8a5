//! The command that does a script on a cube without a store.
ghost use Rattle.std.specs.Prelude.{◌≡◌, ◌+◌, ◌<◌, ◌^◌, ℕ, List, false, true, length, IfErr, Some};
ghost use Rattle.std.specs.Io.KnownBytes.{IsAtEnd};
ghost use Rattle.text_lines.specs.Input.{EndsOnce};
ghost use Rattle.text_lines.specs.Pieces.{pieces_of};
ghost use Rattle.schema_text.specs.Schema.{weigh_of};
ghost use Rattle.script_run.specs.Run.{empty_state};
ghost use Rattle.script_run.specs.Seen.{KeeperSeen, sink_seen, source_seen};
ghost use Rattle.script_run.specs.Stream.{EndsFrom, is_keep_stop};
ghost use Rattle.cube_cli.specs.declared.command.Command.TheVariants as command;
ghost use Rattle.cube_cli.specs.End.{SaysOf};
ghost use Rattle.cube_cli.specs.Seen.{WasNotCalled};
ghost use Rattle.cube_cli.specs.Trying.{EndsUnkept};

use crate::End;
use crate::run_end::{end_of_head, end_of_run};
use crate::schema_lines::take_schema;
use cube_base::{Sink, Source};
use cube_core::Cube;
use fact_keeper::NoKeeper;
use schema_text::Schema;
use script_run::{BreakOff, StreamStop, run_stream};
use std::alloc::Global;
use text_lines::LineInput;

/// Takes a schema, and does the script after it as its input comes. No keeper is called.
pub fn try_input<S: Source, K: Sink>(alloc: Global, source: &mut S, out: &mut K) -> End
    ensures says { (keeper : KeeperSeen) → WasNotCalled keeper →
        SaysOf (Some command.Try) (record { source = source_seen S.tells source.old source.new; sink = sink_seen K.tells out.old out.new; keeper = keeper }) result }
    ensures ended { EndsOnce (S.tells source.old).ends (S.tells source.new).ends }
{
    let Ok(mut input) = LineInput::new(alloc) else {
        return End::Memory { done: 0 };
    };
    match take_schema(alloc, &mut input, source) {
        Ok(schema) => end_of_run(run_schema_script(alloc, schema, input, source, out)),
        Err(stop) => end_of_head(stop),
    }
}

// Does the lines of a script on a cube of the schema and its policy as its input comes, writes their replies, and says how many are
// refused. Nothing is kept.
fn run_schema_script<S: Source, K: Sink>(
    alloc: Global,
    schema: Schema,
    input: LineInput,
    source: &mut S,
    out: &mut K,
) -> Result<u64, StreamStop>
    requires short { length input.lines.lines + input.pieces.room < 2 ^ 61 }
    requires ended { input.pieces.is_ended ≡ true → IsAtEnd (S.tells source.old).left }
    ensures ends { (text : List ℕ) → input.lines.lines ≡ pieces_of text →
        EndsUnkept (weigh_of schema.policy) schema text input.pieces.room (source_seen S.tells source.old source.new) (sink_seen K.tells out.old out.new) result }
    ensures no_keep { IfErr result (λ stop. is_keep_stop stop ≡ false) }
    ensures ended { EndsFrom input.pieces.is_ended (S.tells source.old).ends (S.tells source.new).ends }
{
    let policy = schema.policy();
    let Ok(cube) = Cube::new(alloc, schema, policy) else {
        return Err(StreamStop::Broke(BreakOff::Memory { done: 0 }));
    };
    run_stream(alloc, cube, input, false, source, out, &mut NoKeeper::new())
}
