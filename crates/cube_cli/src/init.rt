//! The command that makes a store.
ghost use Rattle.std.specs.Prelude.{◌≡◌, ◌∷◌, [], IfOk, IsTrue, List, ℕ, Ok, OnErr, OnOk, Some};
ghost use Rattle.fact_keeper.specs.Batch.{empty_content};
ghost use Rattle.fact_keeper.specs.Keeper.{CountsKeepFault, StaysOpen};
ghost use Rattle.text_lines.specs.Input.{EndsOnce, INPUT_LIMIT, Taken};
ghost use Rattle.script_run.specs.Kept.{Commits};
ghost use Rattle.script_run.specs.Seen.{NoReadFault, SourceSeen, keeper_seen, seen_of, sink_seen, told_of};
ghost use Rattle.cube_cli.specs.declared.command.Command.TheVariants as command;
ghost use Rattle.cube_cli.specs.declared.command.StoreCommand.TheVariants as store_command;
ghost use Rattle.cube_cli.specs.End.{SaysOf};
ghost use Rattle.cube_cli.specs.Loaded.{LoadedOnce};
ghost use Rattle.cube_cli.specs.SchemaAlone.{schema_alone};
ghost use Rattle.cube_cli.specs.Seen.{Holds};
ghost use Rattle.cube_cli.specs.Store.{schema_batch};

use crate::End;
use crate::run_end::{end_of_keep, end_of_schema, end_of_stop, end_of_write};
use crate::saying::write_line;
use crate::schema_alone::read_schema_alone;
use cube_base::{Ids, Memory, Sink, Source};
use fact_keeper::{Batch, KeepError, Keeper, KeptFacts, KeptRowsList};
use schema_text::{Schema, write_schema};
use std::alloc::Global;
use text_lines::{MAX_INPUT, take_input};

/// The reply: the schema refreshes no fact.
const LINE: &[u8] = b"ok\t0\n";

/// Keeps the schema that the input holds alone in the store of a name, in which there must be nothing, as its one canonical text,
/// and answers. The store is loaded before anything is read.
pub fn init<S: Source, K: Sink, Q: Keeper>(
    alloc: Global,
    name: &str,
    source: &mut S,
    out: &mut K,
    keeper: &mut Q,
) -> End
    ensures says { SaysOf (Some (command.Store store_command.Init)) (seen_of S.tells K.tells Q.tells source.old source.new out.old out.new keeper.old keeper.new) result }
    ensures loaded { LoadedOnce name.now (Q.tells keeper.old) (Q.tells keeper.new) (seen_of S.tells K.tells Q.tells source.old source.new out.old out.new keeper.old keeper.new) result }
    ensures ended { EndsOnce (S.tells source.old).ends (S.tells source.new).ends }
{
    match keeper.load(alloc, name) {
        Ok(content) => {
            let is_empty = content.is_empty();
            drop(content);
            if is_empty {
                init_empty(alloc, source, out, keeper)
            } else {
                End::HasCube
            }
        }
        Err(error) => end_of_keep(error),
    }
}

// Keeps the schema that the input holds alone in an open store in which there is nothing, and answers.
fn init_empty<S: Source, K: Sink, Q: Keeper>(
    alloc: Global,
    source: &mut S,
    out: &mut K,
    keeper: &mut Q,
) -> End
    requires { IsTrue (Q.tells keeper.old).is_open }
    ensures says { Holds (keeper_seen Q.tells keeper.old keeper.new) (λ kept. kept ≡ empty_content) →
        SaysOf (Some (command.Store store_command.Init)) (seen_of S.tells K.tells Q.tells source.old source.new out.old out.new keeper.old keeper.new) result }
    ensures stays_open { StaysOpen (Q.tells keeper.old) (Q.tells keeper.new) }
    ensures ended { EndsOnce (S.tells source.old).ends (S.tells source.new).ends }
{
    let input = match take_input(alloc, source, MAX_INPUT) {
        Ok(input) => input,
        Err(stop) => return end_of_stop(stop),
    };
    match read_schema_alone(alloc, &input) {
        Ok(schema) => init_schema(alloc, schema, out, keeper),
        Err(fault) => end_of_schema(fault),
    }
}

// Keeps the schema that a whole input holds alone in such a store, and answers.
fn init_schema<K: Sink, Q: Keeper>(
    alloc: Global,
    schema: Schema,
    out: &mut K,
    keeper: &mut Q,
) -> End
    requires { IsTrue (Q.tells keeper.old).is_open }
    ensures says { (source : SourceSeen) (input : List ℕ) → Taken INPUT_LIMIT source.left source.left_after input → NoReadFault source → schema_alone input ≡ Ok schema
        → Holds (keeper_seen Q.tells keeper.old keeper.new) (λ kept. kept ≡ empty_content) →
        SaysOf (Some (command.Store store_command.Init)) (record { source = source; sink = sink_seen K.tells out.old out.new; keeper = keeper_seen Q.tells keeper.old keeper.new }) result }
    ensures stays_open { StaysOpen (Q.tells keeper.old) (Q.tells keeper.new) }
{
    let kept = keep_schema(alloc, &schema, keeper);
    drop(schema);
    match kept {
        Ok(()) => end_of_write(write_line(out, LINE), 0, 1),
        Err(error) => end_of_keep(error),
    }
}

// Keeps a schema in an open store.
fn keep_schema<Q: Keeper>(alloc: Global, schema: &Schema, keeper: &mut Q) -> Result<(), KeepError>
    requires { IsTrue (Q.tells keeper.old).is_open }
    ensures kept { OnOk result (Commits (schema_batch schema.now ∷ []) (told_of Q.tells keeper.old) (told_of Q.tells keeper.new)) }
    ensures not_kept { OnErr result (told_of Q.tells keeper.new ≡ told_of Q.tells keeper.old) }
    ensures count { CountsKeepFault (Q.tells keeper.old).faults (Q.tells keeper.new).faults result }
    ensures stays_open { StaysOpen (Q.tells keeper.old) (Q.tells keeper.new) }
{
    let Ok(batch) = schema_batch(alloc, schema) else {
        return Err(KeepError::Memory);
    };
    let kept = keeper.commit(&batch);
    drop(batch);
    kept
}

// The batch of a new store.
fn schema_batch(alloc: Global, schema: &Schema) -> Result<Batch, Memory>
    ensures { IfOk result (λ batch. batch ≡ schema_batch schema.now) }
{
    Ok(Batch {
        schema: Some(write_schema(alloc, schema)?),
        gone: Ids::new(alloc),
        facts: KeptFacts::new(alloc),
        rows: KeptRowsList::new(alloc),
    })
}
