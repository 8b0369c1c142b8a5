//! The commands that take an input over a store that is there.
ghost use Rattle.std.specs.Prelude.{◌≡◌, IfErr, IfOk, IsTrue, MatchResult, Some};
ghost use Rattle.cube_base.specs.Outside.{next_count};
ghost use Rattle.fact_keeper.specs.Keeper.{StaysOpen};
ghost use Rattle.fact_keeper.specs.declared.content.Stored.{Stored};
ghost use Rattle.text_lines.specs.Input.{EndsOnce};
ghost use Rattle.script_run.specs.Seen.{keeper_seen, seen_of};
ghost use Rattle.cube_cli.specs.declared.command.Command.TheVariants as command;
ghost use Rattle.cube_cli.specs.declared.command.StoreCommand.TheVariants as store_command;
ghost use Rattle.cube_cli.specs.declared.store.InputTask.TheVariants as task;
ghost use Rattle.cube_cli.specs.declared.store.OpenStop.TheVariants as open_stop;
ghost use Rattle.cube_cli.specs.End.{SaysOf};
ghost use Rattle.cube_cli.specs.Loaded.{LoadedOnce, NamedAt, OpenedBy};
ghost use Rattle.cube_cli.specs.Seen.{Holds};
ghost use Rattle.cube_cli.specs.RunEnd.{load_fault_of};
ghost use Rattle.cube_cli.specs.Steps.{HoldsSchema, IsCubeOf, NotOpened, OpenedWith};

use crate::End;
use crate::importing::import_file;
use crate::leading::lead_over;
use crate::run_end::{end_of_load, end_of_open, end_of_run, end_of_stop};
use crate::schema_alone::read_schema_alone;
use cube_base::{Sink, Source};
use cube_core::{Cube, Finding, LoadFault};
use fact_keeper::{KeepError, Keeper, Stored};
use schema_text::{PolicyWord, Schema, SchemaFault};
use script_run::run_stream;
use std::alloc::Global;
use text_lines::{LineInput, MAX_INPUT, take_input};

/// What is done with an input over the cube of a store.
#[derive(Clone, Copy, Debug, PartialEq, Eq)]
pub enum InputTask {
    /// It is a script, and its lines are done.
    Run,
    /// It is a file of facts, and these are put.
    Import,
    /// It is a script, and its lines are done and written as a feed.
    Lead,
}

/// Does what is to be done with the input over the cube of the store of a name.
pub fn do_input<S: Source, K: Sink, Q: Keeper>(
    alloc: Global,
    name: &str,
    task: InputTask,
    source: &mut S,
    out: &mut K,
    keeper: &mut Q,
) -> End
    ensures says { SaysOf (Some (command.Store (store_command.Input task))) (seen_of S.tells K.tells Q.tells source.old source.new out.old out.new keeper.old keeper.new) result }
    ensures loaded { LoadedOnce name.now (Q.tells keeper.old) (Q.tells keeper.new) (seen_of S.tells K.tells Q.tells source.old source.new out.old out.new keeper.old keeper.new) result }
    ensures ended { EndsOnce (S.tells source.old).ends (S.tells source.new).ends }
{
    match open_store(alloc, name, keeper) {
        Ok((schema, content)) => do_store(alloc, task, schema, content, source, out, keeper),
        Err(stop) => end_of_open(stop),
    }
}

/// Why the store of a name is not opened.
#[derive(Debug, Drop)]
pub enum OpenStop {
    /// There is nothing in it.
    NoCube,
    /// The keeper failed.
    Fault,
    /// It is not loaded.
    Load(LoadFault),
}

/// Loads the store of a name: its content and the schema in it.
pub fn open_store<Q: Keeper>(
    alloc: Global,
    name: &str,
    keeper: &mut Q,
) -> Result<(Schema, Stored), OpenStop>
    ensures opened { IfOk result (λ store. OpenedWith store.0 store.1 (keeper_seen Q.tells keeper.old keeper.new)) }
    ensures open { IfOk result (λ _. IsTrue (Q.tells keeper.new).is_open) }
    ensures open_empty { IfErr result (λ stop. stop ≡ open_stop.NoCube → IsTrue (Q.tells keeper.new).is_open) }
    ensures not_opened { IfErr result (NotOpened (keeper_seen Q.tells keeper.old keeper.new)) }
    ensures loads { (Q.tells keeper.new).loads ≡ next_count (Q.tells keeper.old).loads }
    ensures named { MatchResult result (λ _. OpenedBy name.now (Q.tells keeper.new)) (NamedAt name.now (Q.tells keeper.old) (Q.tells keeper.new)) }
{
    let content = match keeper.load(alloc, name) {
        Ok(content) => content,
        Err(KeepError::Failed) => return Err(OpenStop::Fault),
        Err(KeepError::Memory) => return Err(OpenStop::Load(LoadFault::Memory)),
    };
    if content.is_empty() {
        drop(content);
        return Err(OpenStop::NoCube);
    }
    match read_schema_alone(alloc, content.schema.as_slice()) {
        Ok(schema) => Ok((schema, content)),
        Err(fault) => {
            drop(content);
            Err(OpenStop::Load(load_fault_of(fault)))
        }
    }
}

// Why a content is not loaded whose text is not read as a schema alone.
fn load_fault_of(fault: SchemaFault) -> LoadFault
    ensures { result ≡ load_fault_of fault }
{
    match fault {
        SchemaFault::Bad { line, code } => LoadFault::Bad(Finding::Schema { line, code }),
        SchemaFault::Memory => LoadFault::Memory,
    }
}

// Does what is to be done with the input on the cube of a content, which an open store holds, under the policy of its schema.
fn do_store<S: Source, K: Sink, Q: Keeper>(
    alloc: Global,
    task: InputTask,
    schema: Schema,
    content: Stored,
    source: &mut S,
    out: &mut K,
    keeper: &mut Q,
) -> End
    requires { IsTrue (Q.tells keeper.old).is_open }
    ensures says { Holds (keeper_seen Q.tells keeper.old keeper.new) (λ kept. content ≡ kept) → HoldsSchema schema content → SaysOf (Some (command.Store (store_command.Input task))) (seen_of S.tells K.tells Q.tells source.old source.new out.old out.new keeper.old keeper.new) result }
    ensures stays_open { StaysOpen (Q.tells keeper.old) (Q.tells keeper.new) }
    ensures ended { EndsOnce (S.tells source.old).ends (S.tells source.new).ends }
{
    let policy = schema.policy();
    let loaded = Cube::from_stored(alloc, schema, &content, policy);
    drop(content);
    match loaded {
        Ok(cube) => do_cube(alloc, task, cube, source, out, keeper),
        Err(fault) => end_of_load(fault),
    }
}

// Does what is to be done with the input on a cube whose content an open store holds.
fn do_cube<S: Source, K: Sink, Q: Keeper>(
    alloc: Global,
    task: InputTask,
    cube: Cube<PolicyWord>,
    source: &mut S,
    out: &mut K,
    keeper: &mut Q,
) -> End
    requires { IsTrue (Q.tells keeper.old).is_open }
    ensures says { (content : Stored) → Holds (keeper_seen Q.tells keeper.old keeper.new) (λ kept. content ≡ kept) → IsCubeOf cube content → SaysOf (Some (command.Store (store_command.Input task))) (seen_of S.tells K.tells Q.tells source.old source.new out.old out.new keeper.old keeper.new) result }
    ensures stays_open { StaysOpen (Q.tells keeper.old) (Q.tells keeper.new) }
    ensures ended { EndsOnce (S.tells source.old).ends (S.tells source.new).ends }
{
    match task {
        InputTask::Run => run_over(alloc, cube, source, out, keeper),
        InputTask::Import => import_over(alloc, cube, source, out, keeper),
        InputTask::Lead => lead_over(alloc, cube, source, out, keeper),
    }
}

// Does the lines of a script as its input comes.
fn run_over<S: Source, K: Sink, Q: Keeper>(
    alloc: Global,
    cube: Cube<PolicyWord>,
    source: &mut S,
    out: &mut K,
    keeper: &mut Q,
) -> End
    requires { IsTrue (Q.tells keeper.old).is_open }
    ensures says { (content : Stored) → Holds (keeper_seen Q.tells keeper.old keeper.new) (λ kept. content ≡ kept) → IsCubeOf cube content → SaysOf (Some (command.Store (store_command.Input task.Run))) (seen_of S.tells K.tells Q.tells source.old source.new out.old out.new keeper.old keeper.new) result }
    ensures stays_open { StaysOpen (Q.tells keeper.old) (Q.tells keeper.new) }
    ensures ended { EndsOnce (S.tells source.old).ends (S.tells source.new).ends }
{
    let Ok(input) = LineInput::new(alloc) else {
        drop(cube);
        return End::Memory { done: 0 };
    };
    end_of_run(run_stream(alloc, cube, input, true, source, out, keeper))
}

// Takes the whole input, and puts the facts of it.
fn import_over<S: Source, K: Sink, Q: Keeper>(
    alloc: Global,
    cube: Cube<PolicyWord>,
    source: &mut S,
    out: &mut K,
    keeper: &mut Q,
) -> End
    requires { IsTrue (Q.tells keeper.old).is_open }
    ensures says { (content : Stored) → Holds (keeper_seen Q.tells keeper.old keeper.new) (λ kept. content ≡ kept) → IsCubeOf cube content → SaysOf (Some (command.Store (store_command.Input task.Import))) (seen_of S.tells K.tells Q.tells source.old source.new out.old out.new keeper.old keeper.new) result }
    ensures stays_open { StaysOpen (Q.tells keeper.old) (Q.tells keeper.new) }
    ensures ended { EndsOnce (S.tells source.old).ends (S.tells source.new).ends }
{
    match take_input(alloc, source, MAX_INPUT) {
        Ok(input) => import_file(alloc, cube, &input, out, keeper),
        Err(stop) => {
            drop(cube);
            end_of_stop(stop)
        }
    }
}
