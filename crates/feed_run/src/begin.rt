//! The beginning of a follower: the cube of a base, over what its store holds.
ghost use Rattle.std.specs.Prelude.{◌≡◌, None, Some, IfOk, IsTrue, Option};
ghost use Rattle.cube_core.specs.Cube.{AreFactsOf};
ghost use Rattle.fact_keeper.specs.Keeper.{StaysOpen};
ghost use Rattle.fact_keeper.specs.declared.content.Batch.{Batch};
ghost use Rattle.schema_text.specs.SchemaText.{schema_text};
ghost use Rattle.script_run.specs.Seen.{keeper_seen};
ghost use Rattle.feed_run.specs.BeginTurn.{Begins, BeginsOver, IsRefusal, MakesBase, MakesCube, import_stop};

use crate::catcher::BatchCatcher;
use crate::follow_base::refuse_line;
use crate::lead::keep;
use crate::part_stop::PartStop;
use crate::same_base::compare_base;
use crate::{Base, FollowStop};
use cube_base::{Code, Memory};
use cube_core::{Cube, ImportFault};
use fact_keeper::{Batch, Keeper, NoKeeper};
use fact_records::{FactRun, FactSeq};
use schema_text::{PolicyWord, Schema, write_schema};
use script_run::StreamStop;
use std::alloc::Global;
use text_lines::InputStop;

/// Begins with a base that has these facts and ends with the line of this number: makes its cube, and compares it with what the store holds, or
/// commits it to the keeper, which must be open, where the store holds nothing.
pub(crate) fn begin<Q: Keeper>(
    alloc: Global,
    base: Option<Base>,
    schema: Schema,
    facts: FactRun,
    number: u64,
    keeper: &mut Q,
) -> Result<Cube<PolicyWord>, FollowStop>
    requires facts { AreFactsOf schema facts }
    requires open { IsTrue (Q.tells keeper.old).is_open }
    ensures begins { Begins base number schema facts (keeper_seen Q.tells keeper.old keeper.new) result }
    ensures stays_open { StaysOpen (Q.tells keeper.old) (Q.tells keeper.new) }
{
    let seq = FactSeq { facts, bad: None };
    let begun = begin_with(alloc, &base, schema, &seq, number, keeper);
    drop(base);
    drop(seq);
    begun
}

/// Begins with facts in their order, over what a store holds, if it holds anything.
fn begin_with<Q: Keeper>(
    alloc: Global,
    base: &Option<Base>,
    schema: Schema,
    seq: &FactSeq,
    number: u64,
    keeper: &mut Q,
) -> Result<Cube<PolicyWord>, FollowStop>
    requires facts { AreFactsOf schema seq.now.facts }
    requires whole { seq.now.bad ≡ None }
    requires open { IsTrue (Q.tells keeper.old).is_open }
    ensures begins { Begins base.now number schema seq.now.facts (keeper_seen Q.tells keeper.old keeper.new) result }
    ensures stays_open { StaysOpen (Q.tells keeper.old) (Q.tells keeper.new) }
{
    let Some(base) = base else {
        return begin_new(alloc, schema, seq, number, keeper);
    };
    match begin_over(alloc, base, schema, seq, number) {
        Ok(cube) => Ok(cube),
        Err(stop) => Err(stop.at(0)),
    }
}

/// Begins over what a store holds.
fn begin_over(
    alloc: Global,
    base: &Base,
    schema: Schema,
    seq: &FactSeq,
    number: u64,
) -> Result<Cube<PolicyWord>, PartStop>
    requires facts { AreFactsOf schema seq.now.facts }
    requires whole { seq.now.bad ≡ None }
    ensures { BeginsOver base.now number schema seq.now.facts result }
{
    let cube = match make_cube(alloc, schema, seq, &mut NoKeeper::new()) {
        Ok(cube) => cube,
        Err(fault) => return Err(stop_of_import(fault, number)),
    };
    match compare_base(alloc, base, cube.schema(), seq.facts.as_slice()) {
        Ok(()) => Ok(cube),
        Err(stop) => {
            drop(cube);
            Err(stop)
        }
    }
}

/// Begins a store that holds nothing.
fn begin_new<Q: Keeper>(
    alloc: Global,
    schema: Schema,
    seq: &FactSeq,
    number: u64,
    keeper: &mut Q,
) -> Result<Cube<PolicyWord>, FollowStop>
    requires facts { AreFactsOf schema seq.now.facts }
    requires whole { seq.now.bad ≡ None }
    requires open { IsTrue (Q.tells keeper.old).is_open }
    ensures begins { Begins None number schema seq.now.facts (keeper_seen Q.tells keeper.old keeper.new) result }
    ensures stays_open { StaysOpen (Q.tells keeper.old) (Q.tells keeper.new) }
{
    let (cube, batch) = match make_base(alloc, schema, seq, number) {
        Ok(made) => made,
        Err(stop) => return Err(stop.at(0)),
    };
    let kept = keep(&batch, 0, keeper);
    drop(batch);
    match kept {
        Ok(()) => Ok(cube),
        Err(off) => {
            drop(cube);
            Err(FollowStop::Stream(StreamStop::Broke(off)))
        }
    }
}

/// The cube of a base, and the batch that begins a store with it.
fn make_base(
    alloc: Global,
    schema: Schema,
    seq: &FactSeq,
    number: u64,
) -> Result<(Cube<PolicyWord>, Batch), PartStop>
    requires facts { AreFactsOf schema seq.now.facts }
    requires whole { seq.now.bad ≡ None }
    ensures { MakesBase number schema seq.now.facts result }
{
    let mut catcher = BatchCatcher::new(alloc);
    let cube = match make_cube(alloc, schema, seq, &mut catcher) {
        Ok(cube) => cube,
        Err(fault) => return Err(stop_of_import(fault, number)),
    };
    match whole_batch(alloc, cube.schema(), catcher.take()) {
        Ok(batch) => Ok((cube, batch)),
        Err(memory) => {
            drop(cube);
            Err(PartStop::from(memory))
        }
    }
}

/// A batch that was caught, with the text of the schema.
fn whole_batch(alloc: Global, schema: &Schema, caught: Option<Batch>) -> Result<Batch, Memory>
    requires { (batch : Batch) × (caught ≡ Some batch) }
    ensures { (batch : Batch) → caught ≡ Some batch → IfOk result (λ whole. whole ≡ record batch { schema = Some (schema_text schema.now) }) }
{
    let Some(mut batch) = caught else {
        unreachable!()
    };
    match write_schema(alloc, schema) {
        Ok(text) => {
            batch.schema = Some(text);
            Ok(batch)
        }
        Err(memory) => {
            drop(batch);
            Err(memory)
        }
    }
}

/// The cube of a schema with the facts of a base, which are put all at once over a keeper that tells what they commit.
fn make_cube<Q: Keeper>(
    alloc: Global,
    schema: Schema,
    seq: &FactSeq,
    keeper: &mut Q,
) -> Result<Cube<PolicyWord>, ImportFault>
    requires facts { AreFactsOf schema seq.now.facts }
    requires whole { seq.now.bad ≡ None }
    requires open { IsTrue (Q.tells keeper.old).is_open }
    ensures { MakesCube schema seq.now.facts (Q.tells keeper.old) (Q.tells keeper.new) result }
{
    let policy = schema.policy();
    let mut cube = Cube::new(alloc, schema, policy)?;
    match cube.import(seq, keeper) {
        Ok(receipt) => {
            drop(receipt);
            Ok(cube)
        }
        Err(fault) => {
            drop(cube);
            Err(fault)
        }
    }
}

/// Why a base is not followed whose facts are not put: they have too many rows, or it ran out of memory.
fn stop_of_import(fault: ImportFault, number: u64) -> PartStop
    requires { IsRefusal fault }
    ensures { result ≡ import_stop number fault }
{
    match fault {
        ImportFault::Rows { .. } => refuse_line(number, Code::Rows),
        ImportFault::Memory => PartStop::Input(InputStop::Memory),
        ImportFault::BadRecord(_) | ImportFault::KeepFault => unreachable!(),
    }
}
