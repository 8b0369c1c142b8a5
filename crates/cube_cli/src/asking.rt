//! The command that asks one line of a store.
ghost use Rattle.std.specs.Prelude.{◌≡◌, ◌∷◌, ◌++◌, map, string_bytes, IfOk, IsTrue, OnOk, Some};
ghost use Rattle.std.specs.List.{flat_map};
ghost use Rattle.fact_keeper.specs.Keeper.{StaysOpen};
ghost use Rattle.fact_keeper.specs.declared.content.Stored.{Stored};
ghost use Rattle.script_run.specs.Seen.{SourceSeen, keeper_seen, sink_seen};
ghost use Rattle.cube_cli.specs.declared.command.Command.TheVariants as command;
ghost use Rattle.cube_cli.specs.declared.command.StoreCommand.TheVariants as store_command;
ghost use Rattle.cube_cli.specs.Command.{joined};
ghost use Rattle.cube_cli.specs.End.{SaysAsked};
ghost use Rattle.cube_cli.specs.Loaded.{LoadedOnce};
ghost use Rattle.cube_cli.specs.RunEnd.{end_of_line};
ghost use Rattle.cube_cli.specs.Seen.{Holds, WasNotRead};
ghost use Rattle.cube_cli.specs.Steps.{HoldsSchema, IsCubeOf};

use crate::End;
use crate::run_end::{end_of_break_off, end_of_load, end_of_open};
use crate::store::open_store;
use cube_base::{Memory, Sink};
use cube_core::Cube;
use fact_keeper::{Keeper, Stored};
use schema_text::{PolicyWord, Schema};
use script_run::{BreakOff, run_line};
use std::alloc::Global;

/// Does the line that these words make over the cube of the store of a name, and answers it. The store is loaded before the line is made.
pub fn ask<K: Sink, Q: Keeper>(
    alloc: Global,
    name: &str,
    words: &[String],
    out: &mut K,
    keeper: &mut Q,
) -> End
    ensures says { (source : SourceSeen) → WasNotRead source →
        SaysAsked (joined (map string_bytes words.now)) (Some (command.Store store_command.Ask)) (record { source = source; sink = sink_seen K.tells out.old out.new; keeper = keeper_seen Q.tells keeper.old keeper.new }) result }
    ensures loaded { (source : SourceSeen) → WasNotRead source →
        LoadedOnce name.now (Q.tells keeper.old) (Q.tells keeper.new) (record { source = source; sink = sink_seen K.tells out.old out.new; keeper = keeper_seen Q.tells keeper.old keeper.new }) result }
{
    match open_store(alloc, name, keeper) {
        Ok((schema, content)) => ask_store(alloc, schema, content, words, out, keeper),
        Err(stop) => end_of_open(stop),
    }
}

// Does the line over the cube of a content, which an open store holds, under the policy of its schema.
fn ask_store<K: Sink, Q: Keeper>(
    alloc: Global,
    schema: Schema,
    content: Stored,
    words: &[String],
    out: &mut K,
    keeper: &mut Q,
) -> End
    requires { IsTrue (Q.tells keeper.old).is_open }
    ensures says { (source : SourceSeen) → WasNotRead source → Holds (keeper_seen Q.tells keeper.old keeper.new) (λ kept. content ≡ kept) → HoldsSchema schema content →
        SaysAsked (joined (map string_bytes words.now)) (Some (command.Store store_command.Ask)) (record { source = source; sink = sink_seen K.tells out.old out.new; keeper = keeper_seen Q.tells keeper.old keeper.new }) result }
    ensures stays_open { StaysOpen (Q.tells keeper.old) (Q.tells keeper.new) }
{
    let policy = schema.policy();
    let loaded = Cube::from_stored(alloc, schema, &content, policy);
    drop(content);
    match loaded {
        Ok(cube) => ask_cube(alloc, cube, words, out, keeper),
        Err(fault) => end_of_load(fault),
    }
}

// Does the line on a cube whose content an open store holds.
fn ask_cube<K: Sink, Q: Keeper>(
    alloc: Global,
    cube: Cube<PolicyWord>,
    words: &[String],
    out: &mut K,
    keeper: &mut Q,
) -> End
    requires { IsTrue (Q.tells keeper.old).is_open }
    ensures says { (source : SourceSeen) (content : Stored) → WasNotRead source → Holds (keeper_seen Q.tells keeper.old keeper.new) (λ kept. content ≡ kept) → IsCubeOf cube content →
        SaysAsked (joined (map string_bytes words.now)) (Some (command.Store store_command.Ask)) (record { source = source; sink = sink_seen K.tells out.old out.new; keeper = keeper_seen Q.tells keeper.old keeper.new }) result }
    ensures stays_open { StaysOpen (Q.tells keeper.old) (Q.tells keeper.new) }
{
    let Ok(line) = join(alloc, words) else {
        drop(cube);
        return End::Memory { done: 0 };
    };
    end_of_line(run_line(alloc, cube, &line, out, keeper))
}

// The end of the program whose line was refused or not, or broke off.
fn end_of_line(ended: Result<u64, BreakOff>) -> End
    ensures { result ≡ end_of_line ended }
{
    match ended {
        Ok(refused) => End::Finished { refused },
        Err(off) => end_of_break_off(off),
    }
}

// The words as the fields of one line.
fn join(alloc: Global, words: &[String]) -> Result<Vec<u8>, Memory>
    ensures { IfOk result (λ line. line.items ≡ joined (map string_bytes words.now)) }
{
    let mut line = Vec::new(alloc);
    if let [first, fields @ ..] = words {
        line.extend_from_slice(first.as_bytes())?;
        append_fields(&mut line, fields)?;
    }
    Ok(line)
}

// Appends TAB and a word, for each of these.
fn append_fields(line: &mut Vec<u8>, words: &[String]) -> Result<(), Memory>
    ensures { OnOk result (line.new.items ≡ line.old.items ++ flat_map (λ word. 9 ∷ word) (map string_bytes words.now)) }
{
    for word in words {
        append_field(line, word.as_bytes())?;
    }
    Ok(())
}

// Appends TAB and these bytes.
fn append_field(line: &mut Vec<u8>, field: &[u8]) -> Result<(), Memory>
    ensures { OnOk result (line.new.items ≡ line.old.items ++ 9 ∷ field.now) }
{
    line.push(b'\t')?;
    line.extend_from_slice(field)?;
    Ok(())
}
