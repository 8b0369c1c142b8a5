//! The commands that report what a store holds.
ghost use Rattle.std.specs.Prelude.{◌≡◌, Some};
ghost use Rattle.schema_text.specs.Schema.{schema_policy, weigh_of};
ghost use Rattle.script_run.specs.Seen.{KeeperSeen, SourceSeen, keeper_seen, sink_seen};
ghost use Rattle.cube_cli.specs.declared.command.Command.TheVariants as command;
ghost use Rattle.cube_cli.specs.declared.command.StoreCommand.TheVariants as store_command;
ghost use Rattle.cube_cli.specs.End.{SaysOf};
ghost use Rattle.cube_cli.specs.Files.{text_told};
ghost use Rattle.cube_cli.specs.Loaded.{LoadedOnce};
ghost use Rattle.cube_cli.specs.Seen.{Holds, WasNotCalled, WasNotRead};
ghost use Rattle.cube_cli.specs.Steps.{HoldsSchema, WritesText};

use crate::End;
use crate::row_file::write_all_rows;
use crate::run_end::{end_of_load, end_of_open, end_of_write};
use crate::saying::{count_line, write_text};
use crate::store::open_store;
use csv_facts::write_facts;
use cube_base::{Sink, SinkError};
use cube_core::Cube;
use fact_keeper::{Keeper, Stored};
use schema_text::{PolicyWord, Schema, write_schema};
use std::alloc::Global;

/// What is reported of a store that is sound.
#[derive(Clone, Copy, Debug, PartialEq, Eq)]
pub enum Telling {
    /// The line `sound` with the numbers of its facts and rows.
    Check,
    /// The file of its facts.
    Export,
    /// The one text of its schema.
    Schema,
    /// The rows of its facts, as a file.
    Rows,
}

/// Audits the store of a name, and reports it. No input is taken, and nothing is committed.
pub fn tell<K: Sink, Q: Keeper>(
    alloc: Global,
    name: &str,
    telling: Telling,
    out: &mut K,
    keeper: &mut Q,
) -> End
    ensures says { (source : SourceSeen) → WasNotRead source →
        SaysOf (Some (command.Store (store_command.Tell telling))) (record { source = source; sink = sink_seen K.tells out.old out.new; keeper = keeper_seen Q.tells keeper.old keeper.new }) result }
    ensures loaded { (source : SourceSeen) → WasNotRead source →
        LoadedOnce name.now (Q.tells keeper.old) (Q.tells keeper.new) (record { source = source; sink = sink_seen K.tells out.old out.new; keeper = keeper_seen Q.tells keeper.old keeper.new }) result }
{
    match open_store(alloc, name, keeper) {
        Ok((schema, content)) => tell_store(alloc, telling, schema, &content, out),
        Err(stop) => end_of_open(stop),
    }
}

// Audits a content under the policy of its schema, and reports it.
fn tell_store<K: Sink>(
    alloc: Global,
    telling: Telling,
    schema: Schema,
    content: &Stored,
    out: &mut K,
) -> End
    ensures { (source : SourceSeen) (keeper : KeeperSeen) → WasNotRead source → WasNotCalled keeper → Holds keeper (λ kept. content.now ≡ kept) → HoldsSchema schema content.now →
        SaysOf (Some (command.Store (store_command.Tell telling))) (record { source = source; sink = sink_seen K.tells out.old out.new; keeper = keeper }) result }
{
    let policy = schema.policy();
    match Cube::from_stored(alloc, schema, content, policy) {
        Ok(cube) => {
            let told = write_told(alloc, telling, &cube, out);
            drop(cube);
            end_of_write(told, 0, 0)
        }
        Err(fault) => end_of_load(fault),
    }
}

// Writes what is reported of a cube.
fn write_told<K: Sink>(
    alloc: Global,
    telling: Telling,
    cube: &Cube<PolicyWord>,
    out: &mut K,
) -> Result<(), SinkError>
    ensures { WritesText (text_told telling (schema_policy (weigh_of cube.now.policy) cube.now.schema) cube.now.schema cube.now.facts) (sink_seen K.tells out.old out.new) result }
{
    match telling {
        Telling::Check => {
            let counts = count_line(alloc, b"sound", cube.facts().len(), cube.row_count());
            write_text(out, counts)
        }
        Telling::Export => write_text(out, write_facts(alloc, cube.schema(), cube.facts())),
        Telling::Schema => write_text(out, write_schema(alloc, cube.schema())),
        Telling::Rows => write_all_rows(alloc, cube, out),
    }
}
