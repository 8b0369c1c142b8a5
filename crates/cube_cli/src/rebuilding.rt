//! The command that puts the rows of a store right.
ghost use Rattle.std.specs.Prelude.{◌≡◌, ◌∷◌, [], IfOk, IsTrue, OnErr, OnOk, Some, codes};
ghost use Rattle.std.specs.Fmt.{decimal};
ghost use Rattle.text_lines.specs.Text.{line_text};
ghost use Rattle.fact_keeper.specs.Keeper.{CountsKeepFault, StaysOpen};
ghost use Rattle.fact_keeper.specs.declared.content.Stored.{Stored};
ghost use Rattle.schema_text.specs.Schema.{SchemaValue};
ghost use Rattle.script_run.specs.Kept.{Commits};
ghost use Rattle.script_run.specs.Seen.{SourceSeen, keeper_seen, sink_seen, told_of};
ghost use Rattle.store_audit.specs.Mending.{changed_by};
ghost use Rattle.cube_cli.specs.declared.command.Command.TheVariants as command;
ghost use Rattle.cube_cli.specs.declared.command.StoreCommand.TheVariants as store_command;
ghost use Rattle.cube_cli.specs.End.{SaysOf};
ghost use Rattle.cube_cli.specs.Loaded.{LoadedOnce};
ghost use Rattle.cube_cli.specs.Seen.{Holds, WasNotRead};
ghost use Rattle.cube_cli.specs.Steps.{HoldsSchema, IsMendingOf, WritesText};

use crate::End;
use crate::run_end::{end_of_keep, end_of_load, end_of_open, end_of_write};
use crate::saying::write_text;
use crate::store::open_store;
use cube_base::{Bytes, Memory, Sink, SinkError};
use cube_core::{Cube, Mending};
use fact_keeper::{Batch, KeepError, Keeper, Stored};
use schema_text::Schema;
use script_text::append_number;
use std::alloc::Global;

/// Puts the rows of the store of a name right, where its schema and its facts are sound, and reports it. No input is
/// taken. One batch is committed, and none where the rows are right.
pub fn rebuild<K: Sink, Q: Keeper>(alloc: Global, name: &str, out: &mut K, keeper: &mut Q) -> End
    ensures says { (source : SourceSeen) → WasNotRead source →
        SaysOf (Some (command.Store store_command.Rebuild)) (record { source = source; sink = sink_seen K.tells out.old out.new; keeper = keeper_seen Q.tells keeper.old keeper.new }) result }
    ensures loaded { (source : SourceSeen) → WasNotRead source →
        LoadedOnce name.now (Q.tells keeper.old) (Q.tells keeper.new) (record { source = source; sink = sink_seen K.tells out.old out.new; keeper = keeper_seen Q.tells keeper.old keeper.new }) result }
{
    match open_store(alloc, name, keeper) {
        Ok((schema, content)) => rebuild_store(alloc, schema, content, out, keeper),
        Err(stop) => end_of_open(stop),
    }
}

// Puts the rows of a content right, which an open store holds, under the policy of its schema.
fn rebuild_store<K: Sink, Q: Keeper>(
    alloc: Global,
    schema: Schema,
    content: Stored,
    out: &mut K,
    keeper: &mut Q,
) -> End
    requires { IsTrue (Q.tells keeper.old).is_open }
    ensures says { (source : SourceSeen) → WasNotRead source → Holds (keeper_seen Q.tells keeper.old keeper.new) (λ kept. content ≡ kept) → HoldsSchema schema content →
        SaysOf (Some (command.Store store_command.Rebuild)) (record { source = source; sink = sink_seen K.tells out.old out.new; keeper = keeper_seen Q.tells keeper.old keeper.new }) result }
    ensures stays_open { StaysOpen (Q.tells keeper.old) (Q.tells keeper.new) }
{
    let policy = schema.policy();
    let mended = Cube::mend_rows(alloc, &schema, &content, policy);
    drop(content);
    drop(schema);
    match mended {
        Ok(mending) => keep_mending(alloc, mending, out, keeper),
        Err(fault) => end_of_load(fault),
    }
}

// Keeps what puts the rows of a content right, where anything changes, and reports it.
fn keep_mending<K: Sink, Q: Keeper>(
    alloc: Global,
    mending: Mending,
    out: &mut K,
    keeper: &mut Q,
) -> End
    requires { IsTrue (Q.tells keeper.old).is_open }
    ensures says { (source : SourceSeen) (schema : SchemaValue) (content : Stored) → WasNotRead source → Holds (keeper_seen Q.tells keeper.old keeper.new) (λ kept. content ≡ kept) → IsMendingOf mending schema content →
        SaysOf (Some (command.Store store_command.Rebuild)) (record { source = source; sink = sink_seen K.tells out.old out.new; keeper = keeper_seen Q.tells keeper.old keeper.new }) result }
    ensures stays_open { StaysOpen (Q.tells keeper.old) (Q.tells keeper.new) }
{
    let changed = changed_by(&mending);
    if changed == 0 {
        let told = tell_rebuilt(alloc, &mending, 0, out);
        drop(mending);
        return end_of_write(told, 0, 0);
    }
    match keep_one(&mending.batch, keeper) {
        Ok(()) => {
            let told = tell_rebuilt(alloc, &mending, changed, out);
            drop(mending);
            end_of_write(told, 0, 1)
        }
        Err(error) => {
            drop(mending);
            end_of_keep(error)
        }
    }
}

// Commits a batch to an open store.
fn keep_one<Q: Keeper>(batch: &Batch, keeper: &mut Q) -> Result<(), KeepError>
    requires { IsTrue (Q.tells keeper.old).is_open }
    ensures kept { OnOk result (Commits (batch.now ∷ []) (told_of Q.tells keeper.old) (told_of Q.tells keeper.new)) }
    ensures not_kept { OnErr result (told_of Q.tells keeper.new ≡ told_of Q.tells keeper.old) }
    ensures count { CountsKeepFault (Q.tells keeper.old).faults (Q.tells keeper.new).faults result }
    ensures stays_open { StaysOpen (Q.tells keeper.old) (Q.tells keeper.new) }
{
    keeper.commit(batch)
}

// Writes what is reported of rows that are right, of which so many entries were not.
fn tell_rebuilt<K: Sink>(
    alloc: Global,
    mending: &Mending,
    changed: u64,
    out: &mut K,
) -> Result<(), SinkError>
    ensures { WritesText (line_text (codes "rebuilt") (decimal mending.now.facts ∷ decimal mending.now.rows ∷ decimal changed ∷ [])) (sink_seen K.tells out.old out.new) result }
{
    write_text(
        out,
        rebuilt_line(alloc, mending.facts, mending.rows, changed),
    )
}

// How many entries of rows are dropped or put.
fn changed_by(mending: &Mending) -> u64
    ensures { result ≡ changed_by mending.now.batch }
{
    let gone = mending.batch.gone.as_slice().len() as u64;
    let put = mending.batch.rows.as_slice().len() as u64;
    gone + put
}

// The line that reports it.
fn rebuilt_line(alloc: Global, facts: u64, rows: u64, changed: u64) -> Result<Bytes, Memory>
    ensures { IfOk result (λ line. line ≡ line_text (codes "rebuilt") (decimal facts ∷ decimal rows ∷ decimal changed ∷ [])) }
{
    let mut text = Vec::new(alloc);
    text.extend_from_slice(b"rebuilt")?;
    append_number(&mut text, facts)?;
    append_number(&mut text, rows)?;
    append_number(&mut text, changed)?;
    text.push(b'\n')?;
    Ok(Bytes::from(text))
}
