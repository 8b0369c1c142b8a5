//! The command that puts the facts of a file.
ghost use Rattle.std.specs.Prelude.{◌≡◌, IfOk, IsTrue, Some, length, codes};
ghost use Rattle.fact_keeper.specs.Keeper.{StaysOpen};
ghost use Rattle.fact_keeper.specs.declared.content.Stored.{Stored};
ghost use Rattle.text_lines.specs.Input.{INPUT_LIMIT, Taken};
ghost use Rattle.script_run.specs.Seen.{NoReadFault, SourceSeen, keeper_seen, sink_seen};
ghost use Rattle.cube_cli.specs.declared.command.Command.TheVariants as command;
ghost use Rattle.cube_cli.specs.declared.command.StoreCommand.TheVariants as store_command;
ghost use Rattle.cube_cli.specs.declared.store.InputTask.TheVariants as task;
ghost use Rattle.cube_cli.specs.End.{SaysOf};
ghost use Rattle.cube_cli.specs.Files.{count_line};
ghost use Rattle.cube_cli.specs.Seen.{Holds};
ghost use Rattle.cube_cli.specs.Steps.{IsCubeOf};

use crate::End;
use crate::run_end::{end_of_import, end_of_write};
use crate::saying::{count_line, write_text};
use csv_facts::read_facts;
use cube_base::{Bytes, Memory, Sink};
use cube_core::{Cube, Receipt};
use fact_keeper::Keeper;
use fact_records::FactSeq;
use schema_text::PolicyWord;
use std::alloc::Global;

/// Puts the facts of a file, which is a whole input, into a cube whose content an open store holds, all or none, and answers.
pub fn import_file<K: Sink, Q: Keeper>(
    alloc: Global,
    mut cube: Cube<PolicyWord>,
    file: &[u8],
    out: &mut K,
    keeper: &mut Q,
) -> End
    requires { IsTrue (Q.tells keeper.old).is_open }
    ensures says { (source : SourceSeen) (content : Stored) → Taken INPUT_LIMIT source.left source.left_after file.now → NoReadFault source → Holds (keeper_seen Q.tells keeper.old keeper.new) (λ kept. content ≡ kept) → IsCubeOf cube content →
        SaysOf (Some (command.Store (store_command.Input task.Import))) (record { source = source; sink = sink_seen K.tells out.old out.new; keeper = keeper_seen Q.tells keeper.old keeper.new }) result }
    ensures stays_open { StaysOpen (Q.tells keeper.old) (Q.tells keeper.new) }
{
    let Ok(seq) = read_facts(alloc, cube.schema(), file) else {
        drop(cube);
        return End::Memory { done: 0 };
    };
    match cube.import(&seq, keeper) {
        Ok(receipt) => {
            drop(cube);
            let text = imported_line(alloc, &seq, &receipt);
            drop(receipt);
            drop(seq);
            end_of_write(write_text(out, text), 0, 1)
        }
        Err(fault) => {
            drop(cube);
            drop(seq);
            end_of_import(fault)
        }
    }
}

// What is reported where the facts of a file are put, which refreshed so many facts.
fn imported_line(alloc: Global, seq: &FactSeq, receipt: &Receipt) -> Result<Bytes, Memory>
    ensures { IfOk result (λ line. line ≡ count_line (codes "imported") (length seq.now.facts) (length receipt.now.refreshed)) }
{
    let facts = seq.facts.as_slice().len() as u64;
    let refreshed = receipt.refreshed.as_slice().len() as u64;
    count_line(alloc, b"imported", facts, refreshed)
}
