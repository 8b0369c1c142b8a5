//! The command that follows a feed.
ghost use Rattle.std.specs.Prelude.{◌≡◌, IfOk, IsTrue, Some};
ghost use Rattle.fact_keeper.specs.Keeper.{StaysOpen};
ghost use Rattle.fact_keeper.specs.declared.content.Stored.{Stored};
ghost use Rattle.text_lines.specs.Input.{EndsOnce};
ghost use Rattle.schema_text.specs.SchemaText.{schema_text};
ghost use Rattle.script_run.specs.Seen.{keeper_seen, seen_of};
ghost use Rattle.store_audit.specs.Sound.{facts_told};
ghost use Rattle.cube_cli.specs.declared.command.Command.TheVariants as command;
ghost use Rattle.cube_cli.specs.declared.command.StoreCommand.TheVariants as store_command;
ghost use Rattle.cube_cli.specs.Doing.{base_in};
ghost use Rattle.cube_cli.specs.End.{SaysOf};
ghost use Rattle.cube_cli.specs.Loaded.{LoadedOnce};
ghost use Rattle.cube_cli.specs.Seen.{Holds};
ghost use Rattle.cube_cli.specs.Steps.{HoldsSchema};
ghost use Rattle.cube_cli.specs.Store.{IsEmptyOrSound};

use crate::End;
use crate::run_end::{end_of_follow, end_of_load};
use crate::store::{OpenStop, open_store};
use cube_base::{Memory, Sink, Source};
use cube_core::Cube;
use fact_keeper::{Keeper, Stored};
use feed_run::{Base, follow_stream};
use schema_text::{PolicyWord, Schema, write_schema};
use std::alloc::Global;
use text_lines::LineInput;

/// Follows the feed that the input is, over the store of a name.
pub fn follow<S: Source, K: Sink, Q: Keeper>(
    alloc: Global,
    name: &str,
    source: &mut S,
    out: &mut K,
    keeper: &mut Q,
) -> End
    ensures says { SaysOf (Some (command.Store store_command.Follow)) (seen_of S.tells K.tells Q.tells source.old source.new out.old out.new keeper.old keeper.new) result }
    ensures loaded { LoadedOnce name.now (Q.tells keeper.old) (Q.tells keeper.new) (seen_of S.tells K.tells Q.tells source.old source.new out.old out.new keeper.old keeper.new) result }
    ensures ended { EndsOnce (S.tells source.old).ends (S.tells source.new).ends }
{
    match open_store(alloc, name, keeper) {
        Ok((schema, content)) => follow_store(alloc, schema, content, source, out, keeper),
        Err(OpenStop::NoCube) => follow_over(alloc, None, source, out, keeper),
        Err(OpenStop::Fault) => End::KeepFault { done: 0 },
        Err(OpenStop::Load(fault)) => end_of_load(fault),
    }
}

// Follows it over a content, which an open store holds, under the policy of its schema.
fn follow_store<S: Source, K: Sink, Q: Keeper>(
    alloc: Global,
    schema: Schema,
    content: Stored,
    source: &mut S,
    out: &mut K,
    keeper: &mut Q,
) -> End
    requires { IsTrue (Q.tells keeper.old).is_open }
    ensures says { Holds (keeper_seen Q.tells keeper.old keeper.new) (λ kept. content ≡ kept) → HoldsSchema schema content → SaysOf (Some (command.Store store_command.Follow)) (seen_of S.tells K.tells Q.tells source.old source.new out.old out.new keeper.old keeper.new) result }
    ensures stays_open { StaysOpen (Q.tells keeper.old) (Q.tells keeper.new) }
    ensures ended { EndsOnce (S.tells source.old).ends (S.tells source.new).ends }
{
    let policy = schema.policy();
    match Cube::from_stored(alloc, schema, &content, policy) {
        Ok(cube) => match base_of(alloc, cube, content) {
            Ok(base) => follow_over(alloc, Some(base), source, out, keeper),
            Err(Memory) => End::Memory { done: 0 },
        },
        Err(fault) => {
            drop(content);
            end_of_load(fault)
        }
    }
}

// What is kept of a content while its feed is followed: the one text of its schema, and its facts. The cube is not.
fn base_of(alloc: Global, cube: Cube<PolicyWord>, content: Stored) -> Result<Base, Memory>
    ensures { IfOk result (λ base. base ≡ record { text = schema_text cube.schema; facts = facts_told content }) }
{
    let text = write_schema(alloc, cube.schema());
    drop(cube);
    let Stored {
        schema: _,
        facts,
        rows: _,
    } = content;
    Ok(Base::new(text?, facts))
}

// Follows it over what an open store holds, if it holds anything.
fn follow_over<S: Source, K: Sink, Q: Keeper>(
    alloc: Global,
    base: Option<Base>,
    source: &mut S,
    out: &mut K,
    keeper: &mut Q,
) -> End
    requires { IsTrue (Q.tells keeper.old).is_open }
    ensures says { (content : Stored) → Holds (keeper_seen Q.tells keeper.old keeper.new) (λ kept. content ≡ kept) → base_in content ≡ base → IsEmptyOrSound content →
        SaysOf (Some (command.Store store_command.Follow)) (seen_of S.tells K.tells Q.tells source.old source.new out.old out.new keeper.old keeper.new) result }
    ensures stays_open { StaysOpen (Q.tells keeper.old) (Q.tells keeper.new) }
    ensures ended { EndsOnce (S.tells source.old).ends (S.tells source.new).ends }
{
    let Ok(input) = LineInput::new(alloc) else {
        drop(base);
        return End::Memory { done: 0 };
    };
    end_of_follow(follow_stream(alloc, base, input, source, out, keeper))
}
