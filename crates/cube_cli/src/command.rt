//! The commands, and the top call.
ghost use Rattle.std.specs.Prelude.{◌≡◌, drop, map, string_bytes, IfSome};
ghost use Rattle.text_lines.specs.Input.{EndsOnce};
ghost use Rattle.script_run.specs.Seen.{seen_of};
ghost use Rattle.cube_cli.specs.Command.{ask_named, asked_line, command_of, drill_named, store_command, store_named};
ghost use Rattle.cube_cli.specs.End.{IsComplete, Says, doing_by};
ghost use Rattle.cube_cli.specs.Expectations.{AddsUpAfterEachLine, AddsUpOverStore, ComponentsAfterEachLine, ComponentsOverStore, ExpectsAfterEachLine, ExpectsOverStore, HoldsAroundLine, RangesAfterEachLine, RangesOverStore, TablesAfterEachLine, TablesOverStore};
ghost use Rattle.cube_cli.specs.Loaded.{Loads, second_word};

use crate::End;
use crate::asking::ask;
use crate::drill::drill;
use crate::following::follow;
use crate::init::init;
use crate::rebuilding::rebuild;
use crate::store::{InputTask, do_input};
use crate::telling::{Telling, tell};
use crate::trying::try_input;
use cube_base::{Sink, Source};
use drill_run::MAX_DRILL;
use fact_keeper::Keeper;
use std::alloc::Global;
use text_lines::{is_text, number_in};

/// A command of the program.
#[derive(Clone, Copy, Debug, PartialEq, Eq)]
pub enum Command {
    /// A schema and a script, done on a cube without a store.
    Try,
    /// The drill of this number, from 1 to 100,000.
    Drill(u64),
    /// A command over the store that the second word names.
    Store(StoreCommand),
}

/// A command over a store.
#[derive(Clone, Copy, Debug, PartialEq, Eq)]
pub enum StoreCommand {
    /// A schema is kept in a new store.
    Init,
    /// Something is done with the input over the cube of the store.
    Input(InputTask),
    /// A feed is followed, from a store in which there is nothing or which is what the feed begins with.
    Follow,
    /// The line that the words after the name make is done over the cube of the store.
    Ask,
    /// The rows of the store are put right.
    Rebuild,
    /// Something is reported of the store.
    Tell(Telling),
}

/// Runs the program: the words of the command line without the program's name, the input, where replies go, and where cubes are
/// kept.
///
/// The word `try` takes an input of at most 2^30 bytes, which begins with a schema up to its line `end`. Each line
/// after it is done in order on a cube of that schema and its policy, and answered unless it is skipped. The input is
/// read in pieces of at most 65,536 bytes. The lines of a piece that have come whole are done, and their replies
/// written, before the next piece is read. Where a run stops, the sink has a part of the replies to the first `done`
/// lines, with all but the last of them whole. Where a read failed or the input is too long, the sink has all of them,
/// and these are the lines that had come whole.
///
/// The words `drill` and a number from 1 to 100,000, which has one spelling, do the drill of the number, and write its line. No input
/// is taken. Neither of these calls the keeper.
///
/// The words `init`, `run`, `check`, `import`, `export`, `schema`, `rows`, `rebuild`, `lead` and `follow` each take the name of a store, which is not empty, and load it first. `init` takes a schema
/// alone, keeps its one canonical text as the batch of a store in which there was nothing, and answers `ok` and 0. `run` does the lines of the
/// input on the cube of the store, as they come. Each edit and each growth that is accepted commits one batch before it is answered, and all
/// replies before it are written by then: the store holds at each stop what the first `done` lines made of it. `check` takes no input and
/// answers `sound` with the numbers of the facts and of their rows. A store with nothing in it has no cube, and one that is not sound is left
/// as it is.
///
/// The word `ask`, the name of a store and one word or more do one line over the cube of the store as `run` does. The
/// line is the words after the name, with a TAB between two of them. No input is taken, and nothing in a word ends the
/// line. `done` is 1 once the line is done.
///
/// `import` takes a CSV file of facts over the schema of the store, of which the first record is the header. It puts
/// all of them as one batch or none. Where a record is refused, the first one's index, from 0 for the header, and its
/// code are reported. The reply is `imported` with the number of facts in the file and that of the facts that are new
/// or whose allocation changed. `export` takes no input and writes such a file of all facts, in order of their ids.
/// `schema` takes no input and writes the canonical text of the schema, whatever text is kept. `rows` takes no input
/// and writes a CSV file of the rows of all facts, in order of ids and cells, part by part. None of these commits
/// anything.
///
/// `rebuild` takes no input. Where the schema and the facts of the store are sound, whatever rows are kept, it commits one batch that puts the rows right,
/// or none where they are, and answers `rebuilt` with the numbers of the facts, of their rows, and of the entries of rows that were put or dropped.
///
/// `lead` does the lines of the input as `run` does, and writes a feed of the store in place of the replies: its base, which is the schema and
/// the facts as they stand at the start, before anything is read, and then a batch for each edit and each growth that is accepted, once it is
/// committed. `done` is the number of the lines as it is for `run`, and 0 within the base.
///
/// `follow` takes a feed. What the store holds, if anything, must be sound and what the feed begins with. The base is
/// kept as one batch in a store in which there is nothing. `follow` takes the edit or the growth of each batch of the
/// feed into a cube of its own. It compares the lines after that with those that this cube gives, commits the batch
/// once it is whole, and writes `applied` and its number. `done` is the number of the batches that are applied. It ends
/// at the first line that breaks the form, comes out of turn or differs: what stands before that is kept.
///
/// What is answered over the facts and the dimensions as they stand after each number of lines is the exact expectation over all possible
/// worlds of the facts, in each of which every fact stands in one cell of its allocation; and where a node of a region has children, the
/// answers at the regions with each child in its place merge to that at the region. In each region each column has a least and a greatest
/// sum over these worlds, which are reached, and the sum of every world lies between them. The labels of the facts tell their components.
/// The terms of a table's regions, at any depths, merge to the answer at the region that it is asked for.
pub fn cube<S: Source, K: Sink, Q: Keeper>(
    alloc: Global,
    words: &[String],
    source: &mut S,
    out: &mut K,
    keeper: &mut Q,
) -> End
    ensures says { Says (map string_bytes words.now) (seen_of S.tells K.tells Q.tells source.old source.new out.old out.new keeper.old keeper.new) result }
    ensures complete { IsComplete (map string_bytes words.now) (seen_of S.tells K.tells Q.tells source.old source.new out.old out.new keeper.old keeper.new) result }
    ensures loaded { Loads (doing_by (map string_bytes words.now)).stores (second_word (map string_bytes words.now)) (Q.tells keeper.old) (Q.tells keeper.new) (seen_of S.tells K.tells Q.tells source.old source.new out.old out.new keeper.old keeper.new) result }
    ensures ended { EndsOnce (S.tells source.old).ends (S.tells source.new).ends }
    ensures expectations { IfSome (S.tells source.old).left ExpectsAfterEachLine }
    ensures children { IfSome (S.tells source.old).left AddsUpAfterEachLine }
    ensures ranges { IfSome (S.tells source.old).left RangesAfterEachLine }
    ensures components { IfSome (S.tells source.old).left ComponentsAfterEachLine }
    ensures tables { IfSome (S.tells source.old).left TablesAfterEachLine }
    ensures expectations_over_store { IfSome (Q.tells keeper.old).content (λ content. IfSome (S.tells source.old).left (ExpectsOverStore content)) }
    ensures children_over_store { IfSome (Q.tells keeper.old).content (λ content. IfSome (S.tells source.old).left (AddsUpOverStore content)) }
    ensures ranges_over_store { IfSome (Q.tells keeper.old).content (λ content. IfSome (S.tells source.old).left (RangesOverStore content)) }
    ensures components_over_store { IfSome (Q.tells keeper.old).content (λ content. IfSome (S.tells source.old).left (ComponentsOverStore content)) }
    ensures tables_over_store { IfSome (Q.tells keeper.old).content (λ content. IfSome (S.tells source.old).left (TablesOverStore content)) }
    ensures around_asked { IfSome (Q.tells keeper.old).content (HoldsAroundLine (asked_line (map string_bytes words.now))) }
{
    run_command(alloc, words, source, out, keeper)
}

// Does what the words say.
fn run_command<S: Source, K: Sink, Q: Keeper>(
    alloc: Global,
    words: &[String],
    source: &mut S,
    out: &mut K,
    keeper: &mut Q,
) -> End
    ensures says { Says (map string_bytes words.now) (seen_of S.tells K.tells Q.tells source.old source.new out.old out.new keeper.old keeper.new) result }
    ensures loaded { Loads (doing_by (map string_bytes words.now)).stores (second_word (map string_bytes words.now)) (Q.tells keeper.old) (Q.tells keeper.new) (seen_of S.tells K.tells Q.tells source.old source.new out.old out.new keeper.old keeper.new) result }
    ensures ended { EndsOnce (S.tells source.old).ends (S.tells source.new).ends }
{
    match command_of(words) {
        None => End::Usage,
        Some(Command::Try) => try_input(alloc, source, out),
        Some(Command::Drill(n)) => drill(alloc, n, out),
        Some(Command::Store(StoreCommand::Init)) => {
            init(alloc, second_of(words), source, out, keeper)
        }
        Some(Command::Store(StoreCommand::Input(task))) => {
            do_input(alloc, second_of(words), task, source, out, keeper)
        }
        Some(Command::Store(StoreCommand::Follow)) => {
            follow(alloc, second_of(words), source, out, keeper)
        }
        Some(Command::Store(StoreCommand::Ask)) => {
            ask(alloc, second_of(words), asked_of(words), out, keeper)
        }
        Some(Command::Store(StoreCommand::Rebuild)) => {
            rebuild(alloc, second_of(words), out, keeper)
        }
        Some(Command::Store(StoreCommand::Tell(telling))) => {
            tell(alloc, second_of(words), telling, out, keeper)
        }
    }
}

// The command that the words name, if they are those of one.
fn command_of(words: &[String]) -> Option<Command>
    ensures { result ≡ command_of (map string_bytes words.now) }
{
    match words {
        [word] if word.as_str() == "try" => Some(Command::Try),
        [word, number] if word.as_str() == "drill" => drill_named(number.as_bytes()),
        [word, name] => store_named(word.as_bytes(), name.as_bytes()),
        [word, name, _, ..] => ask_named(word.as_bytes(), name.as_bytes()),
        _ => None,
    }
}

// The drill of the number that bytes spell.
fn drill_named(number: &[u8]) -> Option<Command>
    ensures { result ≡ drill_named number.now }
{
    let n = number_in(number, 1, MAX_DRILL)?;
    Some(Command::Drill(n))
}

// The command over a store that a word names, where the name of the store is not empty.
fn store_named(word: &[u8], name: &[u8]) -> Option<Command>
    ensures { result ≡ store_named word.now name.now }
{
    if name.is_empty() {
        return None;
    }
    let command = store_command(word)?;
    Some(Command::Store(command))
}

// The command over a store that a word names.
fn store_command(word: &[u8]) -> Option<StoreCommand>
    ensures { result ≡ store_command word.now }
{
    if is_text(word, "init") {
        Some(StoreCommand::Init)
    } else if is_text(word, "run") {
        Some(StoreCommand::Input(InputTask::Run))
    } else if is_text(word, "check") {
        Some(StoreCommand::Tell(Telling::Check))
    } else if is_text(word, "import") {
        Some(StoreCommand::Input(InputTask::Import))
    } else if is_text(word, "export") {
        Some(StoreCommand::Tell(Telling::Export))
    } else if is_text(word, "schema") {
        Some(StoreCommand::Tell(Telling::Schema))
    } else if is_text(word, "rows") {
        Some(StoreCommand::Tell(Telling::Rows))
    } else if is_text(word, "rebuild") {
        Some(StoreCommand::Rebuild)
    } else if is_text(word, "lead") {
        Some(StoreCommand::Input(InputTask::Lead))
    } else if is_text(word, "follow") {
        Some(StoreCommand::Follow)
    } else {
        None
    }
}

// The command that asks a line of a store, where the name of the store is not empty.
fn ask_named(word: &[u8], name: &[u8]) -> Option<Command>
    ensures { result ≡ ask_named word.now name.now }
{
    if name.is_empty() || !is_text(word, "ask") {
        return None;
    }
    let command = StoreCommand::Ask;
    Some(Command::Store(command))
}

// The words after the first two, which are asked.
fn asked_of(words: &[String]) -> &[String]
    ensures { map string_bytes result.now ≡ drop 2 (map string_bytes words.now) }
{
    match words {
        [_, _, asked @ ..] => asked,
        _ => &[],
    }
}

// The second of the words, if there is one: the name of a store.
fn second_of(words: &[String]) -> &str
    ensures { result.now ≡ second_word (map string_bytes words.now) }
{
    match words {
        [_, name, ..] => name.as_str(),
        _ => "",
    }
}
