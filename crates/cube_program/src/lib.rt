//! The program over words and streams: stores in files, and what is told of how it ends.
#![tactic(auto)]

mod counted;
mod last_look;

ghost use Rattle.std.specs.Prelude.{◌≡◌, map, string_bytes, IfSome};
ghost use Rattle.text_lines.specs.Input.{EndsOnce};
ghost use Rattle.script_run.specs.Seen.{seen_of};
ghost use Rattle.cube_cli.specs.Expectations.{AddsUpAfterEachLine, ComponentsAfterEachLine, ExpectsAfterEachLine, RangesAfterEachLine, TablesAfterEachLine};
ghost use Rattle.cube_cli.specs.Status.{status_of};
ghost use Rattle.cube_program.specs.Ran.{NEW, Ran, told_by};

use crate::last_look::{done_of, look_last};
pub use counted::Counted;
use cube_base::{Sink, Source};
use cube_cli::{End, cube};
use sqlite_file::Reason;
use sqlite_keeper::SqlKeeper;
use std::io::Write;

/// Runs the program as `cube` does, over stores in files, tells of its end on `errors`, and answers the exit status. A keeper over files
/// is made and dropped; it tells which file it opened, and not what that holds. Where the store failed, a line before that of the end
/// says why.
///
/// After the input of `run`, `lead` and `follow` the store is looked for once more, where a batch was written: it must be there as it was left.
pub fn run_program<S: Source, K: Sink, W: Write>(
    rt: &HostRuntime,
    words: &[String],
    source: &mut Counted<S>,
    out: &mut K,
    errors: &mut W,
) -> u8
    ensures ran { Ran (map string_bytes words.now) (λ keeper. seen_of S.tells K.tells told_by source.old.inner source.new.inner out.old out.new NEW keeper) result }
    ensures ended { EndsOnce (S.tells source.old.inner).ends (S.tells source.new.inner).ends }
    ensures expectations { IfSome (S.tells source.old.inner).left ExpectsAfterEachLine }
    ensures children { IfSome (S.tells source.old.inner).left AddsUpAfterEachLine }
    ensures ranges { IfSome (S.tells source.old.inner).left RangesAfterEachLine }
    ensures components { IfSome (S.tells source.old.inner).left ComponentsAfterEachLine }
    ensures tables { IfSome (S.tells source.old.inner).left TablesAfterEachLine }
{
    let mut keeper = SqlKeeper::new(rt);
    let end = cube(rt.alloc(), words, source, out, &mut keeper);
    let done = done_of(words, source.lines(), keeper.written_over());
    let end = look_last(&mut keeper, done, end);
    if let (End::KeepFault { done: _ }, Some(reason)) = (&end, keeper.reason()) {
        tell_reason(words, reason, errors);
    }
    drop(keeper);
    tell(end, errors)
}

/// Writes a line on `errors` that says why the store was not to be had, read or written.
fn tell_reason<W: Write>(words: &[String], reason: Reason, errors: &mut W) {
    if let [_, name, ..] = words {
        let _ = writeln!(errors, "cube: {name}: {reason}");
    }
}

/// Tells of an end: writes its line to `errors`, with an LF, where the status is 2 or more, and answers the exit status. Where
/// `errors` takes nothing, the status still tells.
pub fn tell<W: Write>(end: End, errors: &mut W) -> u8
    ensures { result ≡ status_of end }
{
    let (status, line) = end.report();
    if let Some(line) = line {
        let _ = writeln!(errors, "{line}");
    }
    status
}
