//! The last look at the store of a run, after its input.
ghost use Rattle.std.specs.Prelude.{◌≡◌, map, string_bytes};
ghost use Rattle.cube_program.specs.LastLook.{LooksLast, done_at_end, done_by, done_of, end_of_look};

use cube_cli::End;
use fact_keeper::KeepError;
use sqlite_keeper::SqlKeeper;

/// Looks once more for the store of a run that was done to its end, where it tells a number of lines or batches and a batch was written. Where
/// the store is not there as it was left, the end is that of an edit after them.
pub(crate) fn look_last(keeper: &mut SqlKeeper, done: Option<u64>, end: End) -> End
    ensures { LooksLast (done_at_end done end) keeper.old keeper.new end result }
{
    let Some(done) = done_at_end(done, &end) else {
        return end;
    };
    let answer = keeper.look_again();
    end_of_look(answer, done, end)
}

/// The number that the end of a run would tell, of a command that does an input line by line over a store: of the lines of a script, or of the
/// batches of a feed.
pub(crate) fn done_of(words: &[String], lines: u64, batches: u64) -> Option<u64>
    ensures { result ≡ done_of (map string_bytes words.now) lines batches }
{
    match words {
        [word, _] => done_by(word.as_str(), lines, batches),
        _ => None,
    }
}

/// The same by the word of the command.
fn done_by(word: &str, lines: u64, batches: u64) -> Option<u64>
    ensures { result ≡ done_by word.now lines batches }
{
    if word == "run" || word == "lead" {
        Some(lines)
    } else if word == "follow" {
        Some(batches)
    } else {
        None
    }
}

/// The same where the run was done to its end, and none where it was not.
fn done_at_end(done: Option<u64>, end: &End) -> Option<u64>
    ensures { result ≡ done_at_end done end.now }
{
    match end {
        End::Finished { refused: _ } => done,
        _ => None,
    }
}

/// The end of a run by what a last look answers.
fn end_of_look(answer: Result<(), KeepError>, done: u64, end: End) -> End
    ensures { result ≡ end_of_look answer done end }
{
    match answer {
        Ok(()) => end,
        Err(KeepError::Failed) => End::KeepFault { done },
        Err(KeepError::Memory) => End::Memory { done },
    }
}
