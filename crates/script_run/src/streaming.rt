//! Doing a script that comes in pieces: the lines of each are done, and their replies written, before the next is read.
ghost use Rattle.std.specs.Prelude.{◌≡◌, ◌+◌, ◌<◌, ◌^◌, ◌++◌, ◌∷◌, [], List, ℕ, false, length, true, IfErr, IsTrue, OnErr, OnOk};
ghost use Rattle.std.specs.Io.KnownBytes.{IsAtEnd};
ghost use Rattle.text_lines.specs.Input.{EndsOnce, ends_if};
ghost use Rattle.text_lines.specs.Pieces.{last_line, pieces_of, rest_of, whole_lines};
ghost use Rattle.schema_text.specs.Schema.{weigh_of};
ghost use Rattle.fact_keeper.specs.Keeper.{StaysOpen};
ghost use Rattle.script_run.specs.Run.{state_of};
ghost use Rattle.script_run.specs.Seen.{KeepFailed, keeper_seen, sink_seen, source_seen, told_of};
ghost use Rattle.script_run.specs.Stream.{CountsStream, DoesLines, EndsFrom, EndsStream, Ground, is_keep_stop, stop_of};
ghost use Rattle.script_run.specs.StreamTurn.{DoesPiece, EndsLines, Outside, Streaming, outside_of, seen_from};

use crate::BreakOff;
use crate::script_run::ScriptRun;
use cube_base::{Sink, Source};
use cube_core::Cube;
use fact_keeper::Keeper;
use schema_text::PolicyWord;
use std::alloc::Global;
use text_lines::{InputStop, LineCutter, LineInput, PieceReader};

/// Why a script that comes in pieces was not done to its end.
#[derive(Clone, Copy, Debug, PartialEq, Eq)]
pub enum StreamStop {
    /// It broke off among the lines that came.
    Broke(BreakOff),
    /// A read failed when so many lines had come whole. They are done, and their replies are written.
    Read { done: u64 },
    /// The input is too long: so many lines had come whole before the byte that is one too many. They are done, and their replies
    /// are written.
    TooLong { done: u64 },
}

impl StreamStop {
    /// Why a run stops where nothing more of its input came, and so many lines are done.
    pub fn at(stop: InputStop, done: u64) -> Self
        ensures { result ≡ stop_of stop done }
    {
        match stop {
            InputStop::Fault => StreamStop::Read { done },
            InputStop::TooLong => StreamStop::TooLong { done },
            InputStop::Memory => StreamStop::Broke(BreakOff::Memory { done }),
        }
    }
}

impl From<BreakOff> for StreamStop {
    ghost use Rattle.script_run.specs.declared.streaming.StreamStop.TheVariants.{Broke};

    ghost from_gives = { λ off e. e ≡ Broke off };

    fn from(off: BreakOff) -> Self {
        StreamStop::Broke(off)
    }
}

/// Does the lines of a script as its input comes, those first that are held of it, commits each accepted edit and growth to the keeper,
/// which must be open, writes the replies, and says how many lines are refused. All replies to the lines of a piece are written before
/// the next piece is read, and none is read before. A line ends with its LF, or with the input.
///
/// Where `keeps` says so, the gathered replies are written before each edit and each growth too: then the keeper holds at every stop
/// what the lines made of it that are done by the stop's own count. Where it does not, the keeper is one that keeps nothing.
pub fn run_stream<S: Source, K: Sink, Q: Keeper>(
    alloc: Global,
    cube: Cube<PolicyWord>,
    input: LineInput,
    keeps: bool,
    source: &mut S,
    out: &mut K,
    keeper: &mut Q,
) -> Result<u64, StreamStop>
    requires short { length input.lines.lines + input.pieces.room < 2 ^ 61 }
    requires ended { input.pieces.is_ended ≡ true → IsAtEnd (S.tells source.old).left }
    requires open { IsTrue (Q.tells keeper.old).is_open }
    ensures ends { (text : List ℕ) → input.lines.lines ≡ pieces_of text →
        EndsStream (record { weigh = weigh_of cube.policy; schema = cube.schema; first = state_of cube; keeps = keeps }) text input.pieces.room
        (record { source = source_seen S.tells source.old source.new; sink = sink_seen K.tells out.old out.new; keeper = keeper_seen Q.tells keeper.old keeper.new }) result }
    ensures count { keeps ≡ true → CountsStream (keeper_seen Q.tells keeper.old keeper.new) result }
    ensures cause { IfErr result (λ stop. is_keep_stop stop ≡ true → KeepFailed (keeper_seen Q.tells keeper.old keeper.new)) }
    ensures stays_open { StaysOpen (Q.tells keeper.old) (Q.tells keeper.new) }
    ensures ended { EndsFrom input.pieces.is_ended (S.tells source.old).ends (S.tells source.new).ends }
{
    let LineInput {
        mut pieces,
        mut lines,
    } = input;
    let mut run = ScriptRun::new(alloc, cube, keeps);
    let ended = do_input(&mut run, &mut pieces, &mut lines, source, out, keeper);
    drop(run);
    ended
}

/// Does the lines piece by piece to the end of the input, and says how many are refused.
fn do_input<S: Source, K: Sink, Q: Keeper>(
    run: &mut ScriptRun,
    pieces: &mut PieceReader,
    lines: &mut LineCutter,
    source: &mut S,
    out: &mut K,
    keeper: &mut Q,
) -> Result<u64, StreamStop>
    requires few { run.old.done + length (whole_lines lines.old.lines) + pieces.old.room < 2 ^ 61 }
    requires open { IsTrue (Q.tells keeper.old).is_open }
    ensures ends { (given : Ground) (text : List ℕ) (room : ℕ) (start : Outside) → Streaming weigh_of given text room start
        (outside_of S.tells K.tells Q.tells source.old out.old keeper.old) pieces.old lines.old.lines run.old →
        EndsStream given text room (seen_from start (outside_of S.tells K.tells Q.tells source.new out.new keeper.new)) result }
    ensures count { run.old.keeps ≡ true → CountsStream (keeper_seen Q.tells keeper.old keeper.new) result }
    ensures cause { IfErr result (λ stop. is_keep_stop stop ≡ true → KeepFailed (keeper_seen Q.tells keeper.old keeper.new)) }
    ensures stays_open { StaysOpen (Q.tells keeper.old) (Q.tells keeper.new) }
    ensures ended { EndsFrom pieces.old.is_ended (S.tells source.old).ends (S.tells source.new).ends }
{
    'turns: while !pieces.is_ended() {
        do_piece(run, pieces, lines, source, out, keeper)?;
    }
    Ok(do_end(run, lines, out, keeper)?)
}

/// Does each line that is held whole, writes the replies, and takes the next piece.
fn do_piece<S: Source, K: Sink, Q: Keeper>(
    run: &mut ScriptRun,
    pieces: &mut PieceReader,
    lines: &mut LineCutter,
    source: &mut S,
    out: &mut K,
    keeper: &mut Q,
) -> Result<(), StreamStop>
    requires more { pieces.old.is_ended ≡ false }
    requires few { run.old.done + length lines.old.lines < 2 ^ 62 }
    requires open { IsTrue (Q.tells keeper.old).is_open }
    ensures does { DoesPiece weigh_of (outside_of S.tells K.tells Q.tells source.old out.old keeper.old)
        (outside_of S.tells K.tells Q.tells source.new out.new keeper.new)
        pieces.old pieces.new lines.old.lines lines.new.lines run.old run.new result }
    ensures stays_open { StaysOpen (Q.tells keeper.old) (Q.tells keeper.new) }
    ensures ends { OnOk result ((S.tells source.new).ends ≡ ends_if pieces.new.is_ended (S.tells source.old).ends) }
    ensures ended { OnErr result (EndsOnce (S.tells source.old).ends (S.tells source.new).ends) }
{
    do_and_send(run, lines, out, keeper)?;
    if let Err(stop) = pieces.feed_next(source, lines) {
        return Err(StreamStop::at(stop, run.lines_done()));
    }
    Ok(())
}

/// Does each line that is held whole, and writes the replies.
fn do_and_send<K: Sink, Q: Keeper>(
    run: &mut ScriptRun,
    lines: &mut LineCutter,
    out: &mut K,
    keeper: &mut Q,
) -> Result<(), BreakOff>
    requires few { run.old.done + length lines.old.lines < 2 ^ 62 }
    requires open { IsTrue (Q.tells keeper.old).is_open }
    ensures does { DoesLines weigh_of (whole_lines lines.old.lines) run.old run.new (sink_seen K.tells out.old out.new) (keeper_seen Q.tells keeper.old keeper.new) result }
    ensures rest { OnOk result (lines.new.lines ≡ rest_of lines.old.lines ∷ []) }
    ensures sent { OnOk result (run.new.gathered ≡ []) }
    ensures stays_open { StaysOpen (Q.tells keeper.old) (Q.tells keeper.new) }
{
    do_held(run, lines, out, keeper)?;
    run.send(out)
}

/// Does each line that is held at the end of the input, writes the replies, and says how many lines are refused.
fn do_end<K: Sink, Q: Keeper>(
    run: &mut ScriptRun,
    lines: &mut LineCutter,
    out: &mut K,
    keeper: &mut Q,
) -> Result<u64, BreakOff>
    requires few { run.old.done + length lines.old.lines < 2 ^ 62 }
    requires open { IsTrue (Q.tells keeper.old).is_open }
    ensures ends { EndsLines weigh_of (whole_lines lines.old.lines ++ last_line (rest_of lines.old.lines)) run.old (sink_seen K.tells out.old out.new) (keeper_seen Q.tells keeper.old keeper.new) result }
    ensures stays_open { StaysOpen (Q.tells keeper.old) (Q.tells keeper.new) }
{
    do_rest(run, lines, out, keeper)?;
    run.finish(out)
}

/// Does each line that is held whole.
fn do_held<K: Sink, Q: Keeper>(
    run: &mut ScriptRun,
    lines: &mut LineCutter,
    out: &mut K,
    keeper: &mut Q,
) -> Result<(), BreakOff>
    requires few { run.old.done + length lines.old.lines < 2 ^ 62 }
    requires open { IsTrue (Q.tells keeper.old).is_open }
    ensures does { DoesLines weigh_of (whole_lines lines.old.lines) run.old run.new (sink_seen K.tells out.old out.new) (keeper_seen Q.tells keeper.old keeper.new) result }
    ensures rest { OnOk result (lines.new.lines ≡ rest_of lines.old.lines ∷ []) }
    ensures stays_open { StaysOpen (Q.tells keeper.old) (Q.tells keeper.new) }
{
    'lines: while let Some(line) = lines.next_line() {
        run.do_line(line, out, keeper)?;
    }
    Ok(())
}

/// Does each line that is held at the end of the input: those that are whole, and the rest unless it is empty.
fn do_rest<K: Sink, Q: Keeper>(
    run: &mut ScriptRun,
    lines: &mut LineCutter,
    out: &mut K,
    keeper: &mut Q,
) -> Result<(), BreakOff>
    requires few { run.old.done + length lines.old.lines < 2 ^ 62 }
    requires open { IsTrue (Q.tells keeper.old).is_open }
    ensures does { DoesLines weigh_of (whole_lines lines.old.lines ++ last_line (rest_of lines.old.lines)) run.old run.new (sink_seen K.tells out.old out.new) (keeper_seen Q.tells keeper.old keeper.new) result }
    ensures stays_open { StaysOpen (Q.tells keeper.old) (Q.tells keeper.new) }
{
    do_held(run, lines, out, keeper)?;
    match lines.finish() {
        Some(line) => run.do_line(line, out, keeper),
        None => Ok(()),
    }
}
