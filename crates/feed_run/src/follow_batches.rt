//! The batches of a feed: each is done on a cube, compared with the lines that tell it, committed and reported.
ghost use Rattle.std.specs.Prelude.{◌≡◌, ◌+◌, Ok, ◌<◌, ◌^◌, ◌∷◌, [], codes, List, IfOk, IsTrue, MatchResult, OnOk, Option};
ghost use Rattle.cube_base.specs.Outside.{SourceTold};
ghost use Rattle.cube_core.specs.Cube.{CubeValue};
ghost use Rattle.fact_keeper.specs.Keeper.{StaysOpen};
ghost use Rattle.fact_keeper.specs.declared.content.Batch.{Batch};
ghost use Rattle.row_feed.specs.FeedLine.{IsChangeOf, IsFeedLineOf};
ghost use Rattle.row_feed.specs.FeedText.{AreRowsOf, behind_lines};
ghost use Rattle.schema_text.specs.declared.word.PolicyWord.{PolicyWord as PolicyValue};
ghost use Rattle.feed_run.specs.BatchTurn.{AtBatch, AtWork, Ends, FollowsBatch, TakenBatch, TakesBatch};
ghost use Rattle.feed_run.specs.Following.{Base, Within, Work, batch_judged, batch_line_judged, between_batches, differs, has_word, refusal_in};
ghost use Rattle.feed_run.specs.FollowTurn.{AllTold, AreFew, AreFewer, FollowedBefore, FollowedTo, IsCubeAt, StopsPart, all_told};

use crate::catcher::{LineDone, do_caught};
use crate::feed_lines::FeedLines;
use crate::follow_base::refuse_line;
use crate::follow_head::judge_place;
use crate::keeping::apply;
use crate::part_stop::PartStop;
use crate::{FeedStop, FollowStop};
use cube_base::{Code, Sink, Source};
use cube_core::Cube;
use fact_keeper::{Batch, Keeper};
use row_feed::{BatchLines, FeedLine, read_feed_line};
use schema_text::{PolicyWord, Schema};
use script_run::StreamStop;
use script_text::{Line, LineFault, Reply};
use std::alloc::Global;
use text_lines::{InputStop, field_at, is_clean, is_long, is_text};

/// Follows the batches of a feed to its end.
pub(crate) fn follow_batches<S: Source, K: Sink, Q: Keeper>(
    alloc: Global,
    cube: &mut Cube<PolicyWord>,
    feed: &mut FeedLines,
    source: &mut S,
    out: &mut K,
    keeper: &mut Q,
) -> Result<(), FollowStop>
    requires few { AreFew feed.old }
    requires open { IsTrue (Q.tells keeper.old).is_open }
    ensures ends { (base : Option Base) (start : AllTold) → AtWork base start (all_told S.tells K.tells Q.tells source.old out.old keeper.old) feed.old cube.old 0
        → Ends base start (all_told S.tells K.tells Q.tells source.new out.new keeper.new) result }
    ensures stays_open { StaysOpen (Q.tells keeper.old) (Q.tells keeper.new) }
{
    let mut text = Vec::new(alloc);
    let mut applied = 0;
    'batches: loop {
        match feed.next(source) {
            Ok(true) => {
                follow_batch(alloc, cube, applied, feed, source, &mut text, out, keeper)?;
                applied += 1;
            }
            Ok(false) => return Ok(()),
            Err(stop) => return Err(PartStop::Input(stop).at(applied)),
        }
    }
}

/// Follows a batch, whose first line was pulled, after so many that are applied.
fn follow_batch<S: Source, K: Sink, Q: Keeper>(
    alloc: Global,
    cube: &mut Cube<PolicyWord>,
    applied: u64,
    feed: &mut FeedLines,
    source: &mut S,
    text: &mut Vec<u8>,
    out: &mut K,
    keeper: &mut Q,
) -> Result<(), FollowStop>
    requires few { AreFew feed.old }
    requires applied { applied < 2 ^ 62 }
    requires open { IsTrue (Q.tells keeper.old).is_open }
    ensures follows { (base : Option Base) (start : AllTold) → AtBatch base start (all_told S.tells K.tells Q.tells source.old out.old keeper.old) feed.old cube.old applied
        → FollowsBatch base start (all_told S.tells K.tells Q.tells source.new out.new keeper.new) feed.new cube.new applied result }
    ensures few { OnOk result (AreFewer feed.old feed.new) }
    ensures stays_open { StaysOpen (Q.tells keeper.old) (Q.tells keeper.new) }
{
    let batch = match take_batch(alloc, cube, applied, feed.count(), feed.line()) {
        Ok(batch) => batch,
        Err(stop) => return Err(stop.at(applied)),
    };
    let followed = finish_batch(
        cube.schema(),
        &batch,
        applied,
        feed,
        source,
        text,
        out,
        keeper,
    );
    drop(batch);
    followed
}

/// Follows the lines after the first of a batch, which was done on the cube of this schema, and applies it.
fn finish_batch<S: Source, K: Sink, Q: Keeper>(
    schema: &Schema,
    batch: &Batch,
    applied: u64,
    feed: &mut FeedLines,
    source: &mut S,
    text: &mut Vec<u8>,
    out: &mut K,
    keeper: &mut Q,
) -> Result<(), FollowStop>
    requires few { AreFew feed.old }
    requires applied { applied < 2 ^ 62 }
    requires rows { AreRowsOf schema.now.dims batch.now.rows }
    requires open { IsTrue (Q.tells keeper.old).is_open }
    ensures follows { (base : Option Base) (start : AllTold) (before after : CubeValue PolicyValue) (at : AtBatch base start (all_told S.tells K.tells Q.tells source.old out.old keeper.old) feed.old before applied)
        → after.schema ≡ schema.now → TakenBatch at.work (between_batches feed.old.count at.work feed.old.line) after batch.now
        → FollowsBatch base start (all_told S.tells K.tells Q.tells source.new out.new keeper.new) feed.new after applied result }
    ensures few { OnOk result (AreFewer feed.old feed.new) }
    ensures stays_open { StaysOpen (Q.tells keeper.old) (Q.tells keeper.new) }
{
    match follow_lines(schema, batch, applied + 1, feed, source, text) {
        Ok(()) => {}
        Err(stop) => return Err(stop.at(applied)),
    }
    match apply(batch, applied, text, out, keeper) {
        Ok(()) => Ok(()),
        Err(off) => Err(FollowStop::Stream(StreamStop::Broke(off))),
    }
}

/// Does what the first line of a batch says on the cube, after so many batches that are applied, and gives what it
/// commits.
fn take_batch(
    alloc: Global,
    cube: &mut Cube<PolicyWord>,
    applied: u64,
    number: u64,
    line: &[u8],
) -> Result<Batch, PartStop>
    requires { applied < 2 ^ 62 }
    ensures takes { (work : Work) → IsCubeAt work cube.old → work.applied ≡ applied → TakesBatch work (between_batches number work line.now) cube.new result }
    ensures rows { IfOk result (λ batch. AreRowsOf cube.new.schema.dims batch.rows) }
{
    judge_place(number, line, is_batch_line(line))?;
    match read_feed_line(alloc, cube.schema(), line) {
        Ok(told) => take_told(alloc, cube, applied, number, told),
        Err(LineFault::Code(code)) => Err(refuse_line(number, code)),
        Err(LineFault::Memory) => Err(PartStop::Input(InputStop::Memory)),
    }
}

/// Whether a line is that of a batch.
fn is_batch_line(line: &[u8]) -> bool
    ensures { result ≡ has_word (codes "batch") line.now }
{
    is_text(field_at(line, 0), "batch")
}

/// Does what the line of a batch tells, which must be the next.
fn take_told(
    alloc: Global,
    cube: &mut Cube<PolicyWord>,
    applied: u64,
    number: u64,
    told: FeedLine,
) -> Result<Batch, PartStop>
    requires few { applied < 2 ^ 62 }
    requires within { IsFeedLineOf cube.old.schema told }
    ensures takes { (work : Work) → IsCubeAt work cube.old → work.applied ≡ applied → TakesBatch work (batch_line_judged number work (Ok told)) cube.new result }
    ensures rows { IfOk result (λ batch. AreRowsOf cube.new.schema.dims batch.rows) }
{
    match told {
        FeedLine::Batch { number: got, line } => {
            let taken = if got == applied + 1 {
                do_batch(alloc, cube, number, &line)
            } else {
                Err(PartStop::Feed(FeedStop::Order {
                    want: applied + 1,
                    got,
                }))
            };
            drop(line);
            taken
        }
        FeedLine::Fact(_) => Err(refuse_line(number, Code::Order)),
        FeedLine::Based => Err(refuse_line(number, Code::Order)),
        FeedLine::Other => Err(refuse_line(number, Code::Order)),
    }
}

/// Does what a batch says on the cube: an edit or a growth, which must be accepted.
fn do_batch(
    alloc: Global,
    cube: &mut Cube<PolicyWord>,
    number: u64,
    said: &Result<Line, Code>,
) -> Result<Batch, PartStop>
    requires { IfOk said.now (IsChangeOf cube.old.schema) }
    ensures takes { (work : Work) → IsCubeAt work cube.old → TakesBatch work (batch_judged number work said.now) cube.new result }
    ensures rows { IfOk result (λ batch. AreRowsOf cube.new.schema.dims batch.rows) }
{
    if let Err(code) = said {
        return Err(refuse_line(number, *code));
    }
    let LineDone { reply, batch } = do_caught(alloc, cube, said)?;
    match batch {
        Some(batch) => {
            drop(reply);
            Ok(batch)
        }
        None => {
            let code = refusal_in(&reply);
            drop(reply);
            Err(refuse_line(number, code))
        }
    }
}

/// The code of a reply that refuses its line.
fn refusal_in(reply: &Option<Reply>) -> Code
    ensures { result ≡ refusal_in reply.now }
{
    match reply {
        Some(Reply::Refused(code)) => *code,
        _ => Code::Command,
    }
}

/// Compares the lines of a batch with those of what the cube makes of it, which are made one after the other in a buffer. The last of
/// them is pulled then, and the batch is still to be committed.
fn follow_lines<S: Source>(
    schema: &Schema,
    batch: &Batch,
    number: u64,
    feed: &mut FeedLines,
    source: &mut S,
    text: &mut Vec<u8>,
) -> Result<(), PartStop>
    requires few { AreFew feed.old }
    requires rows { AreRowsOf schema.now.dims batch.now.rows }
    ensures follows { (base : Option Base) (start : SourceTold) (work : Work) (batches : List Batch) → work.applied + 1 ≡ number
        → FollowedTo base start (S.tells source.old) feed.old (Within work batch.now (behind_lines schema.now.dims batch.now)) batches
        → MatchResult result (λ _. FollowedBefore base start (S.tells source.new) feed.new (Within work batch.now (feed.new.line ∷ [])) batches) (StopsPart base start (S.tells source.new) feed.new batches work.applied) }
    ensures few { OnOk result (AreFewer feed.old feed.new) }
{
    let mut expected = BatchLines::new(schema, batch);
    'lines: while expected.next(text)? {
        if !feed.next(source)? {
            return Err(PartStop::Feed(feed.cut()));
        }
        if text.as_slice() != feed.line() {
            return Err(PartStop::Feed(differs(number, feed.count(), feed.line())));
        }
    }
    Ok(())
}

/// Why a line of a batch is not followed that is not the one that is expected.
fn differs(number: u64, count: u64, line: &[u8]) -> FeedStop
    ensures { (work : Work) → work.applied + 1 ≡ number → result ≡ differs count work line.now }
{
    let code = if is_long(line) {
        Code::Long
    } else if !is_clean(line) {
        Code::Text
    } else {
        return FeedStop::Differs {
            number,
            line: count,
        };
    };
    FeedStop::Bad { line: count, code }
}
