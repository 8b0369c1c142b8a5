//! The head of a feed: its version, and the schema of the leader.
ghost use Rattle.std.specs.Prelude.{◌≡◌, ◌<◌, ◌^◌, ◌∷◌, ◌++◌, [], codes, length, IfOk, MatchResult, OnOk, Option, Result};
ghost use Rattle.cube_base.specs.Outside.{SourceTold};
ghost use Rattle.schema_text.specs.SchemaText.{is_end, schema_of};
ghost use Rattle.feed_run.specs.Following.{Base, AtStart, InBase, InSchema, Moved, at_start, moved_to, schema_cut, schema_judged, where_it_may};
ghost use Rattle.feed_run.specs.FollowTurn.{AreFew, AreFewer, FollowedTo, StopsPart, judged};
ghost use Rattle.feed_run.specs.HeadTurn.{IsEarly, JudgesSchema, StopsBy, schema_stop};

use crate::FeedStop;
use crate::feed_lines::FeedLines;
use crate::part_stop::PartStop;
use cube_base::{Code, Memory, Source};
use schema_text::{Schema, SchemaFault, read_schema};
use std::alloc::Global;
use text_lines::{InputStop, field_at, field_count, is_clean, is_long, is_text, without_cr};

/// Follows the first lines of a feed, up to and with the line `end` of its schema.
pub(crate) fn follow_head<S: Source>(
    alloc: Global,
    feed: &mut FeedLines,
    source: &mut S,
) -> Result<Schema, PartStop>
    requires few { AreFew feed.old }
    ensures follows { (base : Option Base) (start : SourceTold) → FollowedTo base start (S.tells source.old) feed.old AtStart []
        → MatchResult result (λ schema. FollowedTo base start (S.tells source.new) feed.new (InBase schema []) []) (StopsPart base start (S.tells source.new) feed.new [] 0) }
    ensures few { OnOk result (AreFewer feed.old feed.new) }
{
    follow_version(feed, source)?;
    follow_schema(alloc, feed, source)
}

/// Follows the first line.
fn follow_version<S: Source>(feed: &mut FeedLines, source: &mut S) -> Result<(), PartStop>
    requires few { AreFew feed.old }
    ensures follows { (base : Option Base) (start : SourceTold) → FollowedTo base start (S.tells source.old) feed.old AtStart []
        → MatchResult result (λ _. FollowedTo base start (S.tells source.new) feed.new (InSchema []) []) (StopsPart base start (S.tells source.new) feed.new [] 0) }
    ensures few { OnOk result (AreFewer feed.old feed.new) }
{
    if !feed.next(source)? {
        return Err(PartStop::Feed(feed.cut()));
    }
    match judge_version(feed.count(), feed.line()) {
        Ok(()) => Ok(()),
        Err(stop) => Err(PartStop::Feed(stop)),
    }
}

/// Judges the first line of a feed.
fn judge_version(number: u64, line: &[u8]) -> Result<(), FeedStop>
    ensures { at_start number line.now ≡ judged (λ _. moved_to (InSchema [])) result }
{
    judge_place(number, line, is_text(field_at(line, 0), "feed"))?;
    if field_count(line) != 2 {
        return Err(FeedStop::Bad {
            line: number,
            code: Code::Fields,
        });
    }
    if !is_text(field_at(line, 1), "1") {
        return Err(FeedStop::Bad {
            line: number,
            code: Code::Number,
        });
    }
    Ok(())
}

/// Judges a line by its length, its text, and whether it may stand there.
pub(crate) fn judge_place(number: u64, line: &[u8], may: bool) -> Result<(), FeedStop>
    ensures { (next : Result Moved FeedStop) → where_it_may number line.now may next ≡ judged (λ _. next) result }
{
    let code = if is_long(line) {
        Code::Long
    } else if !is_clean(line) {
        Code::Text
    } else if !may {
        Code::Order
    } else {
        return Ok(());
    };
    Err(FeedStop::Bad { line: number, code })
}

/// Follows the lines of the schema, which are gathered, each with an LF, and read once the last of them came.
fn follow_schema<S: Source>(
    alloc: Global,
    feed: &mut FeedLines,
    source: &mut S,
) -> Result<Schema, PartStop>
    requires few { AreFew feed.old }
    ensures follows { (base : Option Base) (start : SourceTold) → FollowedTo base start (S.tells source.old) feed.old (InSchema []) []
        → MatchResult result (λ schema. FollowedTo base start (S.tells source.new) feed.new (InBase schema []) []) (StopsPart base start (S.tells source.new) feed.new [] 0) }
    ensures few { OnOk result (AreFewer feed.old feed.new) }
{
    let mut text = Vec::new(alloc);
    'lines: while feed.next(source)? {
        push_line(&mut text, feed.line())?;
        if is_end(feed.line()) {
            return judge_schema(alloc, &text);
        }
    }
    Err(cut_schema(alloc, &text, feed))
}

/// The schema that its lines say.
fn judge_schema(alloc: Global, text: &[u8]) -> Result<Schema, PartStop>
    requires { length text.now < 2 ^ 63 }
    ensures { JudgesSchema (schema_of text.now) result }
{
    match read_schema(alloc, text) {
        Ok((schema, _)) => Ok(schema),
        Err(fault) => Err(stop_of_schema(fault)),
    }
}

/// Why a feed stops that ends within its schema.
fn cut_schema(alloc: Global, text: &[u8], feed: &FeedLines) -> PartStop
    requires text { length text.now < 2 ^ 63 }
    requires feed { feed.now.count < 2 ^ 62 }
    ensures { StopsBy (λ why. why ≡ schema_cut feed.now.count (schema_of text.now)) result }
{
    match judge_schema(alloc, text) {
        Ok(_) => PartStop::Feed(feed.cut()),
        Err(stop) => stop,
    }
}

/// Why a feed stops whose schema is refused, of which the first line is the second of the feed.
fn stop_of_schema(fault: SchemaFault) -> PartStop
    requires { IsEarly fault }
    ensures { result ≡ schema_stop fault }
{
    match fault {
        SchemaFault::Bad { line, code } => PartStop::Feed(FeedStop::Bad {
            line: line + 1,
            code,
        }),
        SchemaFault::Memory => PartStop::Input(InputStop::Memory),
    }
}

/// Whether a line is the last of a schema.
fn is_end(line: &[u8]) -> bool
    ensures { result ≡ is_end line.now }
{
    is_text(without_cr(line), "end")
}

/// Appends a line and an LF.
fn push_line(text: &mut Vec<u8>, line: &[u8]) -> Result<(), Memory>
    ensures { OnOk result (text.new.items ≡ text.old.items ++ line.now ++ 10 ∷ []) }
{
    text.extend_from_slice(line)?;
    text.push(b'\n')?;
    Ok(())
}
