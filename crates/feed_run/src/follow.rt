//! A follower: what a feed tells is taken over into a store of its own.
ghost use Rattle.std.specs.Prelude.{◌≡◌, [], IsTrue, MatchResult, OnOk, Option};
ghost use Rattle.cube_base.specs.Outside.{SourceTold};
ghost use Rattle.fact_keeper.specs.Keeper.{StaysOpen};
ghost use Rattle.text_lines.specs.Input.{EndsOnce};
ghost use Rattle.script_run.specs.Seen.{seen_of};
ghost use Rattle.feed_run.specs.BaseTurn.{GivesBase};
ghost use Rattle.feed_run.specs.BatchTurn.{Ends};
ghost use Rattle.feed_run.specs.FollowEnd.{EndsFollow};
ghost use Rattle.feed_run.specs.Following.{AtStart, Base as BaseValue};
ghost use Rattle.feed_run.specs.FollowTurn.{AreFew, AreFewer, FollowedTo, StopsPart, all_told};
ghost use Rattle.feed_run.specs.Pulling.{IsFresh};

use crate::begin::begin;
use crate::feed_lines::FeedLines;
use crate::follow_base::follow_facts;
use crate::follow_batches::follow_batches;
use crate::follow_head::follow_head;
use crate::part_stop::PartStop;
use crate::{Base, FeedStop};
use cube_base::{Sink, Source};
use fact_keeper::Keeper;
use fact_records::FactRun;
use schema_text::Schema;
use script_run::StreamStop;
use std::alloc::Global;
use text_lines::LineInput;

/// Why a feed was not followed to its end.
#[derive(Clone, Copy, Debug, PartialEq, Eq)]
pub enum FollowStop {
    /// The feed is not what it must be.
    Feed(FeedStop),
    /// It broke off, or the input is not taken whole. The numbers are those of batches.
    Stream(StreamStop),
}

/// Follows a feed as it comes, of which nothing was taken yet, over what the store holds, if it holds anything. The base of the feed must be
/// that; where the store holds nothing it is committed to the keeper, which must be open. Each batch is done on a cube, and
/// the lines that tell it must be those of what that gives. Once the last of them came, it is committed, and a line says so, which is
/// written at once.
///
/// So the keeper holds at every stop the base and whole batches. No more of the feed is held than its base and a line, and no more of a
/// batch than what the cube makes of it.
pub fn follow_stream<S: Source, K: Sink, Q: Keeper>(
    alloc: Global,
    base: Option<Base>,
    input: LineInput,
    source: &mut S,
    out: &mut K,
    keeper: &mut Q,
) -> Result<(), FollowStop>
    requires fresh { IsFresh input }
    requires open { IsTrue (Q.tells keeper.old).is_open }
    ensures ends { EndsFollow base (seen_of S.tells K.tells Q.tells source.old source.new out.old out.new keeper.old keeper.new) result }
    ensures stays_open { StaysOpen (Q.tells keeper.old) (Q.tells keeper.new) }
    ensures ended { EndsOnce (S.tells source.old).ends (S.tells source.new).ends }
{
    let mut feed = FeedLines::new(alloc, input);
    let followed = follow_feed(alloc, base, &mut feed, source, out, keeper);
    drop(feed);
    followed
}

/// Follows a feed of which no line was pulled yet.
fn follow_feed<S: Source, K: Sink, Q: Keeper>(
    alloc: Global,
    base: Option<Base>,
    feed: &mut FeedLines,
    source: &mut S,
    out: &mut K,
    keeper: &mut Q,
) -> Result<(), FollowStop>
    requires fresh { IsFresh feed.old.input }
    requires none { feed.old.count ≡ 0 }
    requires open { IsTrue (Q.tells keeper.old).is_open }
    ensures ends { Ends base (all_told S.tells K.tells Q.tells source.old out.old keeper.old) (all_told S.tells K.tells Q.tells source.new out.new keeper.new) result }
    ensures stays_open { StaysOpen (Q.tells keeper.old) (Q.tells keeper.new) }
{
    let (schema, facts) = match follow_base(alloc, feed, source) {
        Ok(given) => given,
        Err(stop) => {
            drop(base);
            return Err(stop.at(0));
        }
    };
    let mut cube = begin(alloc, base, schema, facts, feed.count(), keeper)?;
    let followed = follow_batches(alloc, &mut cube, feed, source, out, keeper);
    drop(cube);
    followed
}

/// Follows the base of a feed: its schema, and its facts up to the line `based`, which is pulled then and still to be judged.
fn follow_base<S: Source>(
    alloc: Global,
    feed: &mut FeedLines,
    source: &mut S,
) -> Result<(Schema, FactRun), PartStop>
    requires few { AreFew feed.old }
    ensures follows { (base : Option BaseValue) (start : SourceTold) → FollowedTo base start (S.tells source.old) feed.old AtStart []
        → MatchResult result (λ given. GivesBase base start (S.tells source.new) feed.new given.0 given.1) (StopsPart base start (S.tells source.new) feed.new [] 0) }
    ensures few { OnOk result (AreFewer feed.old feed.new) }
{
    let schema = follow_head(alloc, feed, source)?;
    match follow_facts(alloc, &schema, feed, source) {
        Ok(facts) => Ok((schema, facts)),
        Err(stop) => {
            drop(schema);
            Err(stop)
        }
    }
}
