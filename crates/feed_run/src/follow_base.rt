//! The facts of the base of a feed.
ghost use Rattle.std.specs.Prelude.{◌≡◌, Ok, ◌∷◌, ◌++◌, [], MatchResult, OnOk, Option};
ghost use Rattle.cube_base.specs.Outside.{SourceTold};
ghost use Rattle.cube_core.specs.Cube.{AreFactsOf};
ghost use Rattle.std.specs.Result.{result_err};
ghost use Rattle.region_algebra.specs.Space.{IsRegion};
ghost use Rattle.row_feed.specs.FeedLine.{IsFeedLineOf};
ghost use Rattle.feed_run.specs.BaseTurn.{GivesBase, JudgesBase, is_base_word};
ghost use Rattle.feed_run.specs.declared.feed_stop.FeedStop.TheVariants as feed_stop;
ghost use Rattle.feed_run.specs.declared.part_stop.PartStop.TheVariants as part_stop;
ghost use Rattle.feed_run.specs.Following.{Base, InBase, base_line_judged, base_refusal, in_base, last_id};
ghost use Rattle.feed_run.specs.FollowTurn.{AreFew, AreFewer, FollowedTo, StopsPart};

use crate::FeedStop;
use crate::feed_lines::FeedLines;
use crate::follow_head::judge_place;
use crate::part_stop::PartStop;
use cube_base::{Code, Source};
use cube_model::{Fact, MAX_FACTS};
use fact_records::{FactRun, check_region};
use region_algebra::Space;
use row_feed::{FeedLine, read_feed_line};
use schema_text::Schema;
use script_text::LineFault;
use std::alloc::Global;
use text_lines::{InputStop, field_at, is_text};

/// Follows the lines of the facts, up to the line `based`, which is pulled then and is still to be judged over the facts.
pub(crate) fn follow_facts<S: Source>(
    alloc: Global,
    schema: &Schema,
    feed: &mut FeedLines,
    source: &mut S,
) -> Result<FactRun, PartStop>
    requires few { AreFew feed.old }
    ensures follows { (base : Option Base) (start : SourceTold) → FollowedTo base start (S.tells source.old) feed.old (InBase schema.now []) []
        → MatchResult result (GivesBase base start (S.tells source.new) feed.new schema.now) (StopsPart base start (S.tells source.new) feed.new [] 0) }
    ensures few { OnOk result (AreFewer feed.old feed.new) }
{
    let mut facts = FactRun::new(alloc);
    'facts: while feed.next(source)? {
        match judge_base_line(alloc, schema, facts.as_slice(), feed.count(), feed.line())? {
            Some(fact) => facts.push(fact)?,
            None => return Ok(facts),
        }
    }
    Err(PartStop::Feed(feed.cut()))
}

/// Judges a line of the base after some facts: its fact, or None where it says that these are all.
fn judge_base_line(
    alloc: Global,
    schema: &Schema,
    facts: &[Fact],
    number: u64,
    line: &[u8],
) -> Result<Option<Fact>, PartStop>
    requires { AreFactsOf schema.now facts.now }
    ensures { JudgesBase (λ base. in_base base number schema.now facts.now line.now) schema.now facts.now number result }
{
    judge_place(number, line, is_base_line(line))?;
    match read_feed_line(alloc, schema, line) {
        Ok(told) => judge_told(schema, facts, number, told),
        Err(LineFault::Code(code)) => Err(refuse_line(number, code)),
        Err(LineFault::Memory) => Err(PartStop::Input(InputStop::Memory)),
    }
}

/// Judges what a line of the base tells after some facts.
fn judge_told(
    schema: &Schema,
    facts: &[Fact],
    number: u64,
    told: FeedLine,
) -> Result<Option<Fact>, PartStop>
    requires facts { AreFactsOf schema.now facts.now }
    requires within { IsFeedLineOf schema.now told }
    ensures { JudgesBase (λ base. base_line_judged base number schema.now facts.now (Ok told)) schema.now facts.now number result }
{
    match told {
        FeedLine::Fact(fact) => match judge_fact(schema.space(), facts, &fact) {
            Ok(()) => Ok(Some(fact)),
            Err(code) => Err(refuse_line(number, code)),
        },
        FeedLine::Based => Ok(None),
        FeedLine::Batch { line, .. } => {
            drop(line);
            Err(refuse_line(number, Code::Order))
        }
        FeedLine::Other => Err(refuse_line(number, Code::Order)),
    }
}

/// A line is refused.
pub(crate) fn refuse_line(number: u64, code: Code) -> PartStop
    ensures { result ≡ part_stop.Feed (feed_stop.Bad number code) }
{
    PartStop::Feed(FeedStop::Bad { line: number, code })
}

/// Whether a line is one of the base.
fn is_base_line(line: &[u8]) -> bool
    ensures { result ≡ is_base_word line.now }
{
    let word = field_at(line, 0);
    is_text(word, "fact") || is_text(word, "based")
}

/// Judges a fact of the base after others: `Exists`, its id is not above theirs; `Region`, its region has too many
/// cells; `Facts`, they are too many.
fn judge_fact(space: &Space, facts: &[Fact], fact: &Fact) -> Result<(), Code>
    requires { IsRegion space.now fact.now.region }
    ensures { result_err result ≡ base_refusal space.now facts.now fact.now }
{
    if fact.id <= last_id(facts) {
        return Err(Code::Exists);
    }
    check_region(space, fact.region)?;
    if facts.len() as u64 >= MAX_FACTS {
        return Err(Code::Facts);
    }
    Ok(())
}

/// The id of the last of some facts, 0 where there is none.
fn last_id(facts: &[Fact]) -> u64
    ensures { result ≡ last_id facts.now }
{
    match facts.last() {
        Some(fact) => fact.id,
        None => 0,
    }
}
