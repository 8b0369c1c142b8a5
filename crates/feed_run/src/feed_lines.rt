//! The lines of a feed as they are pulled, counted.
ghost use Rattle.std.specs.Prelude.{◌≡◌, ◌+◌, ◌<◌, ◌^◌, List, true, IfOk, Option, if◌then◌else◌};
ghost use Rattle.cube_base.specs.Outside.{SourceTold};
ghost use Rattle.cube_base.specs.declared.code.Code.TheVariants as code;
ghost use Rattle.fact_keeper.specs.declared.content.Batch.{Batch};
ghost use Rattle.feed_run.specs.declared.feed_stop.FeedStop.TheVariants as feed_stop;
ghost use Rattle.feed_run.specs.Following.{Base, Place};
ghost use Rattle.feed_run.specs.FollowTurn.{AreFew, FollowedTo, PullsOn};
ghost use Rattle.feed_run.specs.Pulling.{pulls_left};

use crate::{FeedStop, LinePull};
use cube_base::{Code, Source};
use std::alloc::Global;
use std::marker::Model;
use text_lines::{InputStop, LineInput};

/// The lines of a feed as they are pulled. Contracts see what is held of them, the one that was pulled last, and how many were.
#[derive(Drop)]
pub(crate) struct FeedLines {
    pull: LinePull,
    line: Vec<u8>,
    count: u64,
}

impl Model for FeedLines {
    ghost use Rattle.feed_run.specs.FollowTurn.{FeedPull};

    ghost Value = { FeedPull };

    ghost view = { λ f. record { input = f.pull.input; line = f.line.items; count = f.count } };
}

impl FeedLines {
    /// The lines of an input of which nothing was taken yet.
    pub(crate) fn new(alloc: Global, input: LineInput) -> Self
        ensures input { result.input ≡ input }
        ensures none { result.count ≡ 0 }
    {
        FeedLines {
            pull: LinePull { input },
            line: Vec::new(alloc),
            count: 0,
        }
    }

    /// Pulls the next line, and says whether there is one.
    pub(crate) fn next<S: Source>(&mut self, source: &mut S) -> Result<bool, InputStop>
        requires { AreFew self.old }
        ensures pulls { (base : Option Base) (start : SourceTold) (place : Place) (batches : List Batch) → FollowedTo base start (S.tells source.old) self.old place batches
            → PullsOn base start (S.tells source.new) self.new place batches result }
        ensures counted { IfOk result (λ more. self.new.count ≡ self.old.count + (if more then 1 else 0)) }
        ensures fewer { IfOk result (λ more. more ≡ true → pulls_left self.new.input < pulls_left self.old.input) }
    {
        let more = self.pull.next(source, &mut self.line)?;
        self.count += u64::from(more);
        Ok(more)
    }

    /// The line that was pulled last.
    pub(crate) fn line(&self) -> &[u8]
        ensures { result.now ≡ self.now.line }
    {
        &self.line
    }

    /// How many lines were pulled.
    pub(crate) fn count(&self) -> u64
        ensures { result ≡ self.now.count }
    {
        self.count
    }

    /// The feed ends after a line at which it may not.
    pub(crate) fn cut(&self) -> FeedStop
        requires { self.now.count < 2 ^ 62 }
        ensures { result ≡ feed_stop.Bad (self.now.count + 1) code.Cut }
    {
        FeedStop::Bad {
            line: self.count + 1,
            code: Code::Cut,
        }
    }
}
