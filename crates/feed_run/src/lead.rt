//! A leader: the lines of a script are done over a store, and what they change is written as a feed.
ghost use Rattle.std.specs.Prelude.{◌≡◌, ℕ, ◌+◌, List, IfOk, IsTrue};
ghost use Rattle.schema_text.specs.Schema.{weigh_of};
ghost use Rattle.fact_keeper.specs.Keeper.{StaysOpen};
ghost use Rattle.text_lines.specs.Input.{EndsOnce};
ghost use Rattle.script_text.specs.LineOf.{IsLineOf};
ghost use Rattle.script_run.specs.Run.{state_of};
ghost use Rattle.script_run.specs.Seen.{keeper_seen, seen_of, sink_seen};
ghost use Rattle.row_feed.specs.FeedText.{AreRowsOf, IsSaid, batch_lines, feed_bytes};
ghost use Rattle.feed_run.specs.Leading.{EndsLead, base_text};
ghost use Rattle.feed_run.specs.LeadTurn.{IsBegun, IsFew, IsTellable, KeepsBatch, LeadsLine, LeadsRead, SendsText, TellsBatch};
ghost use Rattle.feed_run.specs.Pulling.{IsFresh};

use crate::LinePull;
use crate::catcher::do_caught;
use cube_base::{Bytes, Code, Memory, Sink, Source, write_whole};
use cube_core::Cube;
use fact_keeper::{Batch, KeepError, Keeper};
use row_feed::{write_base, write_batch};
use schema_text::PolicyWord;
use script_run::{BreakOff, StreamStop, is_refusal, read};
use script_text::Line;
use std::alloc::Global;
use text_lines::LineInput;

/// Does the lines of a script as its input comes, of which nothing was taken yet, and writes a feed. That begins with the schema and the
/// facts of the cube, which are written before anything is read. What an accepted edit or growth changes is committed to the keeper, which
/// must be open, and then its text is written at once. It says how many lines are refused; nothing is written of these, nor of a question.
///
/// So the keeper holds at every stop what those lines made of it that are done by the stop's own count. A write that fails at the line 0
/// is that of what the feed begins with.
pub fn lead_stream<S: Source, K: Sink, Q: Keeper>(
    alloc: Global,
    cube: Cube<PolicyWord>,
    input: LineInput,
    source: &mut S,
    out: &mut K,
    keeper: &mut Q,
) -> Result<u64, StreamStop>
    requires fresh { IsFresh input }
    requires open { IsTrue (Q.tells keeper.old).is_open }
    ensures ends { EndsLead (record { weigh = weigh_of cube.policy; schema = cube.schema; first = state_of cube }) (seen_of S.tells K.tells Q.tells source.old source.new out.old out.new keeper.old keeper.new) result }
    ensures stays_open { StaysOpen (Q.tells keeper.old) (Q.tells keeper.new) }
    ensures ended { EndsOnce (S.tells source.old).ends (S.tells source.new).ends }
{
    let mut run = LeadRun::new(alloc, cube);
    let mut pull = LinePull { input };
    let led = run.lead(&mut pull, source, out, keeper);
    drop(run);
    led
}

/// A leader at work: its cube, how many batches it told, and how many lines it did and refused.
#[derive(Drop)]
pub(crate) struct LeadRun {
    alloc: Global,
    pub(crate) cube: Cube<PolicyWord>,
    pub(crate) told: u64,
    pub(crate) done: u64,
    pub(crate) refused: u64,
}

impl LeadRun {
    /// No line is done yet.
    fn new(alloc: Global, cube: Cube<PolicyWord>) -> Self
        ensures cube { result.cube ≡ cube }
        ensures begun { IsBegun result }
    {
        LeadRun {
            alloc,
            cube,
            told: 0,
            done: 0,
            refused: 0,
        }
    }

    /// Writes what the feed begins with, and then does the lines and writes what they change, to the end of the input.
    /// It says how many are refused.
    fn lead<S: Source, K: Sink, Q: Keeper>(
        &mut self,
        pull: &mut LinePull,
        source: &mut S,
        out: &mut K,
        keeper: &mut Q,
    ) -> Result<u64, StreamStop>
        requires begun { IsBegun self.old }
        requires fresh { IsFresh pull.old.input }
        requires open { IsTrue (Q.tells keeper.old).is_open }
        ensures ends { EndsLead (record { weigh = weigh_of self.old.cube.policy; schema = self.old.cube.schema; first = state_of self.old.cube }) (seen_of S.tells K.tells Q.tells source.old source.new out.old out.new keeper.old keeper.new) result }
        ensures stays_open { StaysOpen (Q.tells keeper.old) (Q.tells keeper.new) }
        ensures ended { EndsOnce (S.tells source.old).ends (S.tells source.new).ends }
    {
        self.begin(out)?;
        let mut line = Vec::new(self.alloc);
        'lines: loop {
            match pull.next(source, &mut line) {
                Ok(true) => self.do_line(&line, out, keeper)?,
                Ok(false) => return Ok(self.refused),
                Err(stop) => return Err(StreamStop::at(stop, self.done)),
            }
        }
    }

    /// Writes what the feed begins with.
    fn begin<K: Sink>(&self, out: &mut K) -> Result<(), BreakOff>
        ensures { SendsText (base_text self.now.cube.schema (state_of self.now.cube)) 0 (sink_seen K.tells out.old out.new) result }
    {
        let text = write_base(self.alloc, self.cube.schema(), self.cube.facts());
        send(text, 0, out)
    }

    /// Does a line, and writes what it changes.
    fn do_line<K: Sink, Q: Keeper>(
        &mut self,
        line: &[u8],
        out: &mut K,
        keeper: &mut Q,
    ) -> Result<(), BreakOff>
        requires few { IsFew self.old }
        requires open { IsTrue (Q.tells keeper.old).is_open }
        ensures leads { LeadsLine line.now self.old self.new (sink_seen K.tells out.old out.new) (keeper_seen Q.tells keeper.old keeper.new) result }
        ensures stays_open { StaysOpen (Q.tells keeper.old) (Q.tells keeper.new) }
    {
        let Ok(read) = read(self.alloc, self.cube.schema(), line) else {
            return Err(BreakOff::Memory { done: self.done });
        };
        let led = self.do_read(&read, out, keeper);
        drop(read);
        led
    }

    /// Does a line that was read, and writes what it changes.
    fn do_read<K: Sink, Q: Keeper>(
        &mut self,
        read: &Result<Line, Code>,
        out: &mut K,
        keeper: &mut Q,
    ) -> Result<(), BreakOff>
        requires few { IsFew self.old }
        requires within { IfOk read.now (IsLineOf self.old.cube.schema) }
        requires open { IsTrue (Q.tells keeper.old).is_open }
        ensures leads { LeadsRead read.now self.old self.new (sink_seen K.tells out.old out.new) (keeper_seen Q.tells keeper.old keeper.new) result }
        ensures stays_open { StaysOpen (Q.tells keeper.old) (Q.tells keeper.new) }
    {
        let Ok(did) = do_caught(self.alloc, &mut self.cube, read) else {
            return Err(BreakOff::Memory { done: self.done });
        };
        let told = self.tell(read, &did.batch, out, keeper);
        let is_refused = is_refusal(&did.reply);
        drop(did);
        told?;
        self.done += 1;
        self.refused += u64::from(is_refused);
        Ok(())
    }

    /// Keeps the batch of a line that was done on the cube, if it has one, and then writes its text.
    fn tell<K: Sink, Q: Keeper>(
        &mut self,
        read: &Result<Line, Code>,
        found: &Option<Batch>,
        out: &mut K,
        keeper: &mut Q,
    ) -> Result<(), BreakOff>
        requires few { IsFew self.old }
        requires tellable { IsTellable self.old.cube.schema read.now found.now }
        requires open { IsTrue (Q.tells keeper.old).is_open }
        ensures tells { TellsBatch read.now found.now self.old self.new (sink_seen K.tells out.old out.new) (keeper_seen Q.tells keeper.old keeper.new) result }
        ensures stays_open { StaysOpen (Q.tells keeper.old) (Q.tells keeper.new) }
    {
        if let (Ok(said), Some(batch)) = (read, found) {
            keep(batch, self.done, keeper)?;
            return self.send_batch(said, batch, out);
        }
        Ok(())
    }

    /// Writes the text of the batch of the line after those that are done, by its number.
    fn send_batch<K: Sink>(
        &mut self,
        said: &Line,
        batch: &Batch,
        out: &mut K,
    ) -> Result<(), BreakOff>
        requires few { IsFew self.old }
        requires said { IsSaid self.old.cube.schema said.now }
        requires rows { AreRowsOf self.old.cube.schema.dims batch.now.rows }
        ensures told { self.new ≡ record self.old { told = self.old.told + 1 } }
        ensures sends { SendsText (feed_bytes (batch_lines self.old.cube.schema (self.old.told + 1) said.now batch.now)) (self.old.done + 1) (sink_seen K.tells out.old out.new) result }
    {
        self.told += 1;
        let text = write_batch(self.alloc, self.cube.schema(), self.told, said, batch);
        send(text, self.done + 1, out)
    }
}

/// Commits a batch to a keeper, which must be open, after so many lines.
pub(crate) fn keep<Q: Keeper>(batch: &Batch, done: u64, keeper: &mut Q) -> Result<(), BreakOff>
    requires open { IsTrue (Q.tells keeper.old).is_open }
    ensures keeps { KeepsBatch batch.now done (keeper_seen Q.tells keeper.old keeper.new) result }
    ensures stays_open { StaysOpen (Q.tells keeper.old) (Q.tells keeper.new) }
{
    match keeper.commit(batch) {
        Ok(()) => Ok(()),
        Err(KeepError::Failed) => Err(BreakOff::Keep { done }),
        Err(KeepError::Memory) => Err(BreakOff::Memory { done }),
    }
}

/// Writes the text of a line, if there was memory for it.
fn send<K: Sink>(text: Result<Bytes, Memory>, line: u64, out: &mut K) -> Result<(), BreakOff>
    ensures { (said : List ℕ) → IfOk text (λ bytes. bytes ≡ said) → SendsText said line (sink_seen K.tells out.old out.new) result }
{
    let Ok(text) = text else {
        return Err(BreakOff::Memory { done: line });
    };
    match write_whole(out, text.as_slice()) {
        Ok(()) => Ok(()),
        Err(error) => Err(BreakOff::at(error, line)),
    }
}
