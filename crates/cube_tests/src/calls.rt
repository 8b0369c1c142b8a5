//! Each call of the source, the sink and the keeper failing in turn. A script with lines of every kind runs over a
//! store, leads a feed from it, and another store follows that. A run without a fault over the parts of the input that
//! are done by then gives how such a run ends, what it writes and what is kept.
use crate::runs::{Ending, Outside, WHOLE};
use crate::stored::{KeptRun, are_same, run_stored, without_facts};
use cube_base::Memory;
use std::alloc::{AllocError, Global};

/// Places and autos, with a number measure and a distribution, the policy of counts, and a view of states by kinds of autos.
const SCHEMA: &str =
    "cube\t1\npolicy\tcount\nnumber\tRepair\nparts\tQuality\t100\tgood\tbad\ndimension\tPlace\nnode\t0\tAll\nnode\t1\tTX\nnode\t2\tAustin\nnode\t2\tDallas\nnode\t2\tHouston\nnode\t1\tCA\nnode\t2\tLA\nnode\t2\tSF\ndimension\tAuto\nnode\t0\tAll\nnode\t1\tSedan\nnode\t2\tCamry\nnode\t2\tCivic\nnode\t1\tTruck\nnode\t2\tF150\nnode\t2\tSierra\nview\tstate\t1\t1\nend\n";

/// A line, and its reply, if it has one.
type Row = (&'static str, &'static str);

/// Fact 2 lies in Austin, then in Austin and Dallas, then in Austin and Houston. When Houston has two districts fact 3, which lay there,
/// lies in both, and fact 2 in Austin alone; once that has no precise fact it lies in all five places of Texas. The last line has no LF.
const ROWS: [Row; 24] = [
    ("# repairs\n", ""),
    ("insert\t1\tAustin\tCamry\t100\t80:20\n", "ok\t1\n"),
    ("insert\t2\tTX\tCamry\t600\t50:50\n", "ok\t1\n"),
    ("insert\t3\tDallas\tCamry\t50\t0:100\n", "ok\t2\n"),
    ("insert\t3\tDallas\tCamry\t50\t0:100\n", "error\texists\n"),
    ("\n", ""),
    ("change\t3\tHouston\tCamry\t50\t0:100\n", "ok\t2\n"),
    ("change\t3\tHouston\tCamry\t51\t0:100\n", "ok\t0\n"),
    ("grow\tPlace\tTX\tWaco\n", "ok\t0\n"),
    ("grow\tPlace\tTX\tWaco\n", "error\tname\n"),
    ("grow\tPlace\tHouston\tGalleria\n", "ok\t0\n"),
    ("grow\tPlace\tHouston\tMidtown\n", "ok\t2\n"),
    (
        "rows\t3\n",
        "rows\t2\t2\tGalleria\tCamry\t1\tMidtown\tCamry\t1\n",
    ),
    ("count\tTX\tAll\n", "count\t3.000000000\t3.000000000\t3\n"),
    (
        "sum\tRepair\tMidtown\tCamry\n",
        "sum\t25.500000000\t25.500000000\t51/2\n",
    ),
    (
        "avg\tRepair\tAustin\tAll\n",
        "avg\t350.000000000\t350.000000000\t350\n",
    ),
    (
        "pool\tQuality\tAustin\tAll\n",
        "pool\t0.650000000\t0.650000000\t13/20\t0.350000000\t0.350000000\t7/20\n",
    ),
    ("terms\tHouston\tCamry\n", "terms\t1\t2\t2\t102\t0\t200\n"),
    (
        "view\tstate\n",
        "view\t1\tTX\tSedan\t2\t1\t2\t700\t130\t70\t2\t2\t102\t0\t200\n",
    ),
    ("worlds\tAll\tAll\n", "worlds\t2\t2\t6\t1502\t260\t340\n"),
    // The codes of the cells of fact 3 shift.
    ("grow\tAuto\tSedan\tAccord\n", "ok\t1\n"),
    ("withdraw\t1\n", "ok\t1\n"),
    ("total\n", "error\tcommand\n"),
    (
        "rows\t2",
        "rows\t5\t5\tAustin\tCamry\t1\tDallas\tCamry\t1\tGalleria\tCamry\t1\tMidtown\tCamry\t1\tWaco\tCamry\t1\n",
    ),
];

/// A run over an input.
#[derive(Clone, Copy)]
struct Job<'a> {
    word: &'a str,
    schema: &'a str,
    input: &'a [u8],
    /// Where its parts end: before the first, and after each.
    ends: &'a [usize],
    /// How many parts are not counted by an end.
    uncounted: usize,
}

impl Job<'_> {
    /// Where the part before a place ends.
    fn end_of(&self, place: usize) -> usize {
        self.ends.get(place).copied().unwrap_or(0)
    }

    /// How many parts an end counts.
    fn count_parts(&self, parts: usize) -> u64 {
        parts.saturating_sub(self.uncounted) as u64
    }

    /// Whether so many bytes end with an LF, or are none.
    fn is_cut_at(&self, end: usize) -> bool {
        match end.checked_sub(1) {
            Some(last) => self.input.get(last) == Some(&b'\n'),
            None => true,
        }
    }

    /// Of reads of one byte, the first after so many parts, and the first by which one more part is done: by an LF, or
    /// by the end.
    fn reads_behind(&self, parts: usize) -> (usize, usize) {
        let all = self.input.len().saturating_add(1);
        let first = self.end_of(parts);
        let next = self
            .ends
            .get(parts.saturating_add(1))
            .copied()
            .unwrap_or(all);
        match (self.is_cut_at(first), self.is_cut_at(next)) {
            (true, true) => (first, next),
            (true, false) => (first, all),
            _ => (all, all),
        }
    }

    /// What the run over the first so many parts leaves.
    fn after(&self, alloc: Global, parts: usize) -> Result<KeptRun, Memory> {
        let front = self.input.get(..self.end_of(parts)).unwrap_or(b"");
        run_stored(
            alloc,
            self.word,
            without_facts(self.schema),
            0,
            front,
            &WHOLE,
        )
    }

    /// How many bytes it writes, and how many batches it keeps.
    fn sizes_after(&self, alloc: Global, parts: usize) -> Result<(usize, usize), Memory> {
        let after = self.after(alloc, parts)?;
        let sizes = (after.ran.sink.bytes().len(), after.keeper.journal().len());
        drop(after);
        Ok(sizes)
    }

    /// Whether the run over all, in which one call fails, ends so, has written so much of this, and keeps what that run leaves.
    fn stops_so(
        &self,
        alloc: Global,
        keep_fails: u64,
        outside: &Outside,
        end: Ending,
        written: usize,
        after: &KeptRun,
    ) -> Result<bool, Memory> {
        let content = without_facts(self.schema);
        let kept = run_stored(alloc, self.word, content, keep_fails, self.input, outside)?;
        let is_right = kept.ran.end == end
            && Some(kept.ran.sink.bytes()) == after.ran.sink.bytes().get(..written)
            && kept.keeper.journal().len() == after.keeper.journal().len()
            && are_same(kept.keeper.content(), after.keeper.content());
        drop(kept);
        Ok(is_right)
    }

    /// Whether each read after so many parts, by which no other is done, ends the run where it fails.
    fn stops_at_reads(&self, alloc: Global, parts: usize, after: &KeptRun) -> Result<bool, Memory> {
        let end = Ending::ReadFault {
            done: self.count_parts(parts),
        };
        let written = after.ran.sink.bytes().len();
        let (first, next) = self.reads_behind(parts);
        for taken in first..next {
            let outside = Outside {
                read_step: 1,
                read_fails: (taken as u64).saturating_add(1),
                ..WHOLE
            };
            if !self.stops_so(alloc, 0, &outside, end, written, after)? {
                return Ok(false);
            }
        }
        Ok(true)
    }

    /// Whether each write of a byte of the last part's text ends the run where it fails.
    fn stops_at_writes(
        &self,
        alloc: Global,
        parts: usize,
        after: &KeptRun,
    ) -> Result<bool, Memory> {
        let end = Ending::WriteFault {
            done: self.count_parts(parts),
        };
        let before = match parts.checked_sub(1) {
            Some(earlier) => self.sizes_after(alloc, earlier)?.0,
            None => 0,
        };
        for taken in before..after.ran.sink.bytes().len() {
            let outside = Outside {
                write_step: 1,
                write_fails: (taken as u64).saturating_add(1),
                ..WHOLE
            };
            if !self.stops_so(alloc, 0, &outside, end, taken, after)? {
                return Ok(false);
            }
        }
        Ok(true)
    }

    /// Whether the commit of the next part, if it has one, ends the run where it fails.
    fn stops_at_commit(
        &self,
        alloc: Global,
        parts: usize,
        after: &KeptRun,
    ) -> Result<bool, Memory> {
        let next = parts.saturating_add(1);
        let kept = after.keeper.journal().len();
        if next >= self.ends.len() || self.sizes_after(alloc, next)?.1 == kept {
            return Ok(true);
        }
        let end = Ending::KeepFault {
            done: self.count_parts(parts),
        };
        // The load is the first call.
        let call = (kept as u64).saturating_add(2);
        let written = after.ran.sink.bytes().len();
        self.stops_so(alloc, call, &WHOLE, end, written, after)
    }

    /// Whether each call that fails once so many parts are done, and before the next is, ends the run as it should.
    fn stops_behind(&self, alloc: Global, parts: usize) -> Result<bool, Memory> {
        let after = self.after(alloc, parts)?;
        let stops = self.stops_at_reads(alloc, parts, &after)?
            && self.stops_at_writes(alloc, parts, &after)?
            && self.stops_at_commit(alloc, parts, &after)?;
        drop(after);
        Ok(stops)
    }

    /// Whether the load ends it where it fails, before anything is written.
    fn stops_at_load(&self, alloc: Global) -> Result<bool, Memory> {
        let after = self.after(alloc, 0)?;
        let stops = self.stops_so(alloc, 1, &WHOLE, Ending::KeepFault { done: 0 }, 0, &after);
        drop(after);
        stops
    }

    fn stops_at_each(&self, alloc: Global) -> Result<bool, Memory> {
        for parts in 0..self.ends.len() {
            if !self.stops_behind(alloc, parts)? {
                return Ok(false);
            }
        }
        self.stops_at_load(alloc)
    }
}

/// The lines of rows, one after the other, and where each ends.
fn lines_of(alloc: Global, rows: &[Row]) -> Result<(String, Vec<usize>), AllocError> {
    let mut lines = String::new(alloc);
    let mut ends = Vec::from_slice(alloc, &[0])?;
    for row in rows {
        lines.push_str(row.0)?;
        ends.push(lines.len())?;
    }
    Ok((lines, ends))
}

/// Their replies.
fn replies_of(alloc: Global, rows: &[Row]) -> Result<String, AllocError> {
    let mut replies = String::new(alloc);
    for row in rows {
        replies.push_str(row.1)?;
    }
    Ok(replies)
}

/// How many replies begin with a word.
fn count_of(rows: &[Row], word: &str) -> usize {
    rows.iter()
        .filter(|row| row.1.as_bytes().starts_with(word.as_bytes()))
        .count()
}

/// Whether a run over these lines replies as they say, and commits a batch for each `ok`.
fn replies_so(alloc: Global, rows: &[Row]) -> Result<bool, Memory> {
    let (lines, _) = lines_of(alloc, rows)?;
    let replies = replies_of(alloc, rows)?;
    let content = without_facts(SCHEMA);
    let kept = run_stored(alloc, "run", content, 0, lines.as_bytes(), &WHOLE)?;
    let refused = count_of(rows, "error") as u64;
    let is_right = kept.ran.is(Ending::Finished { refused }, &replies)
        && kept.keeper.journal().len() == count_of(rows, "ok");
    drop(kept);
    Ok(is_right)
}

fn reply_so(alloc: Global, rows: &[Row]) -> bool {
    for done in 0..=rows.len() {
        if let Some(front) = rows.get(..done)
            && replies_so(alloc, front) != Ok(true)
        {
            return false;
        }
    }
    true
}

#[test]
fn lines_of_every_kind(rt: HostRuntime) {
    assert!(rt; reply_so(rt.alloc(), &ROWS));
}

/// Whether each call of a run of a word over these lines ends it where it fails.
fn stops_at_each(alloc: Global, word: &str, rows: &[Row]) -> Result<bool, Memory> {
    let (lines, ends) = lines_of(alloc, rows)?;
    let job = Job {
        word,
        schema: SCHEMA,
        input: lines.as_bytes(),
        ends: &ends,
        uncounted: 0,
    };
    job.stops_at_each(alloc)
}

#[test]
fn each_call_of_a_script_fails_in_turn(rt: HostRuntime) {
    assert!(rt; stops_at_each(rt.alloc(), "run", &ROWS) == Ok(true));
}

#[test]
fn each_call_of_a_leader_fails_in_turn(rt: HostRuntime) {
    assert!(rt; stops_at_each(rt.alloc(), "lead", &ROWS) == Ok(true));
}

/// Where the base and the batches of a feed end.
fn parts_of(alloc: Global, feed: &[u8]) -> Result<Vec<usize>, AllocError> {
    let mut ends = Vec::from_slice(alloc, &[0])?;
    let mut end = 0usize;
    for line in feed.split(|byte| *byte == b'\n') {
        end = end.saturating_add(line.len()).saturating_add(1);
        if line == b"based".as_slice() || line == b"done".as_slice() {
            ends.push(end)?;
        }
    }
    Ok(ends)
}

/// Whether a store that follows this feed holds what its leader does, and each call of the follower ends it where it fails.
fn follows_each(alloc: Global, led: &KeptRun) -> Result<bool, Memory> {
    let feed = led.ran.sink.bytes();
    let ends = parts_of(alloc, feed)?;
    let job = Job {
        word: "follow",
        schema: "",
        input: feed,
        ends: &ends,
        uncounted: 1,
    };
    let last = ends.len().saturating_sub(1);
    let after = job.after(alloc, last)?;
    let is_led = job.end_of(last) == feed.len()
        && after.ran.end == Ending::Finished { refused: 0 }
        && after.keeper.journal().len() == last
        && are_same(after.keeper.content(), led.keeper.content());
    drop(after);
    Ok(is_led && job.stops_at_each(alloc)?)
}

fn follows_leader(alloc: Global, rows: &[Row]) -> Result<bool, Memory> {
    let (lines, _) = lines_of(alloc, rows)?;
    let content = without_facts(SCHEMA);
    let led = run_stored(alloc, "lead", content, 0, lines.as_bytes(), &WHOLE)?;
    let follows = follows_each(alloc, &led);
    drop(led);
    follows
}

#[test]
fn each_call_of_a_follower_fails_in_turn(rt: HostRuntime) {
    assert!(rt; follows_leader(rt.alloc(), &ROWS) == Ok(true));
}
