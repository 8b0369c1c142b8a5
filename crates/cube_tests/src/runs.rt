//! Runs over a source and a sink in memory.
use cube_base::{Bytes, Code, Ids, MemSink, MemSource};
use cube_cli::{End, cube};
use fact_keeper::{MemKeeper, Stored};
use std::alloc::{AllocError, Global};

/// Places and autos with the number measure Repair, the policy of counts, and a view of states by kinds of autos.
pub const REPAIRS: &str =
    "cube\t1\npolicy\tcount\nnumber\tRepair\ndimension\tPlace\nnode\t0\tAll\nnode\t1\tTX\nnode\t2\tAustin\nnode\t2\tDallas\nnode\t2\tHouston\nnode\t1\tCA\nnode\t2\tLA\nnode\t2\tSF\ndimension\tAuto\nnode\t0\tAll\nnode\t1\tSedan\nnode\t2\tCamry\nnode\t2\tCivic\nnode\t1\tTruck\nnode\t2\tF150\nnode\t2\tSierra\nview\tstate\t1\t1\nend\n";

/// More bytes than any call here moves.
pub const ALL: usize = 1 << 30;

/// How many bytes a read and a write move at most, and the numbers of those that fail.
#[derive(Clone, Copy)]
pub struct Outside {
    pub read_step: usize,
    pub read_fails: u64,
    pub write_step: usize,
    pub write_fails: u64,
}

/// All in one read and one write, without a fault.
pub const WHOLE: Outside = Outside {
    read_step: ALL,
    read_fails: 0,
    write_step: ALL,
    write_fails: 0,
};

/// How a run may end, without what is found in a store that is not sound.
#[derive(Clone, Copy, PartialEq, Eq)]
pub enum Ending {
    Finished { refused: u64 },
    Usage,
    Schema { line: u64, code: Code },
    NoCube,
    HasCube,
    BadStore,
    ReadFault { done: u64 },
    WriteFault { done: u64 },
    KeepFault { done: u64 },
    Memory { done: u64 },
    TooLong { done: u64 },
    BadRecord { index: u64, code: Code },
    ImportRows { would: u64 },
    BadFeed { line: u64, code: Code },
    Order { want: u64, got: u64 },
    Base { place: Option<u64> },
    Differs { number: u64, line: u64 },
}

/// How a run ends that ends so.
fn ending_of(end: &End) -> Ending {
    match end {
        End::Finished { refused } => Ending::Finished { refused: *refused },
        End::Usage => Ending::Usage,
        End::Schema { line, code } => Ending::Schema {
            line: *line,
            code: *code,
        },
        End::NoCube => Ending::NoCube,
        End::HasCube => Ending::HasCube,
        End::BadStore(_) => Ending::BadStore,
        End::ReadFault { done } => Ending::ReadFault { done: *done },
        End::WriteFault { done } => Ending::WriteFault { done: *done },
        End::KeepFault { done } => Ending::KeepFault { done: *done },
        End::Memory { done } => Ending::Memory { done: *done },
        End::TooLong { done } => Ending::TooLong { done: *done },
        End::BadRecord(bad) => Ending::BadRecord {
            index: bad.index,
            code: bad.code,
        },
        End::ImportRows { would } => Ending::ImportRows { would: *would },
        End::BadFeed { line, code } => Ending::BadFeed {
            line: *line,
            code: *code,
        },
        End::Order { want, got } => Ending::Order {
            want: *want,
            got: *got,
        },
        End::Base { place } => Ending::Base { place: *place },
        End::Differs { number, line } => Ending::Differs {
            number: *number,
            line: *line,
        },
    }
}

/// How a run ended, what it wrote, and how many bytes of the input it left.
type Outcome = (End, MemSink, usize);

/// The same, to be compared.
#[derive(Drop)]
pub struct Ran {
    pub end: Ending,
    pub sink: MemSink,
    pub left: usize,
}

impl Ran {
    /// Whether it ended so and wrote this.
    pub fn is(&self, end: Ending, written: &str) -> bool {
        self.end == end && self.sink.bytes() == written.as_bytes()
    }
}

fn words_of(alloc: Global, words: &[&str]) -> Result<Vec<String>, AllocError> {
    words
        .iter()
        .map(|word| String::from_str(alloc, word))
        .try_collect(alloc)
}

/// A source of an input.
pub fn source_of(
    alloc: Global,
    input: &[u8],
    step: usize,
    fails: u64,
) -> Result<MemSource, AllocError> {
    let fails = Ids::from(Vec::from_slice(alloc, &[fails])?);
    let bytes = Bytes::from(Vec::from_slice(alloc, input)?);
    Ok(MemSource::new(alloc, bytes, step.max(1), fails))
}

/// Runs the words over a source and a keeper.
fn run_from(
    alloc: Global,
    words: &[&str],
    source: &mut MemSource,
    outside: &Outside,
    keeper: &mut MemKeeper,
) -> Result<Outcome, AllocError> {
    let words = words_of(alloc, words)?;
    let write_fails = Ids::from(Vec::from_slice(alloc, &[outside.write_fails])?);
    let mut sink = MemSink::new(alloc, outside.write_step.max(1), write_fails);
    let end = cube(alloc, &words, source, &mut sink, keeper);
    Ok((end, sink, source.left().len()))
}

/// The same over an input.
pub fn run_over(
    alloc: Global,
    words: &[&str],
    input: &[u8],
    outside: &Outside,
    keeper: &mut MemKeeper,
) -> Result<Outcome, AllocError> {
    let mut source = source_of(alloc, input, outside.read_step, outside.read_fails)?;
    run_from(alloc, words, &mut source, outside, keeper)
}

/// The same of what may be compared.
pub fn run_kept(
    alloc: Global,
    words: &[&str],
    input: &[u8],
    outside: &Outside,
    keeper: &mut MemKeeper,
) -> Result<Ran, AllocError> {
    let (end, sink, left) = run_over(alloc, words, input, outside, keeper)?;
    Ok(Ran {
        end: ending_of(&end),
        sink,
        left,
    })
}

/// Runs the words over an input, where nothing was kept before.
pub fn run(
    alloc: Global,
    words: &[&str],
    input: &[u8],
    outside: &Outside,
) -> Result<Ran, AllocError> {
    let mut keeper = MemKeeper::new(alloc, Stored::empty(alloc), Ids::new(alloc));
    run_kept(alloc, words, input, outside, &mut keeper)
}

/// Two texts, one after the other.
pub fn join_texts(alloc: Global, front: &str, back: &str) -> Result<String, AllocError> {
    let mut text = String::from_str(alloc, front)?;
    text.push_str(back)?;
    Ok(text)
}

/// A schema, a script after it, its replies, and how its run ends.
pub type Case = (&'static str, &'static str, &'static str, Ending);

/// Whether the run of `try` over the whole input of a case is as it says, and leaves nothing of the input.
pub fn holds(alloc: Global, case: &Case) -> Result<bool, AllocError> {
    let (schema, script, replies, end) = *case;
    let input = join_texts(alloc, schema, script)?;
    let ran = run(alloc, &["try"], input.as_bytes(), &WHOLE)?;
    Ok(ran.is(end, replies) && ran.left == 0)
}

/// Whether each case is as it says.
pub fn hold(alloc: Global, cases: &[Case]) -> bool {
    cases.iter().all(|case| holds(alloc, case) == Ok(true))
}
