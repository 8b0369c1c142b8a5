//! How a run of the program ends.
ghost use Rattle.std.specs.Prelude.{◌≡◌, ◌≤◌, ◌↔◌, IfSome, IsSome};
ghost use Rattle.cube_cli.specs.Status.{status_of};

use cube_base::Code;
use cube_core::Finding;
use fact_records::BadRecord;
use std::fmt;

/// The last status of a run that was done to its end.
const LAST_DONE: u8 = 1;

/// How a run ended. A run that stops has written a part of the replies to the first `done` script lines, with all but
/// the last of them whole. For `lead` it is the base of the feed and the batches of these lines, and for `follow` the
/// lines that report the first `done` batches. For a command without a script or a feed, `done` is 1 where a batch was
/// committed to the store, and else 0.
#[derive(Debug, Drop)]
pub enum End {
    /// The input was read to its end, and this many of its lines were answered `error`.
    Finished { refused: u64 },
    /// The words of the command line are none that the program knows.
    Usage,
    /// The schema is refused: its first faulty line, counted from 1, and why.
    Schema { line: u64, code: Code },
    /// There is no store of the name.
    NoCube,
    /// There is a store of the name.
    HasCube,
    /// What the store holds is not sound: what is found first in it.
    BadStore(Finding),
    /// Reading failed when `done` lines of a script had come whole. They are done, and their replies are written.
    ReadFault { done: u64 },
    /// Writing failed. The reply to line `done`, counted from 1, is not whole; lines after it may have been done.
    WriteFault { done: u64 },
    /// The store failed when `done` lines were done, and their replies are written: at the edit or growth after them,
    /// before anything was read, or when the program looked for the store once more after all input.
    KeepFault { done: u64 },
    /// An allocation was refused. Lines after the first `done` may have been done.
    Memory { done: u64 },
    /// The input has more than 2^30 bytes. The `done` lines of a script that had come whole within these are done, and their replies are
    /// written.
    TooLong { done: u64 },
    /// The file to be imported is refused: the first record that is, and why. Nothing of it is kept.
    BadRecord(BadRecord),
    /// No record of the file to be imported is refused, but with its facts there would be more than 2^21 rows: so many.
    ImportRows { would: u64 },
    /// The feed breaks its form: the first line that does, counted from 1, and why. The batches before it are applied.
    BadFeed { line: u64, code: Code },
    /// A batch of the feed comes out of turn: the number that is next, and its own. The batches before it are applied.
    Order { want: u64, got: u64 },
    /// The feed begins at another content than the one that the store holds: the place of the first fact that differs, or none where the
    /// schema does. Nothing is kept.
    Base { place: Option<u64> },
    /// The lines of a batch of the feed are not those that its edit results in here: the number of the batch, and the
    /// first such line, counted from 1. The batches before it are applied.
    Differs { number: u64, line: u64 },
}

impl End {
    /// The exit status of the program: 0 where no line was refused, 1 where some were, and one from 2 on for
    /// each other end.
    pub fn status(&self) -> u8
        ensures { result ≡ status_of self.now }
    {
        match self {
            End::Finished { refused: 0 } => 0,
            End::Finished { refused: _ } => 1,
            End::Usage => 2,
            End::Schema { line: _, code: _ } => 3,
            End::NoCube | End::HasCube => 4,
            End::BadStore(_) => 5,
            End::ReadFault { done: _ } => 6,
            End::WriteFault { done: _ } => 7,
            End::KeepFault { done: _ } => 8,
            End::Memory { done: _ } => 9,
            End::TooLong { done: _ } => 10,
            End::BadRecord(_) => 11,
            End::ImportRows { would: _ } => 12,
            End::BadFeed { line: _, code: _ } => 13,
            End::Order { want: _, got: _ } => 14,
            End::Base { place: _ } => 15,
            End::Differs { number: _, line: _ } => 16,
        }
    }

    /// What the program reports of the end: its exit status, and the line that it writes on standard error, which is
    /// there exactly where the status is 2 or more.
    pub fn report(self) -> (u8, Option<ErrorLine>)
        ensures status { result.0 ≡ status_of self }
        ensures there { IsSome result.1 ↔ (2 ≤ status_of self) }
        ensures line { IfSome result.1 (λ line. line ≡ record { 0 = self }) }
    {
        let status = self.status();
        if status > LAST_DONE {
            (status, Some(ErrorLine(self)))
        } else {
            (status, None)
        }
    }
}

/// The line on standard error that reports an end.
#[derive(Debug, Drop)]
pub struct ErrorLine(End);

impl fmt::Display for ErrorLine {
    fn fmt<W: fmt::Write>(&self, f: &mut fmt::Formatter<W>) -> fmt::Result {
        write!(f, "cube: {}", self.0)
    }
}

/// What the program says of the end on standard error.
impl fmt::Display for End {
    fn fmt<W: fmt::Write>(&self, f: &mut fmt::Formatter<W>) -> fmt::Result {
        match self {
            End::Finished { refused } => write!(f, "finished, {refused} lines refused"),
            End::Usage => f.write_str(
                "usage: cube try, init NAME, run NAME, check NAME, import NAME, export NAME, drill N, lead NAME, follow NAME, ask NAME WORD.., schema NAME, rows NAME, rebuild NAME",
            ),
            End::Schema { line, code } => {
                let word = code.word();
                write!(f, "schema line {line}: {word}")
            }
            End::NoCube => f.write_str("no cube"),
            End::HasCube => f.write_str("cube exists"),
            End::BadStore(finding) => {
                f.write_str("bad store: ")?;
                say_finding(finding, f)
            }
            End::ReadFault { done } => write!(f, "read fault after line {done}"),
            End::WriteFault { done } => write!(f, "write fault after line {done}"),
            End::KeepFault { done } => write!(f, "store fault after line {done}"),
            End::Memory { done } => write!(f, "out of memory after line {done}"),
            End::TooLong { done } => write!(f, "input too long after line {done}"),
            End::BadRecord(BadRecord { index, code }) => {
                let word = code.word();
                write!(f, "record {index}: {word}")
            }
            End::ImportRows { would } => write!(f, "import would make {would} rows"),
            End::BadFeed { line, code } => say_feed_line(*line, *code, f),
            End::Order { want, got } => say_order(*want, *got, f),
            End::Base { place: _ } => f.write_str("base differs"),
            End::Differs { number, line } => say_difference(*number, *line, f),
        }
    }
}

/// What the program says of a line of a feed that breaks its form.
fn say_feed_line<W: fmt::Write>(line: u64, code: Code, f: &mut fmt::Formatter<W>) -> fmt::Result {
    let word = code.word();
    write!(f, "feed line {line}: {word}")
}

/// What it says of a batch of one that comes out of turn.
fn say_order<W: fmt::Write>(want: u64, got: u64, f: &mut fmt::Formatter<W>) -> fmt::Result {
    write!(f, "batch {got} where {want} is next")
}

/// What it says of a batch whose line is another than its edit results in.
fn say_difference<W: fmt::Write>(number: u64, line: u64, f: &mut fmt::Formatter<W>) -> fmt::Result {
    write!(f, "batch {number} differs at line {line}")
}

/// What the program says of what is found in a store.
fn say_finding<W: fmt::Write>(finding: &Finding, f: &mut fmt::Formatter<W>) -> fmt::Result {
    match finding {
        Finding::Schema { line, code } => {
            let word = code.word();
            write!(f, "schema line {line}: {word}")
        }
        Finding::Fact { place, id, code } => {
            let word = code.word();
            write!(f, "fact {id} at place {place}: {word}")
        }
        Finding::TooManyRows { would } => write!(f, "{would} rows"),
        Finding::Rows { place, .. } => write!(f, "rows differ at place {place}"),
    }
}
