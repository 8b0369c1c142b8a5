//! Lines that are asked of a store, one a run.
use crate::runs::{Ending, Outside, WHOLE};
use crate::store_faults::has_kept;
use crate::stored::{CITIES, Held, Holding, NOTHING, ROWLESS, content_of, run_words};
use cube_base::Memory;
use std::alloc::Global;

/// An input, which is not taken.
const INPUT: &str = "insert\t9\tAustin\t10\n";

/// Four facts in two cities.
const FULL: Holding = (CITIES, Held::Cities, Held::Cities);

/// The words, what the store holds, the number of the keeper's call that fails and that of the write; how the run ends, what is written, how
/// many batches are kept, and the ids of the facts that the store then has.
type Asked = (
    &'static [&'static str],
    Holding,
    u64,
    u64,
    Ending,
    &'static str,
    usize,
    &'static [u64],
);

const DONE: Ending = Ending::Finished { refused: 0 };

const REFUSED: Ending = Ending::Finished { refused: 1 };

/// Questions, edits, a growth, a line that is skipped, and words that hold a TAB, a CR at the end, or an LF.
const LINES: [Asked; 11] = [
    (
        &["ask", "s", "rows", "4"],
        FULL,
        0,
        0,
        DONE,
        "rows\t3\t2\tAustin\t2\tDallas\t1\n",
        0,
        &[1, 2, 3, 4],
    ),
    (
        &["ask", "s", "rows\t4"],
        FULL,
        0,
        0,
        DONE,
        "rows\t3\t2\tAustin\t2\tDallas\t1\n",
        0,
        &[1, 2, 3, 4],
    ),
    (
        &["ask", "s", "rows", "4\r"],
        FULL,
        0,
        0,
        DONE,
        "rows\t3\t2\tAustin\t2\tDallas\t1\n",
        0,
        &[1, 2, 3, 4],
    ),
    (
        &["ask", "s", "insert", "5", "Dallas", "7"],
        FULL,
        0,
        0,
        DONE,
        "ok\t2\n",
        1,
        &[1, 2, 3, 4, 5],
    ),
    (
        &["ask", "s", "withdraw", "1"],
        FULL,
        0,
        0,
        DONE,
        "ok\t1\n",
        1,
        &[2, 3, 4],
    ),
    (
        &["ask", "s", "grow", "Place", "TX", "Waco"],
        FULL,
        0,
        0,
        DONE,
        "ok\t0\n",
        1,
        &[1, 2, 3, 4],
    ),
    (&["ask", "s", ""], FULL, 0, 0, DONE, "", 0, &[1, 2, 3, 4]),
    (
        &["ask", "s", "#rows", "4"],
        FULL,
        0,
        0,
        DONE,
        "",
        0,
        &[1, 2, 3, 4],
    ),
    (
        &["ask", "s", "rows", "4\nrows\t4"],
        FULL,
        0,
        0,
        REFUSED,
        "error\ttext\n",
        0,
        &[1, 2, 3, 4],
    ),
    (
        &["ask", "s", "rows", ""],
        FULL,
        0,
        0,
        REFUSED,
        "error\tid\n",
        0,
        &[1, 2, 3, 4],
    ),
    (
        &["ask", "s", "insert", "4", "Dallas", "7"],
        FULL,
        0,
        0,
        REFUSED,
        "error\texists\n",
        0,
        &[1, 2, 3, 4],
    ),
];

/// What is found in the store comes before what is found in the line. The load is the keeper's first call, the commit its second.
const ENDS: [Asked; 7] = [
    (
        &["ask", "s", "\n"],
        NOTHING,
        0,
        0,
        Ending::NoCube,
        "",
        0,
        &[],
    ),
    (
        &["ask", "s", "\n"],
        ROWLESS,
        0,
        0,
        Ending::BadStore,
        "",
        0,
        &[1, 2, 3, 4],
    ),
    (
        &["ask", "s", "rows", "4"],
        FULL,
        1,
        0,
        Ending::KeepFault { done: 0 },
        "",
        0,
        &[1, 2, 3, 4],
    ),
    (
        &["ask", "s", "rows", "4"],
        FULL,
        2,
        0,
        DONE,
        "rows\t3\t2\tAustin\t2\tDallas\t1\n",
        0,
        &[1, 2, 3, 4],
    ),
    (
        &["ask", "s", "insert", "5", "Dallas", "7"],
        FULL,
        2,
        0,
        Ending::KeepFault { done: 0 },
        "",
        0,
        &[1, 2, 3, 4],
    ),
    (
        &["ask", "s", "rows", "4"],
        FULL,
        0,
        1,
        Ending::WriteFault { done: 1 },
        "",
        0,
        &[1, 2, 3, 4],
    ),
    (
        &["ask", "s", "insert", "5", "Dallas", "7"],
        FULL,
        0,
        1,
        Ending::WriteFault { done: 1 },
        "",
        1,
        &[1, 2, 3, 4, 5],
    ),
];

/// Whether a line is answered so, and all of the input left.
fn is_answered(alloc: Global, row: &Asked) -> Result<bool, Memory> {
    let (words, holding, keep_fails, write_fails, end, written, batches, ids) = *row;
    let outside = Outside {
        write_fails,
        ..WHOLE
    };
    let kept = run_words(
        alloc,
        words,
        content_of(holding),
        keep_fails,
        INPUT.as_bytes(),
        &outside,
    )?;
    let is_right = kept.ran.is(end, written)
        && kept.ran.left == INPUT.len()
        && has_kept(&kept.keeper, batches, ids);
    drop(kept);
    Ok(is_right)
}

fn are_answered(alloc: Global, rows: &[Asked]) -> bool {
    for row in rows {
        if is_answered(alloc, row) != Ok(true) {
            return false;
        }
    }
    true
}

#[test]
fn lines_are_asked(rt: HostRuntime) {
    assert!(rt; are_answered(rt.alloc(), &LINES));
}

#[test]
fn ends_of_asked_lines(rt: HostRuntime) {
    assert!(rt; are_answered(rt.alloc(), &ENDS));
}
