//! Faults of the outside.
use crate::runs::{ALL, Ending, Outside, REPAIRS, WHOLE, join_texts, run};
use std::alloc::{AllocError, Global};

/// Lines of every kind.
const SCRIPT: &str =
    "insert\t1\tAustin\tCamry\t100\ninsert\t2\tTX\tCamry\t600\n# a fact in Dallas\ninsert\t3\tDallas\tCamry\t50\n\ninsert\t3\tDallas\tCamry\t50\nchange\t3\tHouston\tCamry\t50\nrows\t2\nterms\tTX\tAll\nwithdraw\t1\ntotal\nrows\t2\n";

/// Their replies.
const REPLIES: &str =
    "ok\t1\nok\t1\nok\t2\nerror\texists\nok\t2\nrows\t2\t2\tAustin\tCamry\t1\tHouston\tCamry\t1\nterms\t2\t1\t2\t150\t2\t2\t1200\nok\t1\nerror\tcommand\nrows\t1\t1\tHouston\tCamry\t1\n";

/// How many bytes of the replies there are once so many lines are done.
const REPLIED: [usize; 13] = [0, 5, 10, 10, 15, 15, 28, 33, 73, 98, 103, 117, 142];

/// How many bytes a read gives, and how many reads there are, of which the last finds the end.
const READS: [(usize, u64); 4] = [(1, 456), (16, 30), (100, 6), (ALL, 2)];

/// How many lines of the script end in the first so many bytes of the input.
fn lines_in(input: &[u8], taken: usize) -> usize {
    match input.get(REPAIRS.len()..taken.min(input.len())) {
        Some(script) => script.iter().filter(|byte| **byte == b'\n').count(),
        None => 0,
    }
}

/// Whether a read that fails after so many bytes ends the run after the lines that came whole, which are answered.
fn stops_behind(
    alloc: Global,
    input: &[u8],
    taken: usize,
    outside: &Outside,
) -> Result<bool, AllocError> {
    let done = lines_in(input, taken);
    let ran = run(alloc, &["try"], input, outside)?;
    let Some(replied) = REPLIED.get(done) else {
        return Ok(false);
    };
    let Some(replies) = REPLIES.get(..*replied) else {
        return Ok(false);
    };
    Ok(ran.is(Ending::ReadFault { done: done as u64 }, replies))
}

/// Whether it is so at each read, and one after the end is not made.
fn fails_at_each(alloc: Global, row: &(usize, u64)) -> Result<bool, AllocError> {
    let (read_step, reads) = *row;
    let input = join_texts(alloc, REPAIRS, SCRIPT)?;
    let mut taken: usize = 0;
    for call in 1..=reads {
        let outside = Outside {
            read_step,
            read_fails: call,
            ..WHOLE
        };
        if !stops_behind(alloc, input.as_bytes(), taken, &outside)? {
            return Ok(false);
        }
        taken = taken.saturating_add(read_step);
    }
    let outside = Outside {
        read_step,
        read_fails: reads.saturating_add(1),
        ..WHOLE
    };
    let ran = run(alloc, &["try"], input.as_bytes(), &outside)?;
    Ok(ran.is(Ending::Finished { refused: 2 }, REPLIES))
}

fn fail_at_each(alloc: Global, rows: &[(usize, u64)]) -> bool {
    rows.iter().all(|row| fails_at_each(alloc, row) == Ok(true))
}

#[test]
fn failing_reads(rt: HostRuntime) {
    assert!(rt; fail_at_each(rt.alloc(), &READS));
}

/// The write of five bytes that fails, how many bytes were taken before it, and the line whose reply is not whole.
const WRITES: [(u64, usize, u64); 29] = [
    (1, 0, 1),
    (2, 5, 2),
    (3, 10, 4),
    (4, 15, 6),
    (5, 20, 6),
    (6, 25, 6),
    (7, 30, 7),
    (8, 35, 8),
    (9, 40, 8),
    (10, 45, 8),
    (11, 50, 8),
    (12, 55, 8),
    (13, 60, 8),
    (14, 65, 8),
    (15, 70, 8),
    (16, 75, 9),
    (17, 80, 9),
    (18, 85, 9),
    (19, 90, 9),
    (20, 95, 9),
    (21, 100, 10),
    (22, 105, 11),
    (23, 110, 11),
    (24, 115, 11),
    (25, 120, 12),
    (26, 125, 12),
    (27, 130, 12),
    (28, 135, 12),
    (29, 140, 12),
];

/// Whether a write that fails ends the run at its line.
fn breaks_at(alloc: Global, row: &(u64, usize, u64)) -> Result<bool, AllocError> {
    let (write_fails, taken, done) = *row;
    let input = join_texts(alloc, REPAIRS, SCRIPT)?;
    let outside = Outside {
        write_step: 5,
        write_fails,
        ..WHOLE
    };
    let ran = run(alloc, &["try"], input.as_bytes(), &outside)?;
    let Some(front) = REPLIES.get(..taken) else {
        return Ok(false);
    };
    Ok(ran.is(Ending::WriteFault { done }, front))
}

fn are_broken(alloc: Global, rows: &[(u64, usize, u64)]) -> bool {
    rows.iter().all(|row| breaks_at(alloc, row) == Ok(true))
}

#[test]
fn failing_writes(rt: HostRuntime) {
    assert!(rt; are_broken(rt.alloc(), &WRITES));
}
