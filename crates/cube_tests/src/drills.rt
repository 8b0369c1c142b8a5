//! Drills.
use crate::runs::{Ending, Outside, REPAIRS, Ran, WHOLE, run};
use std::alloc::{AllocError, Global};

/// The number of a drill, and its line.
type Drill = (&'static str, &'static str);

/// The first was worked out by hand; the lines of 1,000 and 10,000 by other programs than the plain model of the others.
const DRILLS: [Drill; 8] = [
    ("1", "drill\t1\t1\t13\t1\t1\t515\n"),
    ("2", "drill\t2\t2\t2\t2\t2\t1779\n"),
    ("7", "drill\t7\t5\t108\t7\t5\t2519\n"),
    ("64", "drill\t64\t43\t278\t73\t43\t19152\n"),
    ("100", "drill\t100\t67\t181\t112\t67\t35014\n"),
    ("300", "drill\t300\t200\t347\t419\t200\t100962\n"),
    ("1000", "drill\t1000\t667\t1559\t2648\t667\t323477\n"),
    (
        "10000",
        "drill\t10000\t6667\t47553\t155528\t6667\t3302976\n",
    ),
];

/// Drills a number over an input, and says whether nothing of this was read.
fn drill(alloc: Global, number: &str, outside: &Outside) -> Result<(Ran, bool), AllocError> {
    let ran = run(alloc, &["drill", number], REPAIRS.as_bytes(), outside)?;
    let unread = ran.left == REPAIRS.len();
    Ok((ran, unread))
}

/// Whether a drill writes its line, and does nothing else.
fn writes_line(alloc: Global, row: &Drill) -> Result<bool, AllocError> {
    let (number, line) = *row;
    let (ran, unread) = drill(alloc, number, &WHOLE)?;
    Ok(ran.is(Ending::Finished { refused: 0 }, line) && unread)
}

fn are_written(alloc: Global, rows: &[Drill]) -> bool {
    rows.iter().all(|row| writes_line(alloc, row) == Ok(true))
}

#[test]
fn lines_of_drills(rt: HostRuntime) {
    assert!(rt; are_written(rt.alloc(), &DRILLS));
}

/// The write of five bytes that fails, and what is taken before it.
const WRITES: [(u64, &str); 5] = [
    (1, ""),
    (2, "drill"),
    (3, "drill\t1\t1\t"),
    (4, "drill\t1\t1\t13\t1\t"),
    (5, "drill\t1\t1\t13\t1\t1\t515"),
];

/// Whether a write that fails ends the first drill with a part of its line.
fn breaks_at(alloc: Global, row: &(u64, &str)) -> Result<bool, AllocError> {
    let (write_fails, front) = *row;
    let outside = Outside {
        write_step: 5,
        write_fails,
        ..WHOLE
    };
    let (ran, unread) = drill(alloc, "1", &outside)?;
    Ok(ran.is(Ending::WriteFault { done: 0 }, front) && unread)
}

fn are_broken(alloc: Global, rows: &[(u64, &str)]) -> bool {
    rows.iter().all(|row| breaks_at(alloc, row) == Ok(true))
}

#[test]
fn failing_writes_of_a_drill(rt: HostRuntime) {
    assert!(rt; are_broken(rt.alloc(), &WRITES));
}
