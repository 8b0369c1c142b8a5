//! Batches that are committed to files, and what SQL and other keepers find there then.
ghost use Rattle.std.specs.Prelude.{IsTrue};

use crate::contents::{BEYOND_SQL, BOTH, Case, FIRST, NOTHING, SECOND, batch_of, is_of};
use crate::sql::are_found;
use cube_base::Memory;
use fact_keeper::Keeper;
use sqlite_keeper::SqlKeeper;

/// A batch, and whether it is kept.
type Step = (&'static Case, bool);

/// The path of a file, what it holds, batches that one keeper commits, and what it holds then.
type Row = (&'static str, &'static Case, &'static [Step], &'static Case);

/// Batches of which those are refused as a whole that a table cannot hold; and two, each by a keeper of its own. The folder is empty
/// at first.
const ROWS: [Row; 7] = [
    ("kept1.db", &NOTHING, &[(&BEYOND_SQL, false)], &NOTHING),
    (
        "kept2.db",
        &NOTHING,
        &[(&BEYOND_SQL, false), (&FIRST, true)],
        &FIRST,
    ),
    (
        "kept3.db",
        &NOTHING,
        &[(&BEYOND_SQL, false), (&FIRST, true), (&BEYOND_SQL, false)],
        &FIRST,
    ),
    (
        "kept4.db",
        &NOTHING,
        &[
            (&BEYOND_SQL, false),
            (&FIRST, true),
            (&BEYOND_SQL, false),
            (&SECOND, true),
        ],
        &BOTH,
    ),
    (
        "kept5.db",
        &NOTHING,
        &[
            (&BEYOND_SQL, false),
            (&FIRST, true),
            (&BEYOND_SQL, false),
            (&SECOND, true),
            (&BEYOND_SQL, false),
        ],
        &BOTH,
    ),
    ("kept6.db", &NOTHING, &[(&FIRST, true)], &FIRST),
    ("kept6.db", &FIRST, &[(&SECOND, true)], &BOTH),
];

/// Whether each batch is kept or refused as its step says.
fn are_kept_so(rt: &HostRuntime, keeper: &mut SqlKeeper<'_>, steps: &[Step]) -> Result<bool, Memory>
    requires { IsTrue keeper.old.is_open }
{
    for (case, is_kept) in steps {
        let batch = batch_of(rt.alloc(), case)?;
        if keeper.commit(&batch).is_ok() != *is_kept {
            return Ok(false);
        }
    }
    Ok(true)
}

/// Whether a keeper loads the content of a case from a file, and so commits the batches of the steps.
fn loads_and_keeps(
    rt: &HostRuntime,
    keeper: &mut SqlKeeper<'_>,
    path: &str,
    case: &Case,
    steps: &[Step],
) -> Result<bool, Memory> {
    match keeper.load(rt.alloc(), path) {
        Ok(content) => {
            let is_held = is_of(&content, case);
            drop(content);
            Ok(is_held && are_kept_so(rt, keeper, steps)?)
        }
        Err(_) => Ok(false),
    }
}

/// Whether a file has the content of a case. The batches of the steps are then committed to it, as they say.
fn holds_and_keeps(
    rt: &HostRuntime,
    path: &str,
    case: &Case,
    steps: &[Step],
) -> Result<bool, Memory> {
    let mut keeper = SqlKeeper::new(rt);
    let kept = loads_and_keeps(rt, &mut keeper, path, case, steps);
    drop(keeper);
    kept
}

/// Whether a file has its content before and after the batches, each for a keeper of its own.
fn is_row(rt: &HostRuntime, row: &Row) -> Result<bool, Memory> {
    let (path, before, steps, after) = *row;
    Ok(holds_and_keeps(rt, path, before, steps)? && holds_and_keeps(rt, path, after, &[])?)
}

/// Whether each file has what its rows say.
fn are_rows(rt: &HostRuntime, rows: &[Row]) -> Result<bool, Memory> {
    for row in rows {
        if !is_row(rt, row)? {
            return Ok(false);
        }
    }
    Ok(true)
}

/// What SQL finds in the tables of the file of the fifth row, once its batches are committed.
const FOUND: [&str; 5] = [
    "SELECT count(*) = 1 FROM cube WHERE k = 1 AND body = x'6364'",
    "SELECT count(*) = 3 FROM fact",
    "SELECT count(*) = 1 FROM fact WHERE id = 1 AND nodes = x'00000002' AND cols = x'0000000000000258'",
    "SELECT count(*) = 1 FROM fact WHERE id = 4 AND nodes = x'00000003fffffffe' AND cols = x'ffffffffffffffff8000000000000000'",
    "SELECT count(*) = 1 FROM alloc WHERE id = 4 AND den = 9223372036854775807 AND body = x'00000000000000010000000000000002ffffffffffffffff0000010000000000'",
];

#[test]
fn batches_are_kept_whole_or_not_at_all(rt: HostRuntime) {
    assert!(rt; are_rows(&rt, &ROWS) == Ok(true));
    assert!(rt; are_found(&rt, "kept5.db", &FOUND));
}
