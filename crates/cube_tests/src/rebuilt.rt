//! Stores whose rows are put right.
use crate::fact_tables::{FactRow, SpreadRow};
use crate::runs::{Ending, Outside, WHOLE};
use crate::stored::{
    CITIES, Content, Held, Holding, NOTHING, ROWLESS, SPREADS, content_of, facts_held, holds_just,
    run_stored, spreads_held,
};
use crate::stores::{BatchIds, has_batches};
use cube_base::Memory;
use std::alloc::Global;

/// What a store holds, the number of the keeper's call that fails and that of the write; how the run ends, what is written, the ids
/// of the batches, and the rows that are kept then.
type Rebuilt = (
    Content<'static>,
    u64,
    u64,
    Ending,
    &'static str,
    &'static [BatchIds],
    &'static [SpreadRow],
);

/// The facts and the rows that a store of the two cities holds; what is written, the ids of the batches, and the rows that are kept then.
type PutRight = (
    Held,
    &'static [SpreadRow],
    &'static str,
    &'static [BatchIds],
    Held,
);

/// Rows that are right; none; a weight, a denominator and a cell that are others; one fact's that are missing; those of an id without a
/// fact, alone and before the others; rows in another order; and those of an id twice.
const REBUILT: [PutRight; 9] = [
    (
        Held::Cities,
        &SPREADS,
        "rebuilt\t4\t5\t0\n",
        &[],
        Held::Cities,
    ),
    (
        Held::Cities,
        &[],
        "rebuilt\t4\t5\t4\n",
        &[(&[], &[], &[1, 2, 3, 4])],
        Held::Cities,
    ),
    (
        Held::Cities,
        &[
            (1, 1, &[(0, 1)]),
            (2, 1, &[(1, 1)]),
            (3, 1, &[(0, 1)]),
            (4, 3, &[(0, 1), (1, 2)]),
        ],
        "rebuilt\t4\t5\t1\n",
        &[(&[], &[], &[4])],
        Held::Cities,
    ),
    (
        Held::Cities,
        &[
            (1, 2, &[(0, 1)]),
            (2, 1, &[(0, 1)]),
            (3, 1, &[(0, 1)]),
            (4, 3, &[(0, 2), (1, 1)]),
        ],
        "rebuilt\t4\t5\t2\n",
        &[(&[], &[], &[1, 2])],
        Held::Cities,
    ),
    (
        Held::Cities,
        &[
            (1, 1, &[(0, 1)]),
            (3, 1, &[(0, 1)]),
            (4, 3, &[(0, 2), (1, 1)]),
        ],
        "rebuilt\t4\t5\t1\n",
        &[(&[], &[], &[2])],
        Held::Cities,
    ),
    (
        Held::Cities,
        &[
            (1, 1, &[(0, 1)]),
            (2, 1, &[(1, 1)]),
            (3, 1, &[(0, 1)]),
            (4, 3, &[(0, 2), (1, 1)]),
            (9, 1, &[(0, 1)]),
        ],
        "rebuilt\t4\t5\t1\n",
        &[(&[9], &[], &[])],
        Held::Cities,
    ),
    (
        Held::Nothing,
        &[(2, 1, &[(0, 1)]), (7, 1, &[])],
        "rebuilt\t0\t0\t2\n",
        &[(&[2, 7], &[], &[])],
        Held::Nothing,
    ),
    (
        Held::Cities,
        &[
            (4, 3, &[(0, 2), (1, 1)]),
            (1, 1, &[(0, 1)]),
            (2, 1, &[(1, 1)]),
            (3, 1, &[(0, 1)]),
        ],
        "rebuilt\t4\t5\t4\n",
        &[(&[], &[], &[1, 2, 3, 4])],
        Held::Cities,
    ),
    (
        Held::Cities,
        &[
            (1, 1, &[(0, 1)]),
            (2, 1, &[(1, 1)]),
            (2, 1, &[(1, 1)]),
            (3, 1, &[(0, 1)]),
            (4, 3, &[(0, 2), (1, 1)]),
        ],
        "rebuilt\t4\t5\t4\n",
        &[(&[], &[], &[1, 2, 3, 4])],
        Held::Cities,
    ),
];

/// Facts of which one is bad, whatever the rows.
const BAD_FACTS: [&[FactRow]; 2] = [&[(0, &[2], &[10])], &[(1, &[4], &[10])]];

/// The same of a run that ends otherwise.
type Refused = (
    Holding,
    u64,
    u64,
    Ending,
    &'static str,
    &'static [BatchIds],
    Held,
);

/// What is no cube, or bad in its schema; and faults at the load, the commit and the write. A reply that cannot be written leaves the rows
/// right.
const REFUSED: [Refused; 6] = [
    (NOTHING, 0, 0, Ending::NoCube, "", &[], Held::Nothing),
    (
        ("x\n", Held::Cities, Held::Nothing),
        0,
        0,
        Ending::BadStore,
        "",
        &[],
        Held::Nothing,
    ),
    (
        ROWLESS,
        1,
        0,
        Ending::KeepFault { done: 0 },
        "",
        &[],
        Held::Nothing,
    ),
    (
        ROWLESS,
        2,
        0,
        Ending::KeepFault { done: 0 },
        "",
        &[],
        Held::Nothing,
    ),
    (
        ROWLESS,
        0,
        1,
        Ending::WriteFault { done: 1 },
        "",
        &[(&[], &[], &[1, 2, 3, 4])],
        Held::Cities,
    ),
    (
        (CITIES, Held::Cities, Held::Cities),
        0,
        1,
        Ending::WriteFault { done: 0 },
        "",
        &[],
        Held::Cities,
    ),
];

/// Whether a store is rebuilt, or is not, so. Its schema and its facts stay, and the input is not taken.
fn is_rebuilt(alloc: Global, row: &Rebuilt) -> Result<bool, Memory> {
    let (content, keep_fails, write_fails, end, written, batches, rows) = *row;
    let (schema, facts, _) = content;
    let outside = Outside {
        write_fails,
        ..WHOLE
    };
    let kept = run_stored(alloc, "rebuild", content, keep_fails, b"x", &outside)?;
    let is_right = kept.ran.is(end, written)
        && kept.ran.left == 1
        && has_batches(&kept.keeper, batches)
        && kept.keeper.content().schema.as_slice() == schema.as_bytes()
        && holds_just(kept.keeper.content(), facts, rows);
    drop(kept);
    Ok(is_right)
}

/// Whether the rows of a store are put right so.
fn is_put_right(alloc: Global, row: &PutRight) -> Result<bool, Memory> {
    let (facts, before, written, batches, after) = *row;
    let content = (CITIES, facts_held(facts), before);
    let end = Ending::Finished { refused: 0 };
    let rows = spreads_held(after);
    is_rebuilt(alloc, &(content, 0, 0, end, written, batches, rows))
}

fn are_put_right(alloc: Global, rows: &[PutRight]) -> bool {
    for row in rows {
        if is_put_right(alloc, row) != Ok(true) {
            return false;
        }
    }
    true
}

/// Whether it ends otherwise so.
fn is_refused(alloc: Global, row: &Refused) -> Result<bool, Memory> {
    let (holding, keep_fails, write_fails, end, written, batches, after) = *row;
    let (content, rows) = (content_of(holding), spreads_held(after));
    is_rebuilt(
        alloc,
        &(
            content,
            keep_fails,
            write_fails,
            end,
            written,
            batches,
            rows,
        ),
    )
}

fn are_refused(alloc: Global, rows: &[Refused]) -> bool {
    for row in rows {
        if is_refused(alloc, row) != Ok(true) {
            return false;
        }
    }
    true
}

/// Whether a store of such facts stays as it is.
fn are_bad(alloc: Global, facts: &'static [FactRow]) -> Result<bool, Memory> {
    let content = (CITIES, facts, spreads_held(Held::Nothing));
    is_rebuilt(alloc, &(content, 0, 0, Ending::BadStore, "", &[], &[]))
}

fn are_all_bad(alloc: Global, lists: &[&'static [FactRow]]) -> bool {
    for facts in lists {
        if are_bad(alloc, facts) != Ok(true) {
            return false;
        }
    }
    true
}

#[test]
fn rows_are_put_right(rt: HostRuntime) {
    assert!(rt; are_put_right(rt.alloc(), &REBUILT));
}

#[test]
fn rebuilding_is_refused(rt: HostRuntime) {
    assert!(rt; are_refused(rt.alloc(), &REFUSED));
}

#[test]
fn bad_facts_stay(rt: HostRuntime) {
    assert!(rt; are_all_bad(rt.alloc(), &BAD_FACTS));
}
