//! Stores that are made, worked on and audited.
use crate::fact_tables::{FactRow, SpreadRow};
use crate::limits::large_schema;
use crate::runs::{Ending, REPAIRS, WHOLE, join_texts, run, run_kept, run_over};
use crate::stored::{
    CITIES, FACTS, REPAIR_FACTS, REPAIR_SPREADS, SPREADS, holds_just, is_spread, keeper_of,
    run_stored, without_facts,
};
use cube_base::Memory;
use cube_cli::End;
use cube_core::Finding;
use fact_keeper::{Batch, KeptRows, MemKeeper};
use std::alloc::Global;

/// The schema as it is written by hand: a comment first, lines that end with CR LF, and after its end what is skipped.
const BY_HAND: &str =
    "# two cities\r\ncube\t1\r\npolicy\tcount\r\nnumber\tHours\r\ndimension\tPlace\r\nnode\t0\tAll\r\nnode\t1\tTX\r\nnode\t2\tAustin\r\nnode\t2\tDallas\r\nend\r\n\r\n# no more\r\n";

/// Whether a batch keeps the text of a schema and nothing else.
fn keeps_schema(batch: &Batch, text: &str) -> bool {
    batch
        .schema
        .as_ref()
        .is_some_and(|kept| kept.as_slice() == text.as_bytes())
        && batch.gone.as_slice().is_empty()
        && batch.facts.as_slice().is_empty()
        && batch.rows.as_slice().is_empty()
}

/// The schema of repairs without its view, written by hand, and as it is kept.
const REPAIRS_BY_HAND: &str =
    "# repairs\r\ncube\t1\r\npolicy\tcount\r\nnumber\tRepair\r\ndimension\tPlace\r\nnode\t0\tAll\r\nnode\t1\tTX\r\nnode\t2\tAustin\r\nnode\t2\tDallas\r\nnode\t2\tHouston\r\nnode\t1\tCA\r\nnode\t2\tLA\r\nnode\t2\tSF\r\ndimension\tAuto\r\nnode\t0\tAll\r\nnode\t1\tSedan\r\nnode\t2\tCamry\r\nnode\t2\tCivic\r\nnode\t1\tTruck\r\nnode\t2\tF150\r\nnode\t2\tSierra\r\nend\r\n";

const REPAIRS_WITHOUT_VIEW: &str =
    "cube\t1\npolicy\tcount\nnumber\tRepair\ndimension\tPlace\nnode\t0\tAll\nnode\t1\tTX\nnode\t2\tAustin\nnode\t2\tDallas\nnode\t2\tHouston\nnode\t1\tCA\nnode\t2\tLA\nnode\t2\tSF\ndimension\tAuto\nnode\t0\tAll\nnode\t1\tSedan\nnode\t2\tCamry\nnode\t2\tCivic\nnode\t1\tTruck\nnode\t2\tF150\nnode\t2\tSierra\nend\n";

/// An input, and the text that is kept of it.
const MADE: [(&str, &str); 3] = [
    (BY_HAND, CITIES),
    (REPAIRS_BY_HAND, REPAIRS_WITHOUT_VIEW),
    (REPAIRS, REPAIRS),
];

/// Whether the text of a schema is kept by one batch, and answered.
fn is_made(alloc: Global, row: &(&str, &str)) -> Result<bool, Memory> {
    let (input, text) = *row;
    let kept = run_stored(
        alloc,
        "init",
        without_facts(""),
        0,
        input.as_bytes(),
        &WHOLE,
    )?;
    let has_schema = match kept.keeper.journal() {
        [batch] => keeps_schema(batch, text),
        _ => false,
    };
    let is_right = has_schema
        && kept.ran.is(Ending::Finished { refused: 0 }, "ok\t0\n")
        && kept.keeper.content().schema.as_slice() == text.as_bytes();
    drop(kept);
    Ok(is_right)
}

fn are_made(alloc: Global, rows: &[(&str, &str)]) -> bool {
    rows.iter().all(|row| is_made(alloc, row) == Ok(true))
}

#[test]
fn a_store_is_made(rt: HostRuntime) {
    assert!(rt; are_made(rt.alloc(), &MADE));
}

/// Four facts, a repeat, a question, a withdrawal by which the fourth has another allocation, and a change to an equal fact.
const SCRIPT: &str =
    "insert\t1\tAustin\t10\ninsert\t2\tDallas\t20\ninsert\t3\tAustin\t30\ninsert\t4\tTX\t40\ninsert\t4\tTX\t41\nrows\t4\nwithdraw\t3\nchange\t2\tDallas\t20\n";

const REPLIES: &str =
    "ok\t1\nok\t1\nok\t1\nok\t1\nerror\texists\nrows\t3\t2\tAustin\t2\tDallas\t1\nok\t1\nok\t0\n";

/// The ids that a batch drops, those of the facts that it puts, and those of the rows.
pub type BatchIds = (&'static [u64], &'static [u64], &'static [u64]);

/// A batch for each edit that is accepted, and for no other line.
const BATCHES: [BatchIds; 6] = [
    (&[], &[1], &[1]),
    (&[], &[2], &[2]),
    (&[], &[3], &[3]),
    (&[], &[4], &[4]),
    (&[3], &[], &[4]),
    (&[], &[2], &[]),
];

/// Whether a batch has these ids, and no schema.
fn has_ids(batch: &Batch, ids: &BatchIds) -> bool {
    let (gone, facts, rows) = *ids;
    batch.schema.is_none()
        && batch.gone.as_slice() == gone
        && batch
            .facts
            .as_slice()
            .iter()
            .map(|f| f.id)
            .eq(facts.iter().copied())
        && batch
            .rows
            .as_slice()
            .iter()
            .map(|r| r.id)
            .eq(rows.iter().copied())
}

/// Whether the batches of a keeper are these.
pub fn has_batches(keeper: &MemKeeper, batches: &[BatchIds]) -> bool {
    keeper.journal().len() == batches.len()
        && keeper
            .journal()
            .iter()
            .zip(batches)
            .all(|(batch, ids)| has_ids(batch, ids))
}

/// The repairs, and then a fact with another value.
const REPAIR_SCRIPT: &str =
    "insert\t1\tAustin\tCamry\t100\ninsert\t2\tAustin\tCamry\t300\ninsert\t3\tDallas\tCamry\t50\ninsert\t4\tTX\tCamry\t600\nrows\t4\nchange\t2\tAustin\tCamry\t301\nsum\tRepair\tAustin\tCamry\n";

const REPAIR_REPLIES: &str =
    "ok\t1\nok\t1\nok\t1\nok\t1\nrows\t3\t2\tAustin\tCamry\t2\tDallas\tCamry\t1\nok\t0\nsum\t801.000000000\t801.000000000\t801\n";

/// The last batch puts the fact, and none of its rows.
const REPAIR_BATCHES: [BatchIds; 5] = [
    (&[], &[1], &[1]),
    (&[], &[2], &[2]),
    (&[], &[3], &[3]),
    (&[], &[4], &[4]),
    (&[], &[2], &[]),
];

/// The facts that are left of the cities, with the last one's city by the only fact of each.
const LEFT: [FactRow; 3] = [(1, &[2], &[10]), (2, &[3], &[20]), (4, &[1], &[40])];

const LEFT_SPREADS: [SpreadRow; 3] = [
    (1, 1, &[(0, 1)]),
    (2, 1, &[(1, 1)]),
    (4, 2, &[(0, 1), (1, 1)]),
];

/// The repairs with the other value.
const REPAIRS_LEFT: [FactRow; 4] = [
    (1, &[2, 2], &[100]),
    (2, &[2, 2], &[301]),
    (3, &[3, 2], &[50]),
    (4, &[1, 2], &[600]),
];

/// The schema of a store without facts, a script over it, its replies and how many of its lines are refused, its batches, and the
/// facts and rows that are then kept.
type Scripted = (
    &'static str,
    &'static str,
    &'static str,
    u64,
    &'static [BatchIds],
    &'static [FactRow],
    &'static [SpreadRow],
);

const SCRIPTED: [Scripted; 2] = [
    (CITIES, SCRIPT, REPLIES, 1, &BATCHES, &LEFT, &LEFT_SPREADS),
    (
        REPAIRS,
        REPAIR_SCRIPT,
        REPAIR_REPLIES,
        0,
        &REPAIR_BATCHES,
        &REPAIRS_LEFT,
        &REPAIR_SPREADS,
    ),
];

/// Whether a script over a new store replies as one without a store, and keeps what its edits make.
fn is_run(alloc: Global, row: &Scripted) -> Result<bool, Memory> {
    let (schema, script, replies, refused, batches, facts, spreads) = *row;
    let content = without_facts(schema);
    let kept = run_stored(alloc, "run", content, 0, script.as_bytes(), &WHOLE)?;
    let is_right = kept.ran.is(Ending::Finished { refused }, replies)
        && has_batches(&kept.keeper, batches)
        && holds_just(kept.keeper.content(), facts, spreads);
    drop(kept);
    Ok(is_right)
}

fn are_run(alloc: Global, rows: &[Scripted]) -> bool {
    for row in rows {
        if is_run(alloc, row) != Ok(true) {
            return false;
        }
    }
    true
}

#[test]
fn a_script_over_a_store(rt: HostRuntime) {
    assert!(rt; are_run(rt.alloc(), &SCRIPTED));
}

/// Whether the same script is replied to so where nothing is kept.
fn is_tried(alloc: Global) -> Result<bool, Memory> {
    let input = join_texts(alloc, CITIES, SCRIPT)?;
    let ran = run(alloc, &["try"], input.as_bytes(), &WHOLE)?;
    Ok(ran.is(Ending::Finished { refused: 1 }, REPLIES))
}

/// The word, the input, how many lines are refused, what is written, and how much of the input is left.
type Call = (&'static str, &'static str, u64, &'static str, usize);

/// What the script leaves is sound, and is worked on by a later run: three facts with four rows, and the fact of id 4.
const CALLS: [Call; 5] = [
    ("run", SCRIPT, 1, REPLIES, 0),
    ("check", "x", 0, "sound\t3\t4\n", 1),
    ("schema", "x", 0, CITIES, 1),
    (
        "rows",
        "x",
        0,
        "id,Place,weight,of,Hours\n1,Austin,1,1,10\n2,Dallas,1,1,20\n4,Austin,1,2,40\n4,Dallas,1,2,40\n",
        1,
    ),
    (
        "run",
        "rows\t4\nwithdraw\t1\n",
        0,
        "rows\t2\t2\tAustin\t1\tDallas\t1\nok\t1\n",
        0,
    ),
];

/// Whether a call over a store is answered so.
fn is_answered(alloc: Global, keeper: &mut MemKeeper, call: &Call) -> Result<bool, Memory> {
    let (word, input, refused, replies, left) = *call;
    let ran = run_kept(alloc, &[word, "s"], input.as_bytes(), &WHOLE, keeper)?;
    Ok(ran.is(Ending::Finished { refused }, replies) && ran.left == left)
}

/// Whether so are calls one after another.
fn are_answered(alloc: Global, keeper: &mut MemKeeper, calls: &[Call]) -> Result<bool, Memory> {
    for call in calls {
        if !is_answered(alloc, keeper, call)? {
            return Ok(false);
        }
    }
    Ok(true)
}

/// Whether a new store is loaded again and again.
fn is_loaded_again(alloc: Global) -> Result<bool, Memory> {
    let mut keeper = keeper_of(alloc, CITIES, &[], &[], &[])?;
    let answered = are_answered(alloc, &mut keeper, &CALLS);
    drop(keeper);
    answered
}

#[test]
fn a_script_without_a_store(rt: HostRuntime) {
    assert!(rt; is_tried(rt.alloc()) == Ok(true));
}

#[test]
fn a_script_over_a_store_again(rt: HostRuntime) {
    assert!(rt; is_loaded_again(rt.alloc()) == Ok(true));
}

/// The schema, facts and rows of a store, and what is printed of it on standard error.
type Damage = (
    &'static str,
    &'static [FactRow],
    &'static [SpreadRow],
    &'static str,
);

const DAMAGES: [Damage; 14] = [
    (
        CITIES,
        &[
            (0, &[2], &[10]),
            (2, &[3], &[20]),
            (3, &[2], &[30]),
            (4, &[1], &[40]),
        ],
        &SPREADS,
        "cube: bad store: fact 0 at place 0: id",
    ),
    (
        CITIES,
        &[
            (1, &[2], &[10]),
            (2, &[3], &[20]),
            (2, &[2], &[30]),
            (4, &[1], &[40]),
        ],
        &SPREADS,
        "cube: bad store: fact 2 at place 2: id",
    ),
    (
        CITIES,
        &[(1, &[2], &[10]), (9_223_372_036_854_775_808, &[3], &[20])],
        &SPREADS,
        "cube: bad store: fact 9223372036854775808 at place 1: id",
    ),
    (
        CITIES,
        &[(1, &[2], &[10]), (2, &[4], &[20])],
        &SPREADS,
        "cube: bad store: fact 2 at place 1: node",
    ),
    (
        CITIES,
        &[(1, &[2, 2], &[])],
        &SPREADS,
        "cube: bad store: fact 1 at place 0: node",
    ),
    (
        CITIES,
        &[(1, &[2], &[1_000_000_000_001])],
        &SPREADS,
        "cube: bad store: fact 1 at place 0: value",
    ),
    (
        CITIES,
        &[(1, &[2], &[])],
        &SPREADS,
        "cube: bad store: fact 1 at place 0: value",
    ),
    // A node is judged before any rows.
    (
        CITIES,
        &[
            (1, &[2], &[10]),
            (2, &[3], &[20]),
            (3, &[2], &[30]),
            (4, &[8], &[40]),
        ],
        &[
            (2, 1, &[(1, 1)]),
            (3, 1, &[(0, 1)]),
            (4, 3, &[(0, 2), (1, 1)]),
        ],
        "cube: bad store: fact 4 at place 3: node",
    ),
    // The rows of the third fact are not there.
    (
        CITIES,
        &FACTS,
        &[
            (1, 1, &[(0, 1)]),
            (2, 1, &[(1, 1)]),
            (4, 3, &[(0, 2), (1, 1)]),
        ],
        "cube: bad store: rows differ at place 2",
    ),
    // One more has rows.
    (
        CITIES,
        &[(1, &[2], &[10])],
        &[(1, 1, &[(0, 1)]), (2, 1, &[(1, 1)])],
        "cube: bad store: rows differ at place 1",
    ),
    // The denominator is another.
    (
        CITIES,
        &FACTS,
        &[
            (1, 1, &[(0, 1)]),
            (2, 1, &[(1, 1)]),
            (3, 1, &[(0, 1)]),
            (4, 6, &[(0, 2), (1, 1)]),
        ],
        "cube: bad store: rows differ at place 3",
    ),
    // Weights and denominator are the same fractions.
    (
        CITIES,
        &FACTS,
        &[
            (1, 1, &[(0, 1)]),
            (2, 1, &[(1, 1)]),
            (3, 1, &[(0, 1)]),
            (4, 6, &[(0, 4), (1, 2)]),
        ],
        "cube: bad store: rows differ at place 3",
    ),
    ("", &FACTS, &SPREADS, "cube: bad store: schema line 1: cut"),
    (
        "cube\t1\npolicy\tcount\ndimension\tPlace\nnode\t0\tAll\nend\nx\n",
        &[],
        &[],
        "cube: bad store: schema line 6: tail",
    ),
];

/// Whether the audit of a store tells this, with the status of a bad store, and writes nothing.
fn is_told(alloc: Global, keeper: &mut MemKeeper, text: &str) -> Result<bool, Memory> {
    let (end, sink, _) = run_over(alloc, &["check", "s"], b"", &WHOLE, keeper)?;
    let (status, line) = end.report();
    let said = match line {
        Some(line) => line.to_string(alloc)?,
        None => String::new(alloc),
    };
    Ok(status == 5 && said.as_str() == text && sink.bytes().is_empty())
}

/// Whether the audit finds what is damaged so.
fn is_found(alloc: Global, row: &Damage) -> Result<bool, Memory> {
    let (schema, facts, spreads, text) = *row;
    let mut keeper = keeper_of(alloc, schema, facts, spreads, &[])?;
    let found = is_told(alloc, &mut keeper, text);
    drop(keeper);
    found
}

/// Three facts of 2^20 cells each, of which no rows are kept.
const LARGE: [FactRow; 3] = [(1, &[0, 1], &[]), (2, &[0, 1], &[]), (3, &[0, 1], &[])];

/// Whether their rows are too many.
fn are_too_many(alloc: Global) -> Result<bool, Memory> {
    let schema = large_schema(alloc)?;
    let mut keeper = keeper_of(alloc, schema.as_str(), &LARGE, &[], &[])?;
    let told = is_told(alloc, &mut keeper, "cube: bad store: 3145728 rows");
    drop(keeper);
    told
}

/// The schema of the two cities after a comment.
const REMARKED: &str =
    "# two cities\ncube\t1\npolicy\tcount\nnumber\tHours\ndimension\tPlace\nnode\t0\tAll\nnode\t1\tTX\nnode\t2\tAustin\nnode\t2\tDallas\nend\n";

/// The schema, facts and rows of a store that is sound, and what is written of it.
type Sound = (
    &'static str,
    &'static [FactRow],
    &'static [SpreadRow],
    &'static str,
);

const SOUND: [Sound; 2] = [
    (REMARKED, &FACTS, &SPREADS, "sound\t4\t5\n"),
    (REPAIRS, &REPAIR_FACTS, &REPAIR_SPREADS, "sound\t4\t5\n"),
];

/// Whether a store is sound.
fn is_sound(alloc: Global, row: &Sound) -> Result<bool, Memory> {
    let (schema, facts, spreads, line) = *row;
    let kept = run_stored(alloc, "check", (schema, facts, spreads), 0, b"", &WHOLE)?;
    let is_right = kept.ran.is(Ending::Finished { refused: 0 }, line);
    drop(kept);
    Ok(is_right)
}

fn are_sound(alloc: Global, rows: &[Sound]) -> bool {
    for row in rows {
        if is_sound(alloc, row) != Ok(true) {
            return false;
        }
    }
    true
}

#[test]
fn sound_stores(rt: HostRuntime) {
    assert!(rt; are_sound(rt.alloc(), &SOUND));
}

fn are_found(alloc: Global, rows: &[Damage]) -> bool {
    for row in rows {
        if is_found(alloc, row) != Ok(true) {
            return false;
        }
    }
    true
}

#[test]
fn findings_in_damaged_stores(rt: HostRuntime) {
    assert!(rt; are_found(rt.alloc(), &DAMAGES));
}

#[test]
fn too_many_rows_in_a_store(rt: HostRuntime) {
    assert!(rt; are_too_many(rt.alloc()) == Ok(true));
}

/// The rows of the repairs, but for the weight of the fourth in Austin.
const OTHER_WEIGHT: [SpreadRow; 4] = [
    (1, 1, &[(0, 1)]),
    (2, 1, &[(0, 1)]),
    (3, 1, &[(4, 1)]),
    (4, 3, &[(0, 3), (4, 1)]),
];

/// The schema and facts of a store, kept rows, the place where they differ from those of the facts, and what is there in each.
type Differing = (
    &'static str,
    &'static [FactRow],
    &'static [SpreadRow],
    u64,
    Option<SpreadRow>,
    Option<SpreadRow>,
);

const DIFFERING: [Differing; 4] = [
    (
        CITIES,
        &FACTS,
        &[(1, 1, &[(0, 1)]), (2, 1, &[(1, 1)]), (3, 1, &[(0, 1)])],
        3,
        None,
        Some((4, 3, &[(0, 2), (1, 1)])),
    ),
    (
        CITIES,
        &FACTS,
        &[
            (1, 1, &[(0, 1)]),
            (2, 1, &[(1, 1)]),
            (3, 1, &[(0, 1)]),
            (4, 3, &[(0, 2), (1, 1)]),
            (5, 1, &[(0, 1)]),
        ],
        4,
        Some((5, 1, &[(0, 1)])),
        None,
    ),
    (
        CITIES,
        &FACTS,
        &[
            (1, 1, &[(1, 1)]),
            (2, 1, &[(1, 1)]),
            (3, 1, &[(0, 1)]),
            (4, 3, &[(0, 2), (1, 1)]),
        ],
        0,
        Some((1, 1, &[(1, 1)])),
        Some((1, 1, &[(0, 1)])),
    ),
    (
        REPAIRS,
        &REPAIR_FACTS,
        &OTHER_WEIGHT,
        3,
        Some((4, 3, &[(0, 3), (4, 1)])),
        Some((4, 3, &[(0, 2), (4, 1)])),
    ),
];

/// Whether rows are those of a row, or there are none where it is none.
fn are_as(kept: &Option<KeptRows>, row: &Option<SpreadRow>) -> bool {
    match (kept, row) {
        (Some(kept), Some(row)) => is_spread(kept, row),
        (None, None) => true,
        _ => false,
    }
}

/// Whether rows that differ so are what a run ended with, which has the status of a bad store.
fn ended_with(end: &End, row: &Differing) -> bool {
    let (_, _, _, at, kept_as, anew_as) = row;
    match end {
        End::BadStore(Finding::Rows { place, kept, anew }) => {
            place == at && are_as(kept, kept_as) && are_as(anew, anew_as) && end.status() == 5
        }
        _ => false,
    }
}

/// Whether the audit of a store ends with rows that differ so.
fn is_ended_with(alloc: Global, keeper: &mut MemKeeper, row: &Differing) -> Result<bool, Memory> {
    let (end, _, _) = run_over(alloc, &["check", "s"], b"", &WHOLE, keeper)?;
    Ok(ended_with(&end, row))
}

/// Whether the audit finds that the rows differ so.
fn differ_so(alloc: Global, row: &Differing) -> Result<bool, Memory> {
    let (schema, facts, spreads, _, _, _) = *row;
    let mut keeper = keeper_of(alloc, schema, facts, spreads, &[])?;
    let differs = is_ended_with(alloc, &mut keeper, row);
    drop(keeper);
    differs
}

fn differ_each(alloc: Global, rows: &[Differing]) -> bool {
    for row in rows {
        if differ_so(alloc, row) != Ok(true) {
            return false;
        }
    }
    true
}

#[test]
fn rows_that_differ(rt: HostRuntime) {
    assert!(rt; differ_each(rt.alloc(), &DIFFERING));
}
