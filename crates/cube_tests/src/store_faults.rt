//! Faults of the keeper, and of the sink where something is kept.
use crate::runs::{ALL, Ending, Outside, REPAIRS, WHOLE};
use crate::stored::{CITIES, run_stored, without_facts};
use cube_base::Memory;
use fact_keeper::MemKeeper;
use std::alloc::Global;

/// The number of the keeper's call that fails, how many bytes a write takes, and the number of the one that fails; how the run ends,
/// what is written, how many batches are kept, and the ids of the facts that the store then has.
pub type Fault = (u64, usize, u64, Ending, &'static str, usize, &'static [u64]);

/// The second and the fourth line commit.
const SCRIPT: &str = "# two facts\ninsert\t1\tAustin\t10\nrows\t1\ninsert\t2\tDallas\t20\n";

/// The load is the first call. All replies are written before a commit.
const RUNS: [Fault; 6] = [
    (1, ALL, 0, Ending::KeepFault { done: 0 }, "", 0, &[]),
    (2, ALL, 0, Ending::KeepFault { done: 1 }, "", 0, &[]),
    (
        3,
        ALL,
        0,
        Ending::KeepFault { done: 3 },
        "ok\t1\nrows\t1\t1\tAustin\t1\n",
        1,
        &[1],
    ),
    (
        4,
        ALL,
        0,
        Ending::Finished { refused: 0 },
        "ok\t1\nrows\t1\t1\tAustin\t1\nok\t1\n",
        2,
        &[1, 2],
    ),
    (0, ALL, 1, Ending::WriteFault { done: 2 }, "", 1, &[1]),
    (
        0,
        ALL,
        2,
        Ending::WriteFault { done: 4 },
        "ok\t1\nrows\t1\t1\tAustin\t1\n",
        2,
        &[1, 2],
    ),
];

/// Two repairs in Austin.
const REPAIRS_IN_AUSTIN: &str = "insert\t1\tAustin\tCamry\t100\ninsert\t2\tAustin\tCamry\t300\n";

/// The load is the first call. The fourth write is the second of the second reply.
const REPAIR_RUNS: [Fault; 3] = [
    (3, ALL, 0, Ending::KeepFault { done: 1 }, "ok\t1\n", 1, &[1]),
    (
        0,
        3,
        4,
        Ending::WriteFault { done: 2 },
        "ok\t1\nok\t",
        2,
        &[1, 2],
    ),
    (
        0,
        ALL,
        0,
        Ending::Finished { refused: 0 },
        "ok\t1\nok\t1\n",
        2,
        &[1, 2],
    ),
];

/// The load is the first call, and the commit the second.
const MAKES: [Fault; 4] = [
    (1, ALL, 0, Ending::KeepFault { done: 0 }, "", 0, &[]),
    (2, ALL, 0, Ending::KeepFault { done: 0 }, "", 0, &[]),
    (
        3,
        ALL,
        0,
        Ending::Finished { refused: 0 },
        "ok\t0\n",
        1,
        &[],
    ),
    (0, ALL, 1, Ending::WriteFault { done: 1 }, "", 1, &[]),
];

const AUDITS: [Fault; 3] = [
    (1, ALL, 0, Ending::KeepFault { done: 0 }, "", 0, &[]),
    (
        2,
        ALL,
        0,
        Ending::Finished { refused: 0 },
        "sound\t0\t0\n",
        0,
        &[],
    ),
    (0, ALL, 1, Ending::WriteFault { done: 0 }, "", 0, &[]),
];

/// The second write is that of the fourth byte on.
const SCHEMAS: [Fault; 3] = [
    (1, ALL, 0, Ending::KeepFault { done: 0 }, "", 0, &[]),
    (0, ALL, 1, Ending::WriteFault { done: 0 }, "", 0, &[]),
    (0, 3, 2, Ending::WriteFault { done: 0 }, "cub", 0, &[]),
];

const ROWS: [Fault; 3] = [
    (1, ALL, 0, Ending::KeepFault { done: 0 }, "", 0, &[]),
    (0, ALL, 1, Ending::WriteFault { done: 0 }, "", 0, &[]),
    (0, 3, 2, Ending::WriteFault { done: 0 }, "id,", 0, &[]),
];

/// Whether a store has so many batches, and facts of these ids.
pub fn has_kept(keeper: &MemKeeper, batches: usize, ids: &[u64]) -> bool {
    keeper.journal().len() == batches
        && keeper
            .content()
            .facts
            .as_slice()
            .iter()
            .map(|fact| fact.id)
            .eq(ids.iter().copied())
}

/// Whether a command over the text of a schema in a store ends so at a fault.
fn ends_so(
    alloc: Global,
    word: &str,
    schema: &str,
    input: &str,
    row: &Fault,
) -> Result<bool, Memory> {
    let (keep_fails, write_step, write_fails, end, written, batches, ids) = *row;
    let outside = Outside {
        write_step,
        write_fails,
        ..WHOLE
    };
    let content = without_facts(schema);
    let kept = run_stored(alloc, word, content, keep_fails, input.as_bytes(), &outside)?;
    let is_right = kept.ran.is(end, written) && has_kept(&kept.keeper, batches, ids);
    drop(kept);
    Ok(is_right)
}

/// Whether a command does so at each of them.
pub fn end_so(alloc: Global, word: &str, schema: &str, input: &str, rows: &[Fault]) -> bool {
    rows.iter()
        .all(|row| ends_so(alloc, word, schema, input, row) == Ok(true))
}

#[test]
fn faults_of_a_script_over_a_store(rt: HostRuntime) {
    assert!(rt; end_so(rt.alloc(), "run", CITIES, SCRIPT, &RUNS));
}

#[test]
fn faults_of_a_script_over_repairs(rt: HostRuntime) {
    assert!(rt; end_so(rt.alloc(), "run", REPAIRS, REPAIRS_IN_AUSTIN, &REPAIR_RUNS));
}

#[test]
fn faults_where_a_store_is_made(rt: HostRuntime) {
    assert!(rt; end_so(rt.alloc(), "init", "", CITIES, &MAKES));
}

#[test]
fn faults_of_an_audit(rt: HostRuntime) {
    assert!(rt; end_so(rt.alloc(), "check", CITIES, "", &AUDITS));
}

#[test]
fn faults_where_a_schema_is_told(rt: HostRuntime) {
    assert!(rt; end_so(rt.alloc(), "schema", CITIES, "", &SCHEMAS));
}

#[test]
fn faults_where_rows_are_told(rt: HostRuntime) {
    assert!(rt; end_so(rt.alloc(), "rows", CITIES, "", &ROWS));
}
