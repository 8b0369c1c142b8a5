//! Scripts that come in pieces: what is done of them where a call fails, and how much of an input is taken.
use crate::runs::{Ending, Outside, REPAIRS, WHOLE};
use crate::stored::{run_stored, without_facts};
use cube_base::Memory;
use fact_keeper::MemKeeper;
use std::alloc::Global;

/// Two repairs in Austin: 26 bytes each.
const SCRIPT: &str = "insert\t1\tAustin\tCamry\t100\ninsert\t2\tAustin\tCamry\t300\n";

/// The call of the keeper that fails, the read, and the write; how the run ends, what is written, and the ids of the facts that are
/// kept.
type Failing = (u64, u64, u64, Ending, &'static str, &'static [u64]);

/// A read gives one byte, and a write takes five.
const FAILS: [Failing; 11] = [
    (1, 0, 0, Ending::KeepFault { done: 0 }, "", &[]),
    (2, 0, 0, Ending::KeepFault { done: 0 }, "", &[]),
    (3, 0, 0, Ending::KeepFault { done: 1 }, "ok\t1\n", &[1]),
    (0, 1, 0, Ending::ReadFault { done: 0 }, "", &[]),
    (0, 26, 0, Ending::ReadFault { done: 0 }, "", &[]),
    (0, 27, 0, Ending::ReadFault { done: 1 }, "ok\t1\n", &[1]),
    (0, 52, 0, Ending::ReadFault { done: 1 }, "ok\t1\n", &[1]),
    (
        0,
        53,
        0,
        Ending::ReadFault { done: 2 },
        "ok\t1\nok\t1\n",
        &[1, 2],
    ),
    // The read after the end is not made.
    (
        0,
        54,
        0,
        Ending::Finished { refused: 0 },
        "ok\t1\nok\t1\n",
        &[1, 2],
    ),
    (0, 0, 1, Ending::WriteFault { done: 1 }, "", &[1]),
    (0, 0, 2, Ending::WriteFault { done: 2 }, "ok\t1\n", &[1, 2]),
];

/// Whether the run ends so where one call fails.
fn fails_so(alloc: Global, row: &Failing) -> Result<bool, Memory> {
    let (keep_fails, read_fails, write_fails, end, written, ids) = *row;
    let outside = Outside {
        read_step: 1,
        read_fails,
        write_step: 5,
        write_fails,
    };
    let content = without_facts(REPAIRS);
    let kept = run_stored(
        alloc,
        "run",
        content,
        keep_fails,
        SCRIPT.as_bytes(),
        &outside,
    )?;
    let is_right = kept.ran.is(end, written) && has_ids(&kept.keeper, ids);
    drop(kept);
    Ok(is_right)
}

/// Whether the facts of these ids are kept.
fn has_ids(keeper: &MemKeeper, ids: &[u64]) -> bool {
    let facts = keeper.content().facts.as_slice();
    facts.iter().map(|fact| fact.id).eq(ids.iter().copied())
}

fn fail_so(alloc: Global, rows: &[Failing]) -> bool {
    rows.iter().all(|row| fails_so(alloc, row) == Ok(true))
}

#[test]
fn one_failure_at_each_place(rt: HostRuntime) {
    assert!(rt; fail_so(rt.alloc(), &FAILS));
}

/// Whether the reply to the first line is written, which fails, before more than one piece after the line is taken.
fn answers_before(alloc: Global) -> Result<bool, Memory> {
    let mut script = String::from_str(alloc, "insert\t1\tAustin\tCamry\t100\n")?;
    for _ in 0..200_000 {
        script.push_str("#\n")?;
    }
    let outside = Outside {
        write_fails: 1,
        ..WHOLE
    };
    let content = without_facts(REPAIRS);
    let kept = run_stored(alloc, "run", content, 0, script.as_bytes(), &outside)?;
    let taken = script.len().saturating_sub(kept.ran.left);
    let is_right = kept.ran.is(Ending::WriteFault { done: 1 }, "") && taken <= 65_562;
    drop(kept);
    Ok(is_right)
}

#[test]
fn an_answer_comes_before_the_next_piece(rt: HostRuntime) {
    assert!(rt; answers_before(rt.alloc()) == Ok(true));
}
