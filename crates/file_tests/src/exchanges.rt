//! Stores that are exchanged when all input is read, after the last edit.
use crate::commands::{CITIES, input_of, is_told};
use crate::sources::{Exchanging, Way};
use crate::sql::run_script;
use cube_program::Counted;
use sqlite_file::Reason;
use std::alloc::AllocError;
use std::test::Fail;

/// An edit, a question and a line that is refused. The last has no LF.
const SCRIPT: &str = "insert\t1\tAustin\t100\ncount\tTX\nwithdraw\t9";

/// What it is answered.
const ANSWERS: &str = "ok\t1\ncount\t1.000000000\t1.000000000\t1\nerror\tmissing\n";

/// What it writes where it leads: the base, which has no facts, and the batch of the edit.
const FEED: &str =
    "feed\t1\ncube\t1\npolicy\tcount\nnumber\tRepair\ndimension\tPlace\nnode\t0\tAll\nnode\t1\tTX\nnode\t2\tAustin\nnode\t2\tDallas\nnode\t2\tHouston\nend\nbased\nbatch\t1\tinsert\t1\tAustin\t100\nrows\t1\t1\t1\nrow\tAustin\t1\ndone\n";

/// The base alone.
const BASE: &str =
    "feed\t1\ncube\t1\npolicy\tcount\nnumber\tRepair\ndimension\tPlace\nnode\t0\tAll\nnode\t1\tTX\nnode\t2\tAustin\nnode\t2\tDallas\nnode\t2\tHouston\nend\nbased\n";

/// A question, and what it is answered where there is no fact.
const QUESTION: &str = "count\tTX\n";

const NONE: &str = "count\t0.000000000\t0.000000000\t0\n";

/// How a run ends.
#[derive(Clone, Copy)]
enum Ending {
    /// It is done, with this status.
    Done(u8),
    /// So many lines or batches are done, and the store was exchanged.
    Exchanged(u64),
}

/// The word of a command, the name of its store, the input, how the file is exchanged, what is written, and how the run ends.
type Call = (
    &'static str,
    &'static str,
    &'static str,
    Way,
    &'static str,
    Ending,
);

/// Calls over stores without facts. The last writes no batch.
const CALLS: [Call; 10] = [
    (
        "run",
        "left.cube",
        SCRIPT,
        Way::Left,
        ANSWERS,
        Ending::Done(1),
    ),
    (
        "run",
        "over.cube",
        SCRIPT,
        Way::Moved("other.cube", "over.cube"),
        ANSWERS,
        Ending::Exchanged(3),
    ),
    (
        "run",
        "gone.cube",
        SCRIPT,
        Way::Removed("gone.cube"),
        ANSWERS,
        Ending::Exchanged(3),
    ),
    (
        "run",
        "away.cube",
        SCRIPT,
        Way::Moved("away.cube", "taken.cube"),
        ANSWERS,
        Ending::Exchanged(3),
    ),
    (
        "run",
        "empty.cube",
        SCRIPT,
        Way::Emptied("empty.cube"),
        ANSWERS,
        Ending::Exchanged(3),
    ),
    (
        "run",
        "bare.cube",
        SCRIPT,
        Way::Removed("bare.cube-wal"),
        ANSWERS,
        Ending::Exchanged(3),
    ),
    (
        "run",
        "cut.cube",
        SCRIPT,
        Way::Emptied("cut.cube-wal"),
        ANSWERS,
        Ending::Exchanged(3),
    ),
    (
        "lead",
        "lead.cube",
        SCRIPT,
        Way::Removed("lead.cube"),
        FEED,
        Ending::Exchanged(3),
    ),
    (
        "follow",
        "follow.cube",
        FEED,
        Way::Removed("follow.cube"),
        "applied\t1\n",
        Ending::Exchanged(1),
    ),
    (
        "run",
        "asked.cube",
        QUESTION,
        Way::Removed("asked.cube"),
        NONE,
        Ending::Done(0),
    ),
];

/// Calls over stores in which there is nothing, so that the base is kept first.
const NEW: [Call; 3] = [
    (
        "follow",
        "new.cube",
        FEED,
        Way::Left,
        "applied\t1\n",
        Ending::Done(0),
    ),
    (
        "follow",
        "fresh.cube",
        FEED,
        Way::Removed("fresh.cube"),
        "applied\t1\n",
        Ending::Exchanged(1),
    ),
    (
        "follow",
        "base.cube",
        BASE,
        Way::Removed("base.cube"),
        "",
        Ending::Exchanged(0),
    ),
];

/// What is told of an end, and the status.
fn told_of(rt: &HostRuntime, name: &str, ending: Ending) -> Result<(String, u8), AllocError> {
    let alloc = rt.alloc();
    let reason = Reason::Exchanged;
    match ending {
        Ending::Done(status) => Ok((String::new(alloc), status)),
        Ending::Exchanged(done) => {
            let told = format!(in alloc;
                "cube: {name}: {reason}\ncube: store fault after line {done}\n"
            )?;
            Ok((told, 8))
        }
    }
}

/// Whether a call is answered so.
fn is_answered(rt: &HostRuntime, call: &Call) -> Result<bool, AllocError> {
    let (word, name, input, way, written, ending) = *call;
    let (error, status) = told_of(rt, name, ending)?;
    let input = input_of(rt.alloc(), input, 0)?;
    let mut source = Counted::new(Exchanging::new(rt, input, way));
    is_told(
        rt,
        &[word, name],
        &mut source,
        0,
        (written, error.as_str(), status),
    )
}

/// Whether a store without facts is made.
fn is_made(rt: &HostRuntime, name: &str) -> Result<bool, AllocError> {
    let mut schema = Counted::new(input_of(rt.alloc(), CITIES, 0)?);
    is_told(rt, &["init", name], &mut schema, 0, ("ok\t0\n", "", 0))
}

fn are_made(rt: &HostRuntime, calls: &[Call]) -> bool {
    calls.iter().all(|call| is_made(rt, call.1) == Ok(true))
}

fn are_answered(rt: &HostRuntime, calls: &[Call]) -> bool {
    calls.iter().all(|call| is_answered(rt, call) == Ok(true))
}

#[test]
fn stores_exchanged_after_the_last_edit(rt: HostRuntime) -> Result<(), Fail> {
    run_script(&rt, "other.cube", "CREATE TABLE other (a TEXT)")?;
    assert!(rt; are_made(&rt, &CALLS) && are_answered(&rt, &CALLS));
    assert!(rt; are_answered(&rt, &NEW));
    Ok(())
}
