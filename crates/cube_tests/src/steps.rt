//! How a fact lies as others under it come, move and go.
use crate::runs::{Case, Ending, REPAIRS, hold};

/// A state with one city, and one with two, where each city weighs the same.
const EVENLY: &str =
    "cube\t1\npolicy\tuniform\nnumber\tRepair\ndimension\tPlace\nnode\t0\tAll\nnode\t1\tNV\nnode\t2\tReno\nnode\t1\tTX\nnode\t2\tAustin\nnode\t2\tDallas\nend\n";

/// The same where a city weighs as many as its facts.
const BY_COUNT: &str =
    "cube\t1\npolicy\tcount\nnumber\tRepair\ndimension\tPlace\nnode\t0\tAll\nnode\t1\tNV\nnode\t2\tReno\nnode\t1\tTX\nnode\t2\tAustin\nnode\t2\tDallas\nend\n";

/// The same where it weighs as much as its repairs cost.
const BY_REPAIRS: &str =
    "cube\t1\npolicy\tweight\tRepair\nnumber\tRepair\ndimension\tPlace\nnode\t0\tAll\nnode\t1\tNV\nnode\t2\tReno\nnode\t1\tTX\nnode\t2\tAustin\nnode\t2\tDallas\nend\n";

/// A first fact comes, two others do, the first moves, all are withdrawn, one of no value comes, and it moves and gets a value.
const SCRIPT: &str =
    "insert\t9\tAll\t0\nrows\t9\ninsert\t1\tAustin\t5\nrows\t9\ninsert\t2\tReno\t10\ninsert\t3\tReno\t20\nrows\t9\nchange\t1\tDallas\t5\nrows\t9\nwithdraw\t2\nwithdraw\t3\nwithdraw\t1\nrows\t9\ninsert\t1\tAustin\t0\nrows\t9\nchange\t1\tDallas\t7\nrows\t9\n";

const CASES: [Case; 4] = [
    (
        EVENLY,
        SCRIPT,
        "ok\t1\nrows\t3\t3\tReno\t1\tAustin\t1\tDallas\t1\nok\t1\nrows\t3\t3\tReno\t1\tAustin\t1\tDallas\t1\nok\t1\nok\t1\nrows\t3\t3\tReno\t1\tAustin\t1\tDallas\t1\nok\t1\nrows\t3\t3\tReno\t1\tAustin\t1\tDallas\t1\nok\t0\nok\t0\nok\t0\nrows\t3\t3\tReno\t1\tAustin\t1\tDallas\t1\nok\t1\nrows\t3\t3\tReno\t1\tAustin\t1\tDallas\t1\nok\t1\nrows\t3\t3\tReno\t1\tAustin\t1\tDallas\t1\n",
        Ending::Finished { refused: 0 },
    ),
    (
        BY_COUNT,
        SCRIPT,
        "ok\t1\nrows\t3\t3\tReno\t1\tAustin\t1\tDallas\t1\nok\t2\nrows\t1\t1\tAustin\t1\nok\t2\nok\t2\nrows\t3\t2\tReno\t2\tAustin\t1\nok\t2\nrows\t3\t2\tReno\t2\tDallas\t1\nok\t1\nok\t1\nok\t1\nrows\t3\t3\tReno\t1\tAustin\t1\tDallas\t1\nok\t2\nrows\t1\t1\tAustin\t1\nok\t2\nrows\t1\t1\tDallas\t1\n",
        Ending::Finished { refused: 0 },
    ),
    (
        BY_REPAIRS,
        SCRIPT,
        "ok\t1\nrows\t3\t3\tReno\t1\tAustin\t1\tDallas\t1\nok\t2\nrows\t5\t1\tAustin\t5\nok\t2\nok\t2\nrows\t35\t2\tReno\t30\tAustin\t5\nok\t2\nrows\t35\t2\tReno\t30\tDallas\t5\nok\t1\nok\t1\nok\t1\nrows\t3\t3\tReno\t1\tAustin\t1\tDallas\t1\nok\t1\nrows\t3\t3\tReno\t1\tAustin\t1\tDallas\t1\nok\t2\nrows\t7\t1\tDallas\t7\n",
        Ending::Finished { refused: 0 },
    ),
    // Of two dimensions.
    (
        REPAIRS,
        "insert\t9\tTX\tCamry\t0\ninsert\t1\tAustin\tCamry\t0\nrows\t9\ninsert\t2\tAustin\tCamry\t0\nrows\t9\ninsert\t3\tDallas\tCamry\t0\nrows\t9\nchange\t3\tHouston\tCamry\t0\nrows\t9\nchange\t3\tDallas\tCamry\t0\nwithdraw\t2\nrows\t9\nwithdraw\t1\nrows\t9\nwithdraw\t3\nrows\t9\n",
        "ok\t1\nok\t2\nrows\t1\t1\tAustin\tCamry\t1\nok\t2\nrows\t2\t1\tAustin\tCamry\t2\nok\t2\nrows\t3\t2\tAustin\tCamry\t2\tDallas\tCamry\t1\nok\t2\nrows\t3\t2\tAustin\tCamry\t2\tHouston\tCamry\t1\nok\t2\nok\t1\nrows\t2\t2\tAustin\tCamry\t1\tDallas\tCamry\t1\nok\t1\nrows\t1\t1\tDallas\tCamry\t1\nok\t1\nrows\t3\t3\tAustin\tCamry\t1\tDallas\tCamry\t1\tHouston\tCamry\t1\n",
        Ending::Finished { refused: 0 },
    ),
];

#[test]
fn facts_that_are_spread_anew(rt: HostRuntime) {
    assert!(rt; hold(rt.alloc(), &CASES));
}
