//! Facts that lie by the sum of a measure.
use crate::runs::{Case, Ending, hold};

/// The schema of repairs, where a cell weighs as much as its repairs cost.
pub const BY_REPAIRS: &str =
    "cube\t1\npolicy\tweight\tRepair\nnumber\tRepair\ndimension\tPlace\nnode\t0\tAll\nnode\t1\tTX\nnode\t2\tAustin\nnode\t2\tDallas\nnode\t2\tHouston\nnode\t1\tCA\nnode\t2\tLA\nnode\t2\tSF\ndimension\tAuto\nnode\t0\tAll\nnode\t1\tSedan\nnode\t2\tCamry\nnode\t2\tCivic\nnode\t1\tTruck\nnode\t2\tF150\nnode\t2\tSierra\nend\n";

/// The same with hours after the repairs, where a cell weighs as many as its hours.
const BY_HOURS: &str =
    "cube\t1\npolicy\tweight\tHours\nnumber\tRepair\nnumber\tHours\ndimension\tPlace\nnode\t0\tAll\nnode\t1\tTX\nnode\t2\tAustin\nnode\t2\tDallas\nnode\t2\tHouston\nnode\t1\tCA\nnode\t2\tLA\nnode\t2\tSF\ndimension\tAuto\nnode\t0\tAll\nnode\t1\tSedan\nnode\t2\tCamry\nnode\t2\tCivic\nnode\t1\tTruck\nnode\t2\tF150\nnode\t2\tSierra\nend\n";

const CASES: [Case; 3] = [
    (
        BY_REPAIRS,
        "insert\t1\tAustin\tCamry\t100\ninsert\t2\tAustin\tCamry\t300\ninsert\t3\tDallas\tCamry\t50\ninsert\t4\tTX\tCamry\t600\nrows\t4\nterms\tAustin\tCamry\ncount\tAustin\tCamry\nchange\t2\tAustin\tCamry\t301\nrows\t4\ninsert\t1\tLA\tCivic\t-1\nchange\t3\tDallas\tCamry\t0\nrows\t4\n",
        "ok\t1\nok\t1\nok\t1\nok\t1\nrows\t450\t2\tAustin\tCamry\t400\tDallas\tCamry\t50\nterms\t2\t1\t2\t400\t450\t400\t240000\ncount\t2.888888888\t2.888888889\t26/9\nok\t1\nrows\t451\t2\tAustin\tCamry\t401\tDallas\tCamry\t50\nerror\tvalue\nok\t1\nrows\t401\t1\tAustin\tCamry\t401\n",
        Ending::Finished { refused: 1 },
    ),
    // The values of the measure that weighs alone may not be below 0, and a cell whose sum is 0 has no row.
    (
        BY_HOURS,
        "insert\t1\tLA\tCivic\t-5\t1\ninsert\t2\tLA\tCivic\t5\t-5\ninsert\t2\tLA\tCivic\t5\t0\ninsert\t3\tLA\tSedan\t0\t0\nrows\t3\nchange\t1\tLA\tCivic\t-5\t0\nrows\t3\n",
        "ok\t1\nerror\tvalue\nok\t1\nok\t1\nrows\t1\t1\tLA\tCivic\t1\nok\t1\nrows\t2\t2\tLA\tCamry\t1\tLA\tCivic\t1\n",
        Ending::Finished { refused: 1 },
    ),
    // Where the sums of a region are 0 a fact lies evenly.
    (
        BY_REPAIRS,
        "insert\t1\tAustin\tCamry\t1000000000000\ninsert\t2\tDallas\tCamry\t0\ninsert\t3\tTX\tCamry\t-1\ninsert\t3\tTX\tCamry\t7\nrows\t3\nwithdraw\t1\nrows\t3\n",
        "ok\t1\nok\t1\nerror\tvalue\nok\t1\nrows\t1000000000000\t1\tAustin\tCamry\t1000000000000\nok\t1\nrows\t3\t3\tAustin\tCamry\t1\tDallas\tCamry\t1\tHouston\tCamry\t1\n",
        Ending::Finished { refused: 1 },
    ),
];

#[test]
fn facts_by_sums(rt: HostRuntime) {
    assert!(rt; hold(rt.alloc(), &CASES));
}
