//! The least and the greatest that sums and counts may be over possible worlds, and where facts stand then.
use crate::distributions::QUALITY;
use crate::runs::{Case, Ending, REPAIRS, hold};
use crate::weights::BY_REPAIRS;

const CASES: [Case; 8] = [
    // The ends of sums and counts.
    (
        REPAIRS,
        "insert\t1\tAustin\tCamry\t100\ninsert\t2\tAustin\tCamry\t300\ninsert\t3\tDallas\tCamry\t50\ninsert\t4\tTX\tCamry\t600\nrange\tRepair\tAustin\tCamry\nrangecount\tAustin\tCamry\nleast\tRepair\tAustin\tCamry\ngreatest\tRepair\tTX\tCamry\ngreatest\tRepair\tAustin\tCamry\nleast\tRepair\tTX\tCamry\ngreatest\tRepair\tDallas\tCamry\nrange\tRepair\tCA\tAll\nrangecount\tCA\tAll\ngreatest\tRepair\tCA\tAll\n",
        "ok\t1\nok\t1\nok\t1\nok\t1\nrange\t400\t1000\nrangecount\t2\t3\nleast\t400\t1\t4\tDallas\tCamry\ngreatest\t1050\t1\t4\tAustin\tCamry\ngreatest\t1000\t1\t4\tAustin\tCamry\nleast\t1050\t1\t4\tAustin\tCamry\ngreatest\t650\t1\t4\tDallas\tCamry\nrange\t0\t0\nrangecount\t0\t0\ngreatest\t0\t1\t4\tAustin\tCamry\n",
        Ending::Finished { refused: 0 },
    ),
    // A value below 0 lowers the sum where it is inside.
    (
        REPAIRS,
        "insert\t1\tAustin\tCamry\t100\ninsert\t2\tAustin\tCamry\t300\ninsert\t3\tDallas\tCamry\t50\ninsert\t4\tTX\tCamry\t-600\nrange\tRepair\tAustin\tCamry\nleast\tRepair\tAustin\tCamry\ngreatest\tRepair\tAustin\tCamry\nrangecount\tDallas\tAll\n",
        "ok\t1\nok\t1\nok\t1\nok\t1\nrange\t-200\t400\nleast\t-200\t1\t4\tAustin\tCamry\ngreatest\t400\t1\t4\tDallas\tCamry\nrangecount\t1\t2\n",
        Ending::Finished { refused: 0 },
    ),
    // A value of 0 is picked in its first cell.
    (
        REPAIRS,
        "insert\t1\tAustin\tCamry\t100\ninsert\t2\tAustin\tCamry\t300\ninsert\t3\tDallas\tCamry\t50\ninsert\t4\tTX\tCamry\t0\nleast\tRepair\tDallas\tCamry\ngreatest\tRepair\tDallas\tCamry\nrangecount\tDallas\tCamry\n",
        "ok\t1\nok\t1\nok\t1\nok\t1\nleast\t50\t1\t4\tAustin\tCamry\ngreatest\t50\t1\t4\tAustin\tCamry\nrangecount\t1\t2\n",
        Ending::Finished { refused: 0 },
    ),
    // An imprecise fact of one row is picked there.
    (
        REPAIRS,
        "insert\t1\tAustin\tCamry\t5\ninsert\t4\tTX\tCamry\t600\nleast\tRepair\tAustin\tCamry\nrangecount\tAustin\tCamry\ngreatest\tRepair\tDallas\tAll\n",
        "ok\t1\nok\t1\nleast\t605\t1\t4\tAustin\tCamry\nrangecount\t2\t2\ngreatest\t0\t1\t4\tAustin\tCamry\n",
        Ending::Finished { refused: 0 },
    ),
    // The ends of no fact.
    (
        REPAIRS,
        "range\tRepair\tAll\tAll\nrangecount\tAll\tAll\nleast\tRepair\tAll\tAll\ngreatest\tRepair\tAll\tAll\n",
        "range\t0\t0\nrangecount\t0\t0\nleast\t0\t0\ngreatest\t0\t0\n",
        Ending::Finished { refused: 0 },
    ),
    // Ends by the sums of cells, and after a growth.
    (
        BY_REPAIRS,
        "insert\t1\tAustin\tCamry\t100\ninsert\t2\tAustin\tCamry\t300\ninsert\t3\tDallas\tCamry\t50\ninsert\t4\tTX\tCamry\t600\nrange\tRepair\tDallas\tCamry\nchange\t3\tDallas\tCamry\t0\nrange\tRepair\tDallas\tCamry\ngrow\tPlace\tDallas\tNorth\nrange\tRepair\tAustin\tCamry\ngrow\tPlace\tDallas\tSouth\nrangecount\tSouth\tCamry\nleast\tRepair\tNorth\tAll\n",
        "ok\t1\nok\t1\nok\t1\nok\t1\nrange\t50\t650\nok\t1\nrange\t0\t0\nok\t0\nrange\t1000\t1000\nok\t1\nrangecount\t0\t1\nleast\t0\t2\t3\tNorth\tCamry\t4\tAustin\tCamry\n",
        Ending::Finished { refused: 0 },
    ),
    // Each refusal of an end.
    (
        REPAIRS,
        "range\tPrice\tWaco\tCamry\nrange\tPrice\tAustin\tCamry\nleast\tPrice\tAustin\tCamry\ngreatest\tRepair\tAustin\tAustin\nrangecount\tWaco\tCamry\nleast\tRepair\tAustin\nrangecount\tRepair\tAustin\tCamry\nRange\tRepair\tAustin\tCamry\n",
        "error\tnode\nerror\tmeasure\nerror\tmeasure\nerror\tnode\nerror\tnode\nerror\tfields\nerror\tfields\nerror\tcommand\n",
        Ending::Finished { refused: 8 },
    ),
    // A distribution has no ends.
    (
        QUALITY,
        "insert\t1\tTX\t50:50\nrange\tQuality\tAll\ngreatest\tQuality\tAll\nrangecount\tAustin\n",
        "ok\t1\nerror\tmeasure\nerror\tmeasure\nrangecount\t0\t1\n",
        Ending::Finished { refused: 2 },
    ),
];

#[test]
fn ends_over_worlds(rt: HostRuntime) {
    assert!(rt; hold(rt.alloc(), &CASES));
}
