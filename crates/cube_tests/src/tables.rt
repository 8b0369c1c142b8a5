//! Tables: regions that others are cut into, with what is answered of each.
use crate::distributions::QUALITY;
use crate::replies::{NUMBERED, STATES, UNEVEN};
use crate::runs::{Case, Ending, REPAIRS, hold};
use crate::weights::BY_REPAIRS;

const CASES: [Case; 16] = [
    // Cities of a state.
    (
        REPAIRS,
        "insert\t1\tAustin\tCamry\t100\ninsert\t2\tAustin\tCamry\t300\ninsert\t3\tDallas\tCamry\t50\ninsert\t4\tTX\tCamry\t600\ncounts\t2\t0\tTX\tAll\nsums\tRepair\t2\t0\tTX\tAll\navgs\tRepair\t2\t0\tTX\tAll\ncounts\t0\t0\tAll\tAll\n",
        "ok\t1\nok\t1\nok\t1\nok\t1\ncounts\t2\tAustin\tAll\t2.666666666\t2.666666667\t8/3\tDallas\tAll\t1.333333333\t1.333333334\t4/3\nsums\t2\tAustin\tAll\t800.000000000\t800.000000000\t800\tDallas\tAll\t250.000000000\t250.000000000\t250\navgs\t2\tAustin\tAll\t300.000000000\t300.000000000\t300\tDallas\tAll\t187.500000000\t187.500000000\t375/2\ncounts\t1\tAll\tAll\t4.000000000\t4.000000000\t4\n",
        Ending::Finished { refused: 0 },
    ),
    // States by kinds, where one region has facts.
    (
        REPAIRS,
        "insert\t1\tAustin\tCamry\t100\ninsert\t2\tAustin\tCamry\t300\ninsert\t3\tDallas\tCamry\t50\ninsert\t4\tTX\tCamry\t600\nsums\tRepair\t1\t1\tAll\tAll\navgs\tRepair\t1\t1\tAll\tAll\n",
        "ok\t1\nok\t1\nok\t1\nok\t1\nsums\t1\tTX\tSedan\t1050.000000000\t1050.000000000\t1050\navgs\t1\tTX\tSedan\t262.500000000\t262.500000000\t525/2\n",
        Ending::Finished { refused: 0 },
    ),
    // A cut above the node that is asked has this node.
    (
        REPAIRS,
        "insert\t1\tAustin\tCamry\t100\ninsert\t2\tAustin\tCamry\t300\ninsert\t3\tDallas\tCamry\t50\ninsert\t4\tTX\tCamry\t600\ncounts\t1\t0\tDallas\tAll\ncounts\t0\t0\tDallas\tCamry\nsums\tRepair\t0\t2\tAustin\tSedan\navgs\tRepair\t1\t0\tAustin\tCamry\ncounts\t1\t1\tTX\tSedan\ncounts\t0\t0\tHouston\tCamry\n",
        "ok\t1\nok\t1\nok\t1\nok\t1\ncounts\t1\tDallas\tAll\t1.333333333\t1.333333334\t4/3\ncounts\t1\tDallas\tCamry\t1.333333333\t1.333333334\t4/3\nsums\t1\tAustin\tCamry\t800.000000000\t800.000000000\t800\navgs\t1\tAustin\tCamry\t300.000000000\t300.000000000\t300\ncounts\t1\tTX\tSedan\t4.000000000\t4.000000000\t4\ncounts\t0\n",
        Ending::Finished { refused: 0 },
    ),
    // A cut below the tree has its leaves.
    (
        REPAIRS,
        "insert\t1\tAustin\tCamry\t100\ninsert\t2\tAustin\tCamry\t300\ninsert\t3\tDallas\tCamry\t50\ninsert\t4\tTX\tCamry\t600\ncounts\t8\t0\tTX\tAll\nsums\tRepair\t8\t8\tDallas\tAll\ncounts\t3\t8\tAll\tAll\n",
        "ok\t1\nok\t1\nok\t1\nok\t1\ncounts\t2\tAustin\tAll\t2.666666666\t2.666666667\t8/3\tDallas\tAll\t1.333333333\t1.333333334\t4/3\nsums\t1\tDallas\tCamry\t250.000000000\t250.000000000\t250\ncounts\t2\tAustin\tCamry\t2.666666666\t2.666666667\t8/3\tDallas\tCamry\t1.333333333\t1.333333334\t4/3\n",
        Ending::Finished { refused: 0 },
    ),
    // Regions without facts are not listed.
    (
        REPAIRS,
        "insert\t1\tAustin\tCamry\t100\ninsert\t2\tAustin\tCamry\t300\ninsert\t3\tDallas\tCamry\t50\ninsert\t4\tTX\tCamry\t600\ncounts\t2\t1\tCA\tAll\nsums\tRepair\t0\t0\tLA\tAll\navgs\tRepair\t1\t0\tCA\tAll\navg\tRepair\tCA\tAll\ncounts\t2\t2\tTX\tTruck\n",
        "ok\t1\nok\t1\nok\t1\nok\t1\ncounts\t0\nsums\t0\navgs\t0\nerror\tundefined\ncounts\t0\n",
        Ending::Finished { refused: 1 },
    ),
    // Tables of no fact.
    (
        REPAIRS,
        "counts\t0\t0\tAll\tAll\ncounts\t2\t2\tAll\tAll\nsums\tRepair\t1\t1\tAll\tAll\navgs\tRepair\t1\t1\tAll\tAll\npools\tRepair\t1\t1\tAll\tAll\n",
        "counts\t0\ncounts\t0\nsums\t0\navgs\t0\nerror\tmeasure\n",
        Ending::Finished { refused: 1 },
    ),
    // A region whose sum is 0 is listed.
    (
        REPAIRS,
        "insert\t1\tLA\tCivic\t-5\ninsert\t2\tLA\tCivic\t5\nsums\tRepair\t2\t1\tCA\tAll\navgs\tRepair\t2\t1\tCA\tAll\n",
        "ok\t1\nok\t1\nsums\t1\tLA\tSedan\t0.000000000\t0.000000000\t0\navgs\t1\tLA\tSedan\t0.000000000\t0.000000000\t0\n",
        Ending::Finished { refused: 0 },
    ),
    // The first dimension of a table is slowest.
    (
        REPAIRS,
        "insert\t1\tLA\tF150\t7\ninsert\t2\tSF\tCivic\t5\ninsert\t3\tAustin\tSierra\t3\ninsert\t4\tDallas\tTruck\t-1\ncounts\t1\t1\tAll\tAll\nsums\tRepair\t1\t2\tAll\tTruck\navgs\tRepair\t1\t2\tTX\tTruck\n",
        "ok\t1\nok\t1\nok\t1\nok\t1\ncounts\t3\tTX\tTruck\t2.000000000\t2.000000000\t2\tCA\tSedan\t1.000000000\t1.000000000\t1\tCA\tTruck\t1.000000000\t1.000000000\t1\nsums\t3\tTX\tF150\t-0.500000000\t-0.500000000\t-1/2\tTX\tSierra\t2.500000000\t2.500000000\t5/2\tCA\tF150\t7.000000000\t7.000000000\t7\navgs\t2\tTX\tF150\t-1.000000000\t-1.000000000\t-1\tTX\tSierra\t1.666666666\t1.666666667\t5/3\n",
        Ending::Finished { refused: 0 },
    ),
    // A leaf less deep than the cut.
    (
        UNEVEN,
        "insert\t1\tReno\ninsert\t2\tDC\ninsert\t3\tNV\ncounts\t2\tAll\ncounts\t1\tAll\ncounts\t0\tAll\ncounts\t2\tNV\ncounts\t8\tDC\ncounts\t0\tDC\ncounts\t1\tElko\n",
        "ok\t1\nok\t1\nok\t1\ncounts\t2\tReno\t2.000000000\t2.000000000\t2\tDC\t1.000000000\t1.000000000\t1\ncounts\t2\tNV\t2.000000000\t2.000000000\t2\tDC\t1.000000000\t1.000000000\t1\ncounts\t1\tAll\t3.000000000\t3.000000000\t3\ncounts\t1\tReno\t2.000000000\t2.000000000\t2\ncounts\t1\tDC\t1.000000000\t1.000000000\t1\ncounts\t1\tDC\t1.000000000\t1.000000000\t1\ncounts\t0\n",
        Ending::Finished { refused: 0 },
    ),
    // A node with one node below it.
    (
        STATES,
        "insert\t1\tNV\ncounts\t1\tAll\ncounts\t2\tNV\ncounts\t1\tNV\ncounts\t1\tReno\n",
        "ok\t1\ncounts\t1\tNV\t1.000000000\t1.000000000\t1\ncounts\t1\tReno\t1.000000000\t1.000000000\t1\ncounts\t1\tNV\t1.000000000\t1.000000000\t1\ncounts\t1\tReno\t1.000000000\t1.000000000\t1\n",
        Ending::Finished { refused: 0 },
    ),
    // A table has the order of the lines, not of the numbers.
    (
        NUMBERED,
        "insert\t1\tNV\ninsert\t2\tTX\ncounts\t1\tAll\n",
        "ok\t1\nok\t1\ncounts\t2\tTX\t1.000000000\t1.000000000\t1\tNV\t1.000000000\t1.000000000\t1\n",
        Ending::Finished { refused: 0 },
    ),
    // Tables of distributions.
    (
        QUALITY,
        "pools\tQuality\t2\tAll\ninsert\t1\tAustin\t80:20\ninsert\t2\tTX\t50:50\npools\tQuality\t2\tTX\npools\tQuality\t1\tAll\ncounts\t2\tAll\npools\tQuality\t1\tCA\npool\tQuality\tCA\nsums\tQuality\t1\tAll\navgs\tQuality\t1\tAll\npools\tRepair\t1\tAll\n",
        "pools\t0\nok\t1\nok\t1\npools\t2\tAustin\t0.700000000\t0.700000000\t7/10\t0.300000000\t0.300000000\t3/10\tDallas\t0.500000000\t0.500000000\t1/2\t0.500000000\t0.500000000\t1/2\npools\t1\tTX\t0.650000000\t0.650000000\t13/20\t0.350000000\t0.350000000\t7/20\ncounts\t2\tAustin\t1.500000000\t1.500000000\t3/2\tDallas\t0.500000000\t0.500000000\t1/2\npools\t0\nerror\tundefined\nerror\tmeasure\nerror\tmeasure\nerror\tmeasure\n",
        Ending::Finished { refused: 4 },
    ),
    // Tables after a growth.
    (
        REPAIRS,
        "insert\t1\tAustin\tCamry\t100\ninsert\t2\tAustin\tCamry\t300\ninsert\t3\tDallas\tCamry\t50\ninsert\t4\tTX\tCamry\t600\ngrow\tPlace\tAustin\tNorth\ncounts\t2\t0\tTX\tAll\ncounts\t3\t0\tTX\tAll\ncounts\t2\t0\tNorth\tAll\ngrow\tPlace\tAustin\tSouth\ncounts\t3\t0\tTX\tAll\nsums\tRepair\t3\t0\tTX\tAll\ncounts\t2\t0\tTX\tAll\n",
        "ok\t1\nok\t1\nok\t1\nok\t1\nok\t0\ncounts\t2\tAustin\tAll\t2.666666666\t2.666666667\t8/3\tDallas\tAll\t1.333333333\t1.333333334\t4/3\ncounts\t2\tNorth\tAll\t2.666666666\t2.666666667\t8/3\tDallas\tAll\t1.333333333\t1.333333334\t4/3\ncounts\t1\tNorth\tAll\t2.666666666\t2.666666667\t8/3\nok\t4\ncounts\t3\tNorth\tAll\t1.000000000\t1.000000000\t1\tSouth\tAll\t1.000000000\t1.000000000\t1\tDallas\tAll\t2.000000000\t2.000000000\t2\nsums\t3\tNorth\tAll\t200.000000000\t200.000000000\t200\tSouth\tAll\t200.000000000\t200.000000000\t200\tDallas\tAll\t650.000000000\t650.000000000\t650\ncounts\t2\tAustin\tAll\t2.000000000\t2.000000000\t2\tDallas\tAll\t2.000000000\t2.000000000\t2\n",
        Ending::Finished { refused: 0 },
    ),
    // A weight of 0 in a table.
    (
        BY_REPAIRS,
        "insert\t1\tAustin\tCamry\t0\ninsert\t2\tDallas\tCamry\t5\ninsert\t3\tTX\tCamry\t7\ncounts\t2\t0\tTX\tAll\nsums\tRepair\t2\t0\tTX\tAll\nwithdraw\t1\ncounts\t2\t0\tTX\tAll\n",
        "ok\t1\nok\t1\nok\t1\ncounts\t2\tAustin\tAll\t1.000000000\t1.000000000\t1\tDallas\tAll\t2.000000000\t2.000000000\t2\nsums\t2\tAustin\tAll\t0.000000000\t0.000000000\t0\tDallas\tAll\t12.000000000\t12.000000000\t12\nok\t0\ncounts\t1\tDallas\tAll\t2.000000000\t2.000000000\t2\n",
        Ending::Finished { refused: 0 },
    ),
    // Each refusal of a table.
    (
        REPAIRS,
        "counts\t1\t0\tTX\tA\x01ll\nCounts\t1\t0\tTX\tAll\ncount s\t1\t0\tTX\tAll\ncounts\ncounts\t1\t0\tTX\ncounts\tTX\tAll\ncounts\t1\t0\tTX\tAll\tAll\ncounts\tRepair\t1\t0\tTX\tAll\nsums\t1\t0\tTX\tAll\npools\tRepair\t1\t0\tTX\tAll\t\ncounts\t9\t0\tTX\tAll\ncounts\t01\t0\tTX\tAll\ncounts\t00\t0\tTX\tAll\ncounts\t\t0\tTX\tAll\ncounts\t-1\t0\tTX\tAll\ncounts\t+1\t0\tTX\tAll\ncounts\t1.0\t0\tTX\tAll\ncounts\tx\t0\tTX\tAll\ncounts\t 1\t0\tTX\tAll\ncounts\t18446744073709551616\t0\tTX\tAll\ncounts\t1\t9\tTX\tAll\ncounts\tTX\tAll\t1\t0\ncounts\t1\t0\tWaco\tAll\ncounts\t1\t0\tTX\tWaco\ncounts\t1\t0\t\tAll\ncounts\t2\t2\tCamry\tAustin\nsums\tPrice\t1\t0\tTX\tAll\navgs\tPrice\t1\t0\tTX\tAll\npools\tPrice\t1\t0\tTX\tAll\npools\tRepair\t1\t0\tTX\tAll\nsums\t\t1\t0\tTX\tAll\nsums\tPlace\t1\t0\tTX\tAll\ncounts\t8\t8\tTX\tAll\r\n",
        "error\ttext\nerror\tcommand\nerror\tcommand\nerror\tfields\nerror\tfields\nerror\tfields\nerror\tfields\nerror\tfields\nerror\tfields\nerror\tfields\nerror\tnumber\nerror\tnumber\nerror\tnumber\nerror\tnumber\nerror\tnumber\nerror\tnumber\nerror\tnumber\nerror\tnumber\nerror\tnumber\nerror\tnumber\nerror\tnumber\nerror\tnumber\nerror\tnode\nerror\tnode\nerror\tnode\nerror\tnode\nerror\tmeasure\nerror\tmeasure\nerror\tmeasure\nerror\tmeasure\nerror\tmeasure\nerror\tmeasure\ncounts\t0\n",
        Ending::Finished { refused: 32 },
    ),
    // The first of two refusals of a table.
    (
        REPAIRS,
        "Counts\t1\t\x01\nCounts\t9\tWaco\ncounts\t9\tWaco\nsums\tPrice\t9\t0\tTX\ncounts\t9\t0\tWaco\tAll\ncounts\t0\t01\tTX\tWaco\nsums\tPrice\t9\t0\tTX\tAll\npools\tRepair\t9\t0\tWaco\tAll\nsums\tPrice\t1\t0\tWaco\tAll\npools\tRepair\t1\t0\tTX\tWaco\n",
        "error\ttext\nerror\tcommand\nerror\tfields\nerror\tfields\nerror\tnumber\nerror\tnumber\nerror\tnumber\nerror\tnumber\nerror\tnode\nerror\tnode\n",
        Ending::Finished { refused: 10 },
    ),
];

#[test]
fn tables_of_regions(rt: HostRuntime) {
    assert!(rt; hold(rt.alloc(), &CASES));
}
